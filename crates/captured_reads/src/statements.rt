// A walk past statements, and the local classes that stand among them (JLS 14.3).

ghost use Rattle.std.specs.Prelude.{◌≡◌, IfOk, length, map, option_map};
ghost use Rattle.je_core.specs.Core.{core_stmts, maybe_stmt, core_groups, core_catches};
ghost use Rattle.je_core.specs.View.{view, views, view_if, stmt_view, stmt_form_view, stmt_views, stmt_view_if, group_view, catch_view, label_view, program_view};
ghost use Rattle.captured_reads.specs.Walks as the;
ghost use Rattle.captured_reads.specs.View.{walk_view};

use crate::expressions::{past, past_all};
use crate::walks::{Around, Walk, closed, opened, up_to};
use je_core::{Catch, Expr, Group, Label, Memory, Span, Stmt, StmtForm};
use std::alloc::Global;
use std::rc::Rc;

fn first_label(labels: &[Label]) -> Option<Span>
    ensures { result ≡ the.first_label (map label_view labels.now) }
{
    Some(labels.first()?.span)
}

// Where the statements of a group end, by the groups behind it and the end of the switch.
fn group_end(end: u32, groups: &[Group]) -> u32
    ensures { result ≡ the.group_end end (core_groups (map group_view groups.now)) }
{
    match groups.first() {
        None => end,
        Some(group) => group_start(end, group),
    }
}

#[tactic(auto, using(je_core::proofs::Views::group_view_is))]
fn group_start(end: u32, group: &Group) -> u32
    ensures { result ≡ the.group_start end (group_view group.now) }
{
    match first_label(&group.labels) {
        None => end,
        Some(span) => span.start,
    }
}

fn past_value<'a>(
    alloc: Global,
    around: &Around,
    walk: Walk<'a>,
    value: &Option<Rc<Expr>>,
) -> Result<Walk<'a>, Memory>
    ensures { IfOk result (λ w. walk_view w ≡ the.past_value
        (program_view around.now.program.now) around.now.locals.now (walk_view walk.entry)
        (view_if value.now)) }
{
    match value {
        None => Ok(walk),
        Some(value) => past(alloc, around, walk, value),
    }
}

fn past_each<'a>(
    alloc: Global,
    around: &Around,
    walk: Walk<'a>,
    parts: &[Rc<Expr>],
) -> Result<Walk<'a>, Memory>
    ensures { IfOk result (λ w. walk_view w ≡ the.past_each
        (program_view around.now.program.now) around.now.locals.now (walk_view walk.entry)
        (views parts.now)) }
{
    let mut walk = walk;
    for part in parts {
        walk = past(alloc, around, walk, part)?;
    }
    Ok(walk)
}

// Past a statement.
#[cycle(statements)]
#[tactic(auto, using(je_core::proofs::Views::stmt_view_is))]
pub(crate) fn past_statement<'a>(
    alloc: Global,
    around: &Around,
    walk: Walk<'a>,
    statement: &Stmt,
) -> Result<Walk<'a>, Memory>
    ensures { IfOk result (λ w. walk_view w ≡ the.past_statement
        (program_view around.now.program.now) around.now.locals.now (walk_view walk.entry)
        (stmt_view statement.now)) }
{
    past_statement_form(
        alloc,
        around,
        walk,
        &statement.form,
        statement.span,
        statement.at,
    )
}

#[cycle(statements)]
fn past_statement_form<'a>(
    alloc: Global,
    around: &Around,
    walk: Walk<'a>,
    form: &StmtForm,
    span: Span,
    at: Span,
) -> Result<Walk<'a>, Memory>
    ensures { IfOk result (λ w. walk_view w ≡ the.past_statement_form
        (program_view around.now.program.now) around.now.locals.now span at (walk_view walk.entry)
        (stmt_form_view form.now)) }
{
    match form {
        StmtForm::Empty | StmtForm::Jump { .. } => Ok(walk),
        StmtForm::Block { locals, parts } => {
            let outside = walk.scope.len();
            let inside = opened(walk, locals)?;
            let end = past_parts(alloc, around, Some(span), at.start, inside, parts)?;
            Ok(closed(end, outside))
        }
        StmtForm::Do { expr: value } | StmtForm::Throw { value } => {
            past(alloc, around, walk, value)
        }
        StmtForm::If { condition, yes, no } => {
            let walk = past(alloc, around, walk, condition)?;
            let walk = past_statement(alloc, around, walk, yes)?;
            past_part(alloc, around, walk, no)
        }
        StmtForm::Loop {
            condition,
            steps,
            body,
        } => {
            let walk = past(alloc, around, walk, condition)?;
            let walk = past_each(alloc, around, walk, steps)?;
            past_statement(alloc, around, walk, body)
        }
        StmtForm::DoLoop { body, condition } => {
            let walk = past_statement(alloc, around, walk, body)?;
            past(alloc, around, walk, condition)
        }
        StmtForm::Switch {
            locals,
            selector,
            groups,
        } => {
            let outside = walk.scope.len();
            let walk = past(alloc, around, walk, selector)?;
            let inside = opened(walk, locals)?;
            let end = past_groups(alloc, around, at.start, inside, groups)?;
            Ok(closed(end, outside))
        }
        StmtForm::Labelled { body, .. } => past_statement(alloc, around, walk, body),
        StmtForm::Return { value } => past_value(alloc, around, walk, value),
        StmtForm::Try {
            body,
            catches,
            last,
        } => {
            let walk = past_statement(alloc, around, walk, body)?;
            let walk = past_catches(alloc, around, walk, catches)?;
            past_part(alloc, around, walk, last)
        }
    }
}

// Past a list of statements with its first token, which ends there.
#[cycle(statements)]
fn past_parts<'a>(
    alloc: Global,
    around: &Around,
    home: Option<Span>,
    end: u32,
    walk: Walk<'a>,
    parts: &[Rc<Stmt>],
) -> Result<Walk<'a>, Memory>
    ensures { IfOk result (λ w. walk_view w ≡ the.past_parts
        (program_view around.now.program.now) around.now.locals.now home end (walk_view walk.entry)
        (core_stmts (stmt_views parts.now))) }
{
    let mut walk = walk;
    for part in parts {
        walk = past_listed(alloc, around, home, walk, part)?;
    }
    up_to(alloc, around, home, end, walk)
}

// Past a statement of a list, and the local classes before it.
#[cycle(statements)]
#[tactic(auto, using(je_core::proofs::Views::stmt_view_is))]
fn past_listed<'a>(
    alloc: Global,
    around: &Around,
    home: Option<Span>,
    walk: Walk<'a>,
    part: &Stmt,
) -> Result<Walk<'a>, Memory>
    ensures { IfOk result (λ w. walk_view w ≡ the.past_statement
        (program_view around.now.program.now) around.now.locals.now
        (the.up_to (program_view around.now.program.now) around.now.locals.now home
        (the.start_of (stmt_view part.now))
        (walk_view walk.entry)) (stmt_view part.now)) }
{
    let walk = up_to(alloc, around, home, part.span.start, walk)?;
    past_statement(alloc, around, walk, part)
}

#[cycle(statements)]
fn past_part<'a>(
    alloc: Global,
    around: &Around,
    walk: Walk<'a>,
    part: &Option<Rc<Stmt>>,
) -> Result<Walk<'a>, Memory>
    ensures { IfOk result (λ w. walk_view w ≡ the.past_part
        (program_view around.now.program.now) around.now.locals.now (walk_view walk.entry)
        (maybe_stmt (stmt_view_if part.now))) }
{
    match part {
        None => Ok(walk),
        Some(part) => past_statement(alloc, around, walk, part),
    }
}

#[cycle(statements)]
fn past_groups<'a>(
    alloc: Global,
    around: &Around,
    end: u32,
    walk: Walk<'a>,
    groups: &[Group],
) -> Result<Walk<'a>, Memory>
    ensures { IfOk result (λ w. walk_view w ≡ the.past_groups
        (program_view around.now.program.now) around.now.locals.now end (walk_view walk.entry)
        (core_groups (map group_view groups.now))) }
{
    let mut walk = walk;
    for (at, group) in groups.iter().enumerate() {
        let group_end = group_end(end, &groups[at + 1..]);
        walk = past_group(alloc, around, group_end, walk, group)?;
    }
    Ok(walk)
}

#[cycle(statements)]
#[tactic(auto, using(je_core::proofs::Views::group_view_is))]
fn past_group<'a>(
    alloc: Global,
    around: &Around,
    end: u32,
    walk: Walk<'a>,
    group: &Group,
) -> Result<Walk<'a>, Memory>
    ensures { IfOk result (λ w. walk_view w ≡ the.past_group
        (program_view around.now.program.now) around.now.locals.now end (walk_view walk.entry)
        (group_view group.now)) }
{
    let home = first_label(&group.labels);
    past_parts(alloc, around, home, end, walk, &group.parts)
}

#[cycle(statements)]
fn past_catches<'a>(
    alloc: Global,
    around: &Around,
    walk: Walk<'a>,
    catches: &[Catch],
) -> Result<Walk<'a>, Memory>
    ensures { IfOk result (λ w. walk_view w ≡ the.past_catches
        (program_view around.now.program.now) around.now.locals.now (walk_view walk.entry)
        (core_catches (map catch_view catches.now))) }
{
    let mut walk = walk;
    for catch in catches {
        walk = past_catch(alloc, around, walk, catch)?;
    }
    Ok(walk)
}

#[cycle(statements)]
#[tactic(auto, using(je_core::proofs::Views::catch_view_is))]
fn past_catch<'a>(
    alloc: Global,
    around: &Around,
    walk: Walk<'a>,
    catch: &Catch,
) -> Result<Walk<'a>, Memory>
    ensures { IfOk result (λ w. walk_view w ≡ the.past_catch
        (program_view around.now.program.now) around.now.locals.now (walk_view walk.entry)
        (catch_view catch.now)) }
{
    let outside = walk.scope.len();
    let inside = opened(walk, &[catch.local])?;
    let end = past_statement(alloc, around, inside, &catch.body)?;
    Ok(closed(end, outside))
}
