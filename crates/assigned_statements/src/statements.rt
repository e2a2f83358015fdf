// Definite assignment and unassignment in statements (JLS 16.2).

ghost use Rattle.std.specs.Prelude.{◌≡◌, IfOk, OnOk, None, Some, map};
ghost use Rattle.je_core.specs.Core.{core_stmts, maybe_stmt, core_groups, core_catches, Loop as LoopForm, DoLoop as DoLoopForm, Switch as SwitchForm};
ghost use Rattle.je_core.specs.View.{view, views, view_if, label_view, stmt_view, stmt_form_view, stmt_views, stmt_view_if, group_view, catch_view};
ghost use Rattle.flow_base.specs.way.Kept.{first_of};
ghost use Rattle.variable_sets.specs.SetView.{set_view};
ghost use Rattle.variable_sets.specs.ExitSets.{no_exits, exit_by};
ghost use Rattle.flow_base.specs.declared.jumps.Way.TheVariants.{Returns};
ghost use Rattle.assignment_rules.specs.Rules.{declared as the_declared};
ghost use Rattle.assigned_expressions.specs.Expressions.{whole, when_true, when_false, after, faults};
ghost use Rattle.assignment_rules.specs.Ends.{going_on as the_going_on, jumping as the_jumping};
ghost use Rattle.assigned_statements.specs.Statements.{start_of as the_start_of, first_byte as the_first_byte, declared_faults, value_past, value_faults, statement_ends, form_ends, parts_end, part_ends, groups_end, catches_end, last_ends, statement_faults, form_faults, parts_faults, part_faults, groups_faults, catches_faults};
ghost use Rattle.assignment_rules.specs.View.{ends_view, follow_view};
ghost use Rattle.assigned_statements.specs.way.Parts.{anywhere_faults, group_ends, group_faults, catch_ends, catch_faults};

use crate::pairs::{enter_do, enter_loop};
use crate::untouched::{before_catches, before_last};
use assigned_expressions::{test_standing, walk_all, walk_expression};
use assignment_rules::{
    Ends, Follow, Site, bottom, declared, end_labelled, end_loop, end_switch, enter, going_on,
    jump, jumping, marked, one_of, past_finally,
};
use flow_base::{FirstFault, Way, has_default};
use je_core::{Catch, Expr, Group, Label, Memory, NameId, Span, Stmt, StmtForm};
use std::alloc::Global;
use std::rc::Rc;
use variable_sets::{Exits, Variables, local_number};

/// What is assigned, or unassigned, after a statement and before its exits, by the label directly before it. Its faults are
/// added to those found.
#[cycle(walk)]
#[tactic(auto, using(je_core::proofs::Views::stmt_view_is))]
pub fn walk_statement(
    alloc: Global,
    follow: &Follow,
    statement: &Stmt,
    label: Option<NameId>,
    before: Variables,
    found: &mut FirstFault,
) -> Result<Ends, Memory>
    ensures ends { IfOk result (λ e. ends_view e ≡
        statement_ends (follow_view follow.now) label (set_view before) (stmt_view statement.now)) }
    ensures faults { OnOk result (found.new ≡ first_of found.old
        (statement_faults (follow_view follow.now) label (set_view before)
        (stmt_view statement.now))) }
{
    walk_form(
        alloc,
        follow,
        &statement.form,
        label,
        statement.span,
        before,
        found,
    )
}

#[cycle(walk)]
fn walk_form(
    alloc: Global,
    follow: &Follow,
    form: &StmtForm,
    label: Option<NameId>,
    span: Span,
    before: Variables,
    found: &mut FirstFault,
) -> Result<Ends, Memory>
    ensures ends { IfOk result (λ e. ends_view e ≡
        form_ends (follow_view follow.now) label (set_view before) (stmt_form_view form.now)) }
    ensures faults { OnOk result (found.new ≡ first_of found.old (form_faults
        (follow_view follow.now) label span (set_view before) (stmt_form_view form.now))) }
{
    match form {
        StmtForm::Empty => Ok(going_on(alloc, before)),
        StmtForm::Block { locals, parts } => {
            walk_block(alloc, follow, parts, span.start, locals, before, found)
        }
        StmtForm::Do { expr } => walk_do(alloc, follow, expr, before, found),
        StmtForm::If { condition, yes, no } => {
            let (on_true, on_false) = walk_condition(alloc, follow, condition, before, found)?;
            let chosen = walk_statement(alloc, follow, yes, None, on_true, found)?;
            let other = walk_part(alloc, follow, no, on_false, found)?;
            one_of(chosen, other)
        }
        StmtForm::Loop {
            condition,
            steps,
            body,
        } => walk_loop(alloc, follow, body, condition, steps, label, before, found),
        StmtForm::DoLoop { body, condition } => {
            walk_do_loop(alloc, follow, body, condition, label, before, found)
        }
        StmtForm::Switch {
            locals,
            selector,
            groups,
        } => walk_switch(alloc, follow, groups, locals, selector, before, found),
        StmtForm::Labelled { name, body } => {
            let inside = walk_statement(alloc, follow, body, Some(*name), before, found)?;
            end_labelled(*name, inside)
        }
        StmtForm::Jump { again, label } => jump(alloc, before, *again, *label),
        StmtForm::Return { value } => walk_return(alloc, follow, value, before, found),
        StmtForm::Throw { value } => walk_throw(alloc, follow, value, before, found),
        StmtForm::Try {
            body,
            catches,
            last,
        } => {
            let start = before_catches(alloc, follow, body, &before)?;
            let at_last = before_last(alloc, follow, catches, &start)?;
            let tried = walk_statement(alloc, follow, body, None, before, found)?;
            let caught = walk_catches(alloc, follow, catches, &start, tried, found)?;
            walk_last(alloc, follow, last, at_last, caught, found)
        }
    }
}

#[cycle(walk)]
fn walk_block(
    alloc: Global,
    follow: &Follow,
    parts: &[Rc<Stmt>],
    opening: u32,
    locals: &[u32],
    before: Variables,
    found: &mut FirstFault,
) -> Result<Ends, Memory>
    ensures ends { IfOk result (λ e. ends_view e ≡ parts_end (follow_view follow.now)
        (the_going_on (the_declared (follow_view follow.now).rule locals.now (set_view before)))
        (core_stmts (stmt_views parts.now))) }
    ensures faults { OnOk result (found.new ≡ first_of found.old
        (parts_faults (follow_view follow.now) (Some opening) 0
        (the_going_on (the_declared (follow_view follow.now).rule locals.now (set_view before)))
        (core_stmts (stmt_views parts.now)))) }
{
    let fresh = declared(follow.rule, locals, before)?;
    walk_parts(
        alloc,
        follow,
        parts,
        Some(opening),
        going_on(alloc, fresh),
        found,
    )
}

#[cycle(walk)]
fn walk_loop(
    alloc: Global,
    follow: &Follow,
    body: &Stmt,
    condition: &Expr,
    steps: &[Rc<Expr>],
    label: Option<NameId>,
    before: Variables,
    found: &mut FirstFault,
) -> Result<Ends, Memory>
    ensures ends { IfOk result (λ e. ends_view e ≡ form_ends (follow_view follow.now) label
        (set_view before) (LoopForm (view condition.now) (views steps.now) (stmt_view body.now))) }
    ensures faults { OnOk result (found.new ≡ first_of found.old
        (anywhere_faults (follow_view follow.now) label (set_view before)
        (LoopForm (view condition.now) (views steps.now) (stmt_view body.now)))) }
{
    let start = enter_loop(alloc, follow, body, condition, steps, label, before)?;
    let (on_true, on_false) = walk_condition(alloc, follow, condition, start, found)?;
    let inside = walk_statement(alloc, follow, body, None, on_true, found)?;
    let _ = walk_all(alloc, follow, steps, bottom(label, &inside)?, found)?;
    end_loop(label, inside, on_false)
}

#[cycle(walk)]
fn walk_do_loop(
    alloc: Global,
    follow: &Follow,
    body: &Stmt,
    condition: &Expr,
    label: Option<NameId>,
    before: Variables,
    found: &mut FirstFault,
) -> Result<Ends, Memory>
    ensures ends { IfOk result (λ e. ends_view e ≡ form_ends (follow_view follow.now) label
        (set_view before) (DoLoopForm (stmt_view body.now) (view condition.now))) }
    ensures faults { OnOk result (found.new ≡ first_of found.old
        (anywhere_faults (follow_view follow.now) label (set_view before)
        (DoLoopForm (stmt_view body.now) (view condition.now)))) }
{
    let start = enter_do(alloc, follow, body, condition, label, before)?;
    let inside = walk_statement(alloc, follow, body, None, start, found)?;
    let at_end = bottom(label, &inside)?;
    let (_, on_false) = walk_condition(alloc, follow, condition, at_end, found)?;
    end_loop(label, inside, on_false)
}

#[cycle(walk)]
fn walk_switch(
    alloc: Global,
    follow: &Follow,
    groups: &[Group],
    locals: &[u32],
    selector: &Expr,
    before: Variables,
    found: &mut FirstFault,
) -> Result<Ends, Memory>
    ensures ends { IfOk result (λ e. ends_view e ≡ form_ends (follow_view follow.now) None
        (set_view before) (SwitchForm locals.now (view selector.now)
        (core_groups (map group_view groups.now)))) }
    ensures faults { OnOk result (found.new ≡ first_of found.old
        (anywhere_faults (follow_view follow.now) None (set_view before)
        (SwitchForm locals.now (view selector.now) (core_groups (map group_view groups.now))))) }
{
    let past = walk_expression(alloc, follow, selector, before, found)?.whole()?;
    let start = declared(follow.rule, locals, past)?;
    let none = jumping(alloc, Exits::none(alloc));
    let inside = walk_groups(alloc, follow, groups, &start, none, found)?;
    end_switch(has_default(groups), start, inside)
}

// The statements of a block or a group, whose first byte it is, behind what ends so.
#[cycle(walk)]
fn walk_parts(
    alloc: Global,
    follow: &Follow,
    parts: &[Rc<Stmt>],
    list: Option<u32>,
    before: Ends,
    found: &mut FirstFault,
) -> Result<Ends, Memory>
    ensures ends { IfOk result (λ e. ends_view e ≡
        parts_end (follow_view follow.now) (ends_view before) (core_stmts (stmt_views parts.now))) }
    ensures faults { OnOk result (found.new ≡ first_of found.old
        (parts_faults (follow_view follow.now) list 0 (ends_view before)
        (core_stmts (stmt_views parts.now)))) }
{
    let mut done = before;
    let mut from = 0;
    for part in parts {
        let start = start_of(part);
        test_declared(follow, list, from, Some(start), &done.after, found);
        let next = walk_statement(alloc, follow, part, None, done.after, found)?;
        done = Ends {
            after: next.after,
            exits: done.exits.met(next.exits)?,
        };
        from = start;
    }
    test_declared(follow, list, from, None, &done.after, found);
    Ok(done)
}

// A part, if it is there.
#[cycle(walk)]
fn walk_part(
    alloc: Global,
    follow: &Follow,
    part: &Option<Rc<Stmt>>,
    before: Variables,
    found: &mut FirstFault,
) -> Result<Ends, Memory>
    ensures ends { IfOk result (λ e. ends_view e ≡
        part_ends (follow_view follow.now) (set_view before) (maybe_stmt (stmt_view_if part.now))) }
    ensures faults { OnOk result (found.new ≡ first_of found.old
        (part_faults (follow_view follow.now) (set_view before)
        (maybe_stmt (stmt_view_if part.now)))) }
{
    match part {
        None => Ok(going_on(alloc, before)),
        Some(part) => walk_statement(alloc, follow, part, None, before, found),
    }
}

// The groups of a switch, behind those that end so.
#[cycle(walk)]
#[tactic(auto, using(crate::proofs::Parts::groups_step))]
fn walk_groups(
    alloc: Global,
    follow: &Follow,
    groups: &[Group],
    start: &Variables,
    before: Ends,
    found: &mut FirstFault,
) -> Result<Ends, Memory>
    ensures ends { IfOk result (λ e. ends_view e ≡ groups_end (follow_view follow.now)
        (set_view start.now) (ends_view before) (core_groups (map group_view groups.now))) }
    ensures faults { OnOk result (found.new ≡ first_of found.old
        (groups_faults (follow_view follow.now) (set_view start.now) (ends_view before)
        (core_groups (map group_view groups.now)))) }
{
    let mut done = before;
    for group in groups {
        done = walk_group(alloc, follow, group, start, done, found)?;
    }
    Ok(done)
}

#[cycle(walk)]
#[tactic(auto, using(je_core::proofs::Views::parts_seen))]
fn walk_group(
    alloc: Global,
    follow: &Follow,
    group: &Group,
    start: &Variables,
    before: Ends,
    found: &mut FirstFault,
) -> Result<Ends, Memory>
    ensures ends { IfOk result (λ e. ends_view e ≡ group_ends (follow_view follow.now)
        (set_view start.now) (ends_view before) (group_view group.now)) }
    ensures faults { OnOk result (found.new ≡ first_of found.old
        (group_faults (follow_view follow.now) (set_view start.now) (ends_view before)
        (group_view group.now))) }
{
    let first = enter(&group.labels, start, before)?;
    walk_parts(
        alloc,
        follow,
        &group.parts,
        first_byte(&group.labels),
        first,
        found,
    )
}

// The catches of a `try`, beside what ends so.
#[cycle(walk)]
#[tactic(auto, using(crate::proofs::Parts::catches_step))]
fn walk_catches(
    alloc: Global,
    follow: &Follow,
    catches: &[Catch],
    start: &Variables,
    before: Ends,
    found: &mut FirstFault,
) -> Result<Ends, Memory>
    ensures ends { IfOk result (λ e. ends_view e ≡ catches_end (follow_view follow.now)
        (set_view start.now) (ends_view before) (core_catches (map catch_view catches.now))) }
    ensures faults { OnOk result (found.new ≡ first_of found.old
        (catches_faults (follow_view follow.now) (set_view start.now)
        (core_catches (map catch_view catches.now)))) }
{
    let mut done = before;
    for catch in catches {
        let handled = walk_catch(alloc, follow, catch, start, found)?;
        done = one_of(done, handled)?;
    }
    Ok(done)
}

#[cycle(walk)]
#[tactic(auto, using(je_core::proofs::Views::parts_seen))]
fn walk_catch(
    alloc: Global,
    follow: &Follow,
    catch: &Catch,
    start: &Variables,
    found: &mut FirstFault,
) -> Result<Ends, Memory>
    ensures ends { IfOk result (λ e. ends_view e ≡
        catch_ends (follow_view follow.now) (set_view start.now) (catch_view catch.now)) }
    ensures faults { OnOk result (found.new ≡ first_of found.old
        (catch_faults (follow_view follow.now) (set_view start.now) (catch_view catch.now))) }
{
    let parameter = local_number(catch.local as usize);
    let before = marked(follow.rule, parameter, start.copy()?)?;
    walk_statement(alloc, follow, &catch.body, None, before, found)
}

// The block behind `finally`, if it is there, behind what ends so.
#[cycle(walk)]
fn walk_last(
    alloc: Global,
    follow: &Follow,
    last: &Option<Rc<Stmt>>,
    start: Variables,
    before: Ends,
    found: &mut FirstFault,
) -> Result<Ends, Memory>
    ensures ends { IfOk result (λ e. ends_view e ≡ last_ends (follow_view follow.now)
        (set_view start) (ends_view before) (maybe_stmt (stmt_view_if last.now))) }
    ensures faults { OnOk result (found.new ≡ first_of found.old
        (part_faults (follow_view follow.now) (set_view start)
        (maybe_stmt (stmt_view_if last.now)))) }
{
    match last {
        None => Ok(before),
        Some(last) => {
            let last = walk_statement(alloc, follow, last, None, start, found)?;
            past_finally(follow.rule, before, last)
        }
    }
}

// The first byte of a statement.
#[tactic(auto, using(je_core::proofs::Views::stmt_view_is))]
fn start_of(statement: &Stmt) -> u32
    ensures { result ≡ the_start_of (stmt_view statement.now) }
{
    statement.span.start
}

// The first byte of a group of a switch.
fn first_byte(labels: &[Label]) -> Option<u32>
    ensures { result ≡ the_first_byte (map label_view labels.now) }
{
    match labels {
        [] => None,
        [first, ..] => Some(first.span.start),
    }
}

// Adds the faults of the classes that are declared in a list of statements, between two of them.
fn test_declared(
    follow: &Follow,
    list: Option<u32>,
    from: u32,
    to: Option<u32>,
    before: &Variables,
    found: &mut FirstFault,
)
    ensures { found.new ≡ first_of found.old
        (declared_faults (follow_view follow.now) list from to (set_view before.now)) }
{
    if let Some(list) = list {
        test_standing(follow, Site::Declaration { list, from, to }, before, found);
    }
}

// What is assigned when a condition is true, and when it is false.
fn walk_condition(
    alloc: Global,
    follow: &Follow,
    condition: &Expr,
    before: Variables,
    found: &mut FirstFault,
) -> Result<(Variables, Variables), Memory>
    ensures on_true { IfOk result (λ v. set_view v.0 ≡
        when_true (after (follow_view follow.now) (set_view before) (view condition.now))) }
    ensures on_false { IfOk result (λ v. set_view v.1 ≡
        when_false (after (follow_view follow.now) (set_view before) (view condition.now))) }
    ensures faults { OnOk result (found.new ≡ first_of found.old
        (faults (follow_view follow.now) (set_view before) (view condition.now))) }
{
    walk_expression(alloc, follow, condition, before, found)?.split()
}

fn walk_do(
    alloc: Global,
    follow: &Follow,
    e: &Expr,
    before: Variables,
    found: &mut FirstFault,
) -> Result<Ends, Memory>
    ensures ends { IfOk result (λ x. ends_view x ≡
        the_going_on (whole (after (follow_view follow.now) (set_view before) (view e.now)))) }
    ensures faults { OnOk result (found.new ≡
        first_of found.old (faults (follow_view follow.now) (set_view before) (view e.now))) }
{
    let past = walk_expression(alloc, follow, e, before, found)?.whole()?;
    Ok(going_on(alloc, past))
}

fn walk_return(
    alloc: Global,
    follow: &Follow,
    value: &Option<Rc<Expr>>,
    before: Variables,
    found: &mut FirstFault,
) -> Result<Ends, Memory>
    ensures ends { IfOk result (λ e. ends_view e ≡ the_jumping
        (exit_by Returns (value_past (follow_view follow.now) (set_view before)
        (view_if value.now)))) }
    ensures faults { OnOk result (found.new ≡ first_of found.old
        (value_faults (follow_view follow.now) (set_view before) (view_if value.now))) }
{
    let past = walk_value(alloc, follow, value, before, found)?;
    Ok(jumping(alloc, Exits::one(alloc, Way::Returns, past)?))
}

fn walk_throw(
    alloc: Global,
    follow: &Follow,
    value: &Expr,
    before: Variables,
    found: &mut FirstFault,
) -> Result<Ends, Memory>
    ensures ends { IfOk result (λ e. ends_view e ≡ the_jumping no_exits) }
    ensures faults { OnOk result (found.new ≡
        first_of found.old (faults (follow_view follow.now) (set_view before) (view value.now))) }
{
    let _ = walk_expression(alloc, follow, value, before, found)?;
    Ok(jumping(alloc, Exits::none(alloc)))
}

// The value of a `return`, if it has one.
fn walk_value(
    alloc: Global,
    follow: &Follow,
    value: &Option<Rc<Expr>>,
    before: Variables,
    found: &mut FirstFault,
) -> Result<Variables, Memory>
    ensures after { IfOk result (λ v. set_view v ≡
        value_past (follow_view follow.now) (set_view before) (view_if value.now)) }
    ensures faults { OnOk result (found.new ≡ first_of found.old
        (value_faults (follow_view follow.now) (set_view before) (view_if value.now))) }
{
    match value {
        None => Ok(before),
        Some(value) => walk_expression(alloc, follow, value, before, found)?.whole(),
    }
}
