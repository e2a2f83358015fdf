// What statements can throw (JLS 11.2.2), and the faults of the catches in them.

ghost use Rattle.std.specs.Prelude.{◌≡◌, IfOk, OnOk, map};
ghost use Rattle.je_core.specs.Core.{core_stmts, maybe_stmt, core_groups, core_catches, ty_of};
ghost use Rattle.je_core.specs.View.{view, view_if, stmt_view, stmt_form_view, stmt_views, stmt_view_if, group_view, catch_view, program_view};
ghost use Rattle.flow_base.specs.way.Kept.{first_of};
ghost use Rattle.reported_exceptions.specs.Statements.{base_throws, lets_pass as the_lets_pass, value_throws, statement_throws, form_throws, parts_throw, part_throws, groups_throw, catches_throw, statement_faults, form_faults, parts_faults, part_faults, groups_faults, catches_faults};
ghost use Rattle.reported_exceptions.specs.Throws.{out_behind};
ghost use Rattle.reported_exceptions.specs.View.{rows};
ghost use Rattle.reported_exceptions.specs.way.Parts.{parts_of, body_of};

use crate::expressions::{walk_all, walk_expression};
use crate::handled::judge_catches;
use crate::making::Making;
use crate::throws::{Throw, throw_class, throw_past, throw_untaken};
use flow_base::FirstFault;
use je_core::{Base, Catch, Expr, Group, Memory, Program, Span, Stmt, StmtForm};
use reachability::completes;
use std::alloc::Global;
use std::rc::Rc;

/// Adds what a statement can throw, and the faults of the catches in it.
#[cycle(walk)]
#[tactic(auto, using(je_core::proofs::Views::stmt_view_is))]
pub fn walk_statement(
    alloc: Global,
    program: &Program,
    makings: &[Making],
    statement: &Stmt,
    thrown: &mut Vec<Throw>,
    found: &mut FirstFault,
) -> Result<(), Memory>
    ensures throws { OnOk result (thrown.new.items ≡
        out_behind (program_view program.now) thrown.old.items
        (statement_throws (program_view program.now) (rows makings.now)
        (stmt_view statement.now))) }
    ensures faults { OnOk result (found.new ≡ first_of found.old
        (statement_faults (program_view program.now) (rows makings.now)
        (stmt_view statement.now))) }
{
    walk_form(
        alloc,
        program,
        makings,
        &statement.form,
        statement.span,
        thrown,
        found,
    )
}

#[cycle(walk)]
fn walk_form(
    alloc: Global,
    program: &Program,
    makings: &[Making],
    form: &StmtForm,
    at: Span,
    thrown: &mut Vec<Throw>,
    found: &mut FirstFault,
) -> Result<(), Memory>
    ensures throws { OnOk result (thrown.new.items ≡
        out_behind (program_view program.now) thrown.old.items
        (form_throws (program_view program.now) (rows makings.now) at (stmt_form_view form.now))) }
    ensures faults { OnOk result (found.new ≡ first_of found.old
        (form_faults (program_view program.now) (rows makings.now) (stmt_form_view form.now))) }
{
    match form {
        StmtForm::Empty | StmtForm::Jump { .. } => Ok(()),
        StmtForm::Block { parts, .. } => walk_parts(alloc, program, makings, parts, thrown, found),
        StmtForm::Do { expr } => walk_expression(alloc, program, makings, expr, thrown),
        StmtForm::If { condition, yes, no } => {
            walk_expression(alloc, program, makings, condition, thrown)?;
            walk_statement(alloc, program, makings, yes, thrown, found)?;
            walk_part(alloc, program, makings, no, thrown, found)
        }
        StmtForm::Loop {
            condition,
            steps,
            body,
        } => {
            walk_expression(alloc, program, makings, condition, thrown)?;
            walk_all(alloc, program, makings, steps, thrown)?;
            walk_statement(alloc, program, makings, body, thrown, found)
        }
        StmtForm::DoLoop { body, condition } => {
            walk_statement(alloc, program, makings, body, thrown, found)?;
            walk_expression(alloc, program, makings, condition, thrown)
        }
        StmtForm::Switch {
            selector,
            groups,
            ..
        } => {
            walk_expression(alloc, program, makings, selector, thrown)?;
            walk_groups(alloc, program, makings, groups, thrown, found)
        }
        StmtForm::Labelled { body, .. } => {
            walk_statement(alloc, program, makings, body, thrown, found)
        }
        StmtForm::Return { value } => walk_value(alloc, program, makings, value, thrown),
        StmtForm::Throw { value } => {
            walk_expression(alloc, program, makings, value, thrown)?;
            throw_value(alloc, program, value, at, thrown)
        }
        StmtForm::Try {
            body,
            catches,
            last,
        } => {
            let mut tried = Vec::new(alloc);
            walk_statement(alloc, program, makings, body, &mut tried, found)?;
            judge_catches(alloc, program, &tried, catches, found)?;
            let mut before = Vec::new(alloc);
            throw_untaken(alloc, program, catches, &tried, &mut before)?;
            walk_catches(alloc, program, makings, catches, &mut before, found)?;
            throw_past(lets_pass(alloc, last)?, &before, thrown)?;
            walk_part(alloc, program, makings, last, thrown, found)
        }
    }
}

#[cycle(walk)]
fn walk_parts(
    alloc: Global,
    program: &Program,
    makings: &[Making],
    parts: &[Rc<Stmt>],
    thrown: &mut Vec<Throw>,
    found: &mut FirstFault,
) -> Result<(), Memory>
    ensures throws { OnOk result (thrown.new.items ≡
        out_behind (program_view program.now) thrown.old.items
        (parts_throw (program_view program.now) (rows makings.now)
        (core_stmts (stmt_views parts.now)))) }
    ensures faults { OnOk result (found.new ≡ first_of found.old
        (parts_faults (program_view program.now) (rows makings.now)
        (core_stmts (stmt_views parts.now)))) }
{
    for part in parts {
        walk_statement(alloc, program, makings, part, thrown, found)?;
    }
    Ok(())
}

#[cycle(walk)]
fn walk_part(
    alloc: Global,
    program: &Program,
    makings: &[Making],
    part: &Option<Rc<Stmt>>,
    thrown: &mut Vec<Throw>,
    found: &mut FirstFault,
) -> Result<(), Memory>
    ensures throws { OnOk result (thrown.new.items ≡
        out_behind (program_view program.now) thrown.old.items
        (part_throws (program_view program.now) (rows makings.now)
        (maybe_stmt (stmt_view_if part.now)))) }
    ensures faults { OnOk result (found.new ≡ first_of found.old
        (part_faults (program_view program.now) (rows makings.now)
        (maybe_stmt (stmt_view_if part.now)))) }
{
    match part {
        None => Ok(()),
        Some(part) => walk_statement(alloc, program, makings, part, thrown, found),
    }
}

#[cycle(walk)]
#[tactic(auto, using(crate::proofs::Parts::groups_step))]
fn walk_groups(
    alloc: Global,
    program: &Program,
    makings: &[Making],
    groups: &[Group],
    thrown: &mut Vec<Throw>,
    found: &mut FirstFault,
) -> Result<(), Memory>
    ensures throws { OnOk result (thrown.new.items ≡
        out_behind (program_view program.now) thrown.old.items
        (groups_throw (program_view program.now) (rows makings.now)
        (core_groups (map group_view groups.now)))) }
    ensures faults { OnOk result (found.new ≡ first_of found.old
        (groups_faults (program_view program.now) (rows makings.now)
        (core_groups (map group_view groups.now)))) }
{
    for group in groups {
        walk_group(alloc, program, makings, group, thrown, found)?;
    }
    Ok(())
}

#[cycle(walk)]
#[tactic(auto, using(je_core::proofs::Views::parts_seen))]
fn walk_group(
    alloc: Global,
    program: &Program,
    makings: &[Making],
    group: &Group,
    thrown: &mut Vec<Throw>,
    found: &mut FirstFault,
) -> Result<(), Memory>
    ensures throws { OnOk result (thrown.new.items ≡
        out_behind (program_view program.now) thrown.old.items
        (parts_throw (program_view program.now) (rows makings.now)
        (parts_of (group_view group.now)))) }
    ensures faults { OnOk result (found.new ≡ first_of found.old
        (parts_faults (program_view program.now) (rows makings.now)
        (parts_of (group_view group.now)))) }
{
    walk_parts(alloc, program, makings, &group.parts, thrown, found)
}

#[cycle(walk)]
#[tactic(auto, using(crate::proofs::Parts::catches_step))]
fn walk_catches(
    alloc: Global,
    program: &Program,
    makings: &[Making],
    catches: &[Catch],
    thrown: &mut Vec<Throw>,
    found: &mut FirstFault,
) -> Result<(), Memory>
    ensures throws { OnOk result (thrown.new.items ≡
        out_behind (program_view program.now) thrown.old.items
        (catches_throw (program_view program.now) (rows makings.now)
        (core_catches (map catch_view catches.now)))) }
    ensures faults { OnOk result (found.new ≡ first_of found.old
        (catches_faults (program_view program.now) (rows makings.now)
        (core_catches (map catch_view catches.now)))) }
{
    for catch in catches {
        walk_catch(alloc, program, makings, catch, thrown, found)?;
    }
    Ok(())
}

#[cycle(walk)]
#[tactic(auto, using(je_core::proofs::Views::parts_seen))]
fn walk_catch(
    alloc: Global,
    program: &Program,
    makings: &[Making],
    catch: &Catch,
    thrown: &mut Vec<Throw>,
    found: &mut FirstFault,
) -> Result<(), Memory>
    ensures throws { OnOk result (thrown.new.items ≡
        out_behind (program_view program.now) thrown.old.items
        (statement_throws (program_view program.now) (rows makings.now)
        (body_of (catch_view catch.now)))) }
    ensures faults { OnOk result (found.new ≡ first_of found.old
        (statement_faults (program_view program.now) (rows makings.now)
        (body_of (catch_view catch.now)))) }
{
    walk_statement(alloc, program, makings, &catch.body, thrown, found)
}

// The value of a `return`, if it has one.
fn walk_value(
    alloc: Global,
    program: &Program,
    makings: &[Making],
    value: &Option<Rc<Expr>>,
    thrown: &mut Vec<Throw>,
) -> Result<(), Memory>
    ensures { OnOk result (thrown.new.items ≡
        out_behind (program_view program.now) thrown.old.items
        (value_throws (program_view program.now) (rows makings.now) (view_if value.now))) }
{
    match value {
        None => Ok(()),
        Some(value) => walk_expression(alloc, program, makings, value, thrown),
    }
}

// What a `throw` of a value throws.
#[tactic(auto, using(je_core::proofs::Views::view_is))]
fn throw_value(
    alloc: Global,
    program: &Program,
    value: &Expr,
    at: Span,
    thrown: &mut Vec<Throw>,
) -> Result<(), Memory>
    ensures { OnOk result (thrown.new.items ≡
        out_behind (program_view program.now) thrown.old.items
        (base_throws (program_view program.now) (ty_of (view value.now)).base at)) }
{
    throw_base(alloc, program, value.ty.base, at, thrown)
}

fn throw_base(
    alloc: Global,
    program: &Program,
    base: Base,
    at: Span,
    thrown: &mut Vec<Throw>,
) -> Result<(), Memory>
    ensures { OnOk result (thrown.new.items ≡
        out_behind (program_view program.now) thrown.old.items
        (base_throws (program_view program.now) base at)) }
{
    match base {
        Base::Class(class) => throw_class(alloc, program, class, at, thrown),
        _ => Ok(()),
    }
}

// Whether the block behind `finally` can complete normally, or there is none.
fn lets_pass(alloc: Global, last: &Option<Rc<Stmt>>) -> Result<bool, Memory>
    ensures { IfOk result (λ is. is ≡ the_lets_pass (maybe_stmt (stmt_view_if last.now))) }
{
    match last {
        None => Ok(true),
        Some(last) => completes(alloc, last),
    }
}
