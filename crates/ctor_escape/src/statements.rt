// Where `this` escapes in statements.

ghost use Rattle.std.specs.Prelude.{◌≡◌, OnOk, map};
ghost use Rattle.je_core.specs.Core.{core_catches, core_groups, core_stmts, maybe_stmt};
ghost use Rattle.je_core.specs.View.{catch_view, group_view, program_view, stmt_form_view, stmt_view, stmt_view_if, stmt_views, view_if, views};
ghost use Rattle.rule_breaks.specs.Breaks.{of_each};
ghost use Rattle.rule_breaks.specs.way.Found.{followed_by};
ghost use Rattle.ctor_escape.specs.Expressions.{escapes};
ghost use Rattle.ctor_escape.specs.Statements.{catch_escapes, catches_escape, form_escapes, group_escapes, groups_escape, part_escapes, parts_escape, statement_escapes, value_escapes};

use crate::expressions::walk_expression;
use je_core::{Catch, Expr, Group, Memory, Program, Stmt, StmtForm};
use rule_breaks::Found;
use std::rc::Rc;

/// Adds the places where `this` escapes in a statement.
#[cycle(walk)]
#[tactic(auto, using(je_core::proofs::Views::stmt_view_is))]
pub fn walk_statement(program: &Program, statement: &Stmt, found: &mut Found) -> Result<(), Memory>
    ensures { OnOk result (found.new ≡
        followed_by found.old
        (statement_escapes (program_view program.now) (stmt_view statement.now))) }
{
    walk_form(program, &statement.form, found)
}

#[cycle(walk)]
fn walk_form(program: &Program, form: &StmtForm, found: &mut Found) -> Result<(), Memory>
    ensures { OnOk result (found.new ≡
        followed_by found.old
        (form_escapes (program_view program.now) (stmt_form_view form.now))) }
{
    match form {
        StmtForm::Empty | StmtForm::Jump { .. } => Ok(()),
        StmtForm::Block { parts, .. } => walk_parts(program, parts, found),
        StmtForm::Do { expr } => walk_expression(program, expr, found),
        StmtForm::If { condition, yes, no } => {
            walk_expression(program, condition, found)?;
            walk_statement(program, yes, found)?;
            walk_part(program, no, found)
        }
        StmtForm::Loop {
            condition,
            steps,
            body,
        } => {
            walk_expression(program, condition, found)?;
            walk_steps(program, steps, found)?;
            walk_statement(program, body, found)
        }
        StmtForm::DoLoop { body, condition } => {
            walk_statement(program, body, found)?;
            walk_expression(program, condition, found)
        }
        StmtForm::Switch {
            selector,
            groups,
            ..
        } => {
            walk_expression(program, selector, found)?;
            walk_groups(program, groups, found)
        }
        StmtForm::Labelled { body, .. } => walk_statement(program, body, found),
        StmtForm::Return { value } => walk_value(program, value, found),
        StmtForm::Throw { value } => walk_expression(program, value, found),
        StmtForm::Try {
            body,
            catches,
            last,
        } => {
            walk_statement(program, body, found)?;
            walk_catches(program, catches, found)?;
            walk_part(program, last, found)
        }
    }
}

#[cycle(walk)]
fn walk_parts(program: &Program, parts: &[Rc<Stmt>], found: &mut Found) -> Result<(), Memory>
    ensures { OnOk result (found.new ≡
        followed_by found.old
        (parts_escape (program_view program.now) (core_stmts (stmt_views parts.now)))) }
{
    for part in parts {
        walk_statement(program, part, found)?;
    }
    Ok(())
}

#[cycle(walk)]
fn walk_part(program: &Program, part: &Option<Rc<Stmt>>, found: &mut Found) -> Result<(), Memory>
    ensures { OnOk result (found.new ≡
        followed_by found.old
        (part_escapes (program_view program.now) (maybe_stmt (stmt_view_if part.now)))) }
{
    match part {
        None => Ok(()),
        Some(part) => walk_statement(program, part, found),
    }
}

#[cycle(walk)]
fn walk_groups(program: &Program, groups: &[Group], found: &mut Found) -> Result<(), Memory>
    ensures { OnOk result (found.new ≡
        followed_by found.old
        (groups_escape (program_view program.now) (core_groups (map group_view groups.now)))) }
{
    for group in groups {
        walk_group(program, group, found)?;
    }
    Ok(())
}

#[cycle(walk)]
#[tactic(auto, using(je_core::proofs::Views::parts_seen))]
fn walk_group(program: &Program, group: &Group, found: &mut Found) -> Result<(), Memory>
    ensures { OnOk result (found.new ≡
        followed_by found.old
        (group_escapes (program_view program.now) (group_view group.now))) }
{
    walk_parts(program, &group.parts, found)
}

#[cycle(walk)]
fn walk_catches(program: &Program, catches: &[Catch], found: &mut Found) -> Result<(), Memory>
    ensures { OnOk result (found.new ≡
        followed_by found.old
        (catches_escape (program_view program.now) (core_catches (map catch_view catches.now)))) }
{
    for catch in catches {
        walk_catch(program, catch, found)?;
    }
    Ok(())
}

#[cycle(walk)]
#[tactic(auto, using(je_core::proofs::Views::parts_seen))]
fn walk_catch(program: &Program, catch: &Catch, found: &mut Found) -> Result<(), Memory>
    ensures { OnOk result (found.new ≡
        followed_by found.old
        (catch_escapes (program_view program.now) (catch_view catch.now))) }
{
    walk_statement(program, &catch.body, found)
}

// The steps of a loop.
fn walk_steps(program: &Program, steps: &[Rc<Expr>], found: &mut Found) -> Result<(), Memory>
    ensures { OnOk result (found.new ≡
        followed_by found.old
        (of_each (escapes (program_view program.now)) (views steps.now))) }
{
    for step in steps {
        walk_expression(program, step, found)?;
    }
    Ok(())
}

// The value of a `return`, if it has one.
fn walk_value(program: &Program, value: &Option<Rc<Expr>>, found: &mut Found) -> Result<(), Memory>
    ensures { OnOk result (found.new ≡
        followed_by found.old (value_escapes (program_view program.now) (view_if value.now))) }
{
    match value {
        None => Ok(()),
        Some(value) => walk_expression(program, value, found),
    }
}
