// The calls of Object's `equals(Object)` by `super` in statements.

ghost use Rattle.std.specs.Prelude.{◌≡◌, OnOk, map};
ghost use Rattle.je_core.specs.Core.{core_catches, core_groups, core_stmts, maybe_stmt};
ghost use Rattle.je_core.specs.View.{catch_view, group_view, stmt_form_view, stmt_view, stmt_view_if, stmt_views, view_if, views};
ghost use Rattle.rule_breaks.specs.Breaks.{of_each};
ghost use Rattle.rule_breaks.specs.way.Found.{followed_by};
ghost use Rattle.super_equals.specs.Expressions.{calls_in};
ghost use Rattle.super_equals.specs.Statements.{calls_in_catch, calls_in_catches, calls_in_statement_form, calls_in_group, calls_in_groups, calls_in_part, calls_in_parts, calls_in_statement, calls_in_value};

use crate::expressions::walk_expression;
use je_core::{Catch, Expr, Group, Memory, Stmt, StmtForm};
use rule_breaks::Found;
use std::rc::Rc;

/// Adds the calls of Object's `equals(Object)` by `super` in a statement, each at the name `equals`.
#[cycle(walk)]
#[tactic(auto, using(je_core::proofs::Views::stmt_view_is))]
pub fn walk_statement(statement: &Stmt, found: &mut Found) -> Result<(), Memory>
    ensures { OnOk result (found.new ≡
        followed_by found.old
        (calls_in_statement (stmt_view statement.now))) }
{
    walk_form(&statement.form, found)
}

#[cycle(walk)]
fn walk_form(form: &StmtForm, found: &mut Found) -> Result<(), Memory>
    ensures { OnOk result (found.new ≡
        followed_by found.old
        (calls_in_statement_form (stmt_form_view form.now))) }
{
    match form {
        StmtForm::Empty | StmtForm::Jump { .. } => Ok(()),
        StmtForm::Block { parts, .. } => walk_parts(parts, found),
        StmtForm::Do { expr } => walk_expression(expr, found),
        StmtForm::If { condition, yes, no } => {
            walk_expression(condition, found)?;
            walk_statement(yes, found)?;
            walk_part(no, found)
        }
        StmtForm::Loop {
            condition,
            steps,
            body,
        } => {
            walk_expression(condition, found)?;
            walk_steps(steps, found)?;
            walk_statement(body, found)
        }
        StmtForm::DoLoop { body, condition } => {
            walk_statement(body, found)?;
            walk_expression(condition, found)
        }
        StmtForm::Switch {
            selector,
            groups,
            ..
        } => {
            walk_expression(selector, found)?;
            walk_groups(groups, found)
        }
        StmtForm::Labelled { body, .. } => walk_statement(body, found),
        StmtForm::Return { value } => walk_value(value, found),
        StmtForm::Throw { value } => walk_expression(value, found),
        StmtForm::Try {
            body,
            catches,
            last,
        } => {
            walk_statement(body, found)?;
            walk_catches(catches, found)?;
            walk_part(last, found)
        }
    }
}

#[cycle(walk)]
fn walk_parts(parts: &[Rc<Stmt>], found: &mut Found) -> Result<(), Memory>
    ensures { OnOk result (found.new ≡
        followed_by found.old
        (calls_in_parts (core_stmts (stmt_views parts.now)))) }
{
    for part in parts {
        walk_statement(part, found)?;
    }
    Ok(())
}

#[cycle(walk)]
fn walk_part(part: &Option<Rc<Stmt>>, found: &mut Found) -> Result<(), Memory>
    ensures { OnOk result (found.new ≡
        followed_by found.old
        (calls_in_part (maybe_stmt (stmt_view_if part.now)))) }
{
    match part {
        None => Ok(()),
        Some(part) => walk_statement(part, found),
    }
}

#[cycle(walk)]
fn walk_groups(groups: &[Group], found: &mut Found) -> Result<(), Memory>
    ensures { OnOk result (found.new ≡
        followed_by found.old
        (calls_in_groups (core_groups (map group_view groups.now)))) }
{
    for group in groups {
        walk_group(group, found)?;
    }
    Ok(())
}

#[cycle(walk)]
#[tactic(auto, using(je_core::proofs::Views::parts_seen))]
fn walk_group(group: &Group, found: &mut Found) -> Result<(), Memory>
    ensures { OnOk result (found.new ≡
        followed_by found.old
        (calls_in_group (group_view group.now))) }
{
    walk_parts(&group.parts, found)
}

#[cycle(walk)]
fn walk_catches(catches: &[Catch], found: &mut Found) -> Result<(), Memory>
    ensures { OnOk result (found.new ≡
        followed_by found.old
        (calls_in_catches (core_catches (map catch_view catches.now)))) }
{
    for catch in catches {
        walk_catch(catch, found)?;
    }
    Ok(())
}

#[cycle(walk)]
#[tactic(auto, using(je_core::proofs::Views::parts_seen))]
fn walk_catch(catch: &Catch, found: &mut Found) -> Result<(), Memory>
    ensures { OnOk result (found.new ≡
        followed_by found.old
        (calls_in_catch (catch_view catch.now))) }
{
    walk_statement(&catch.body, found)
}

// The steps of a loop.
fn walk_steps(steps: &[Rc<Expr>], found: &mut Found) -> Result<(), Memory>
    ensures { OnOk result (found.new ≡
        followed_by found.old
        (of_each calls_in (views steps.now))) }
{
    for step in steps {
        walk_expression(step, found)?;
    }
    Ok(())
}

// The value of a `return`, if it has one.
fn walk_value(value: &Option<Rc<Expr>>, found: &mut Found) -> Result<(), Memory>
    ensures { OnOk result (found.new ≡
        followed_by found.old (calls_in_value (view_if value.now))) }
{
    match value {
        None => Ok(()),
        Some(value) => walk_expression(value, found),
    }
}
