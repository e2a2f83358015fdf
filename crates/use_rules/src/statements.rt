// The breaks of statements.

ghost use Rattle.std.specs.Prelude.{◌≡◌, OnOk, map};
ghost use Rattle.je_core.specs.Core.{core_catches, core_groups, core_stmts, maybe_stmt};
ghost use Rattle.je_core.specs.View.{catch_view, group_view, label_view, stmt_form_view, stmt_view, stmt_view_if, stmt_views, views};
ghost use Rattle.je_types.specs.Views.{program_of};
ghost use Rattle.rule_breaks.specs.Breaks.{of_each};
ghost use Rattle.rule_breaks.specs.way.Found.{followed_by};
ghost use Rattle.taming_db.specs.View.{rows};
ghost use Rattle.use_rules.specs.Expressions.{expression_breaks};
ghost use Rattle.use_rules.specs.Statements.{catch_breaks, catches_breaks, form_breaks, group_breaks, groups_breaks, label_breaks, part_breaks, parts_breaks, statement_breaks};

use crate::exceptions::{judge_catch, judge_finally};
use crate::expressions::{walk_expression, walk_value};
use je_core::{Catch, Expr, Group, Label, Memory, Span, Stmt, StmtForm};
use je_types::Typed;
use node_rules::judge_constants;
use rule_breaks::Found;
use std::alloc::Global;
use std::rc::Rc;
use taming_db::Taming;

/// Adds the breaks of a statement.
#[cycle(walk)]
#[tactic(auto, using(je_core::proofs::Views::stmt_view_is))]
pub fn walk_statement(
    alloc: Global,
    typed: &Typed,
    taming: &Taming,
    statement: &Stmt,
    found: &mut Found,
) -> Result<(), Memory>
    ensures { OnOk result (found.new ≡
        followed_by found.old
        (statement_breaks (program_of typed.now) (rows taming.now) (stmt_view statement.now))) }
{
    walk_form(alloc, typed, taming, statement.at, &statement.form, found)
}

// Those of a statement of a form; `at` is its word `finally`, if it has one.
#[cycle(walk)]
fn walk_form(
    alloc: Global,
    typed: &Typed,
    taming: &Taming,
    at: Span,
    form: &StmtForm,
    found: &mut Found,
) -> Result<(), Memory>
    ensures { OnOk result (found.new ≡
        followed_by found.old
        (form_breaks (program_of typed.now) (rows taming.now) at (stmt_form_view form.now))) }
{
    match form {
        StmtForm::Empty | StmtForm::Jump { .. } => Ok(()),
        StmtForm::Block { parts, .. } => walk_parts(alloc, typed, taming, parts, found),
        StmtForm::Do { expr } => walk_expression(alloc, typed, taming, expr, found),
        StmtForm::If { condition, yes, no } => {
            walk_expression(alloc, typed, taming, condition, found)?;
            walk_statement(alloc, typed, taming, yes, found)?;
            walk_part(alloc, typed, taming, no, found)
        }
        StmtForm::Loop {
            condition,
            steps,
            body,
        } => {
            walk_expression(alloc, typed, taming, condition, found)?;
            walk_steps(alloc, typed, taming, steps, found)?;
            walk_statement(alloc, typed, taming, body, found)
        }
        StmtForm::DoLoop { body, condition } => {
            walk_statement(alloc, typed, taming, body, found)?;
            walk_expression(alloc, typed, taming, condition, found)
        }
        StmtForm::Switch {
            selector,
            groups,
            ..
        } => {
            walk_expression(alloc, typed, taming, selector, found)?;
            walk_groups(alloc, typed, taming, groups, found)
        }
        StmtForm::Labelled { body, .. } => walk_statement(alloc, typed, taming, body, found),
        StmtForm::Return { value } => walk_value(alloc, typed, taming, value, found),
        StmtForm::Throw { value } => walk_expression(alloc, typed, taming, value, found),
        StmtForm::Try {
            body,
            catches,
            last,
        } => {
            walk_statement(alloc, typed, taming, body, found)?;
            walk_catches(alloc, typed, taming, catches, found)?;
            judge_finally(at, last, found)?;
            walk_part(alloc, typed, taming, last, found)
        }
    }
}

#[cycle(walk)]
fn walk_parts(
    alloc: Global,
    typed: &Typed,
    taming: &Taming,
    parts: &[Rc<Stmt>],
    found: &mut Found,
) -> Result<(), Memory>
    ensures { OnOk result (found.new ≡
        followed_by found.old
        (parts_breaks (program_of typed.now) (rows taming.now) (core_stmts (stmt_views parts.now)))) }
{
    for part in parts {
        walk_statement(alloc, typed, taming, part, found)?;
    }
    Ok(())
}

#[cycle(walk)]
fn walk_part(
    alloc: Global,
    typed: &Typed,
    taming: &Taming,
    part: &Option<Rc<Stmt>>,
    found: &mut Found,
) -> Result<(), Memory>
    ensures { OnOk result (found.new ≡
        followed_by found.old
        (part_breaks (program_of typed.now) (rows taming.now) (maybe_stmt (stmt_view_if part.now)))) }
{
    match part {
        None => Ok(()),
        Some(part) => walk_statement(alloc, typed, taming, part, found),
    }
}

#[cycle(walk)]
fn walk_groups(
    alloc: Global,
    typed: &Typed,
    taming: &Taming,
    groups: &[Group],
    found: &mut Found,
) -> Result<(), Memory>
    ensures { OnOk result (found.new ≡
        followed_by found.old
        (groups_breaks (program_of typed.now) (rows taming.now) (core_groups (map group_view groups.now)))) }
{
    for group in groups {
        walk_group(alloc, typed, taming, group, found)?;
    }
    Ok(())
}

#[cycle(walk)]
#[tactic(auto, using(je_core::proofs::Views::parts_seen))]
fn walk_group(
    alloc: Global,
    typed: &Typed,
    taming: &Taming,
    group: &Group,
    found: &mut Found,
) -> Result<(), Memory>
    ensures { OnOk result (found.new ≡
        followed_by found.old
        (group_breaks (program_of typed.now) (rows taming.now) (group_view group.now))) }
{
    walk_labels(taming, &group.labels, found)?;
    walk_parts(alloc, typed, taming, &group.parts, found)
}

#[cycle(walk)]
fn walk_catches(
    alloc: Global,
    typed: &Typed,
    taming: &Taming,
    catches: &[Catch],
    found: &mut Found,
) -> Result<(), Memory>
    ensures { OnOk result (found.new ≡
        followed_by found.old
        (catches_breaks (program_of typed.now) (rows taming.now) (core_catches (map catch_view catches.now)))) }
{
    for catch in catches {
        walk_catch(alloc, typed, taming, catch, found)?;
    }
    Ok(())
}

#[cycle(walk)]
#[tactic(auto, using(je_core::proofs::Views::parts_seen))]
fn walk_catch(
    alloc: Global,
    typed: &Typed,
    taming: &Taming,
    catch: &Catch,
    found: &mut Found,
) -> Result<(), Memory>
    ensures { OnOk result (found.new ≡
        followed_by found.old
        (catch_breaks (program_of typed.now) (rows taming.now) (catch_view catch.now))) }
{
    judge_catch(typed, catch.class, catch.span, found)?;
    walk_statement(alloc, typed, taming, &catch.body, found)
}

// The steps of a loop.
fn walk_steps(
    alloc: Global,
    typed: &Typed,
    taming: &Taming,
    steps: &[Rc<Expr>],
    found: &mut Found,
) -> Result<(), Memory>
    ensures { OnOk result (found.new ≡
        followed_by found.old
        (of_each (expression_breaks (program_of typed.now) (rows taming.now)) (views steps.now))) }
{
    for step in steps {
        walk_expression(alloc, typed, taming, step, found)?;
    }
    Ok(())
}

// The fields that the labels of a group name.
fn walk_labels(taming: &Taming, labels: &[Label], found: &mut Found) -> Result<(), Memory>
    ensures { OnOk result (found.new ≡
        followed_by found.old
        (of_each (label_breaks (rows taming.now)) (map label_view labels.now))) }
{
    for label in labels {
        judge_constants(taming, &label.uses, found)?;
    }
    Ok(())
}
