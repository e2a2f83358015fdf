// The constant strings in statements.

ghost use Rattle.std.specs.Prelude.{◌≡◌, ◌++◌, OnOk, flat_map, map};
ghost use Rattle.class_typing.specs.Texts.{catch_texts, form_texts, group_texts, maybe_texts, one_catch_texts, one_group_texts, part_texts, statement_texts, texts_of};
ghost use Rattle.je_core.specs.Core.{core_catches, core_groups, core_stmts, maybe_stmt};
ghost use Rattle.je_core.specs.View.{catch_view, group_view, stmt_form_view, stmt_view, stmt_view_if, stmt_views, views};
ghost use Rattle.program_tables.specs.way.Seen.{found_seen};

use crate::expressions::{walk_expression, walk_value};
use crate::found::Found;
use je_base::Memory;
use je_core::{Catch, Expr, Group, Stmt, StmtForm};
use std::rc::Rc;

/// Adds those in a statement.
#[cycle(walk)]
#[tactic(auto, using(je_core::proofs::Views::stmt_view_is))]
pub fn walk_statement<'a>(statement: &'a Stmt, found: &mut Vec<Found<'a>>) -> Result<(), Memory>
    ensures { OnOk result (map found_seen found.new.items ≡
        map found_seen found.old.items ++ statement_texts (stmt_view statement.now)) }
{
    walk_form(&statement.form, found)
}

#[cycle(walk)]
fn walk_form<'a>(form: &'a StmtForm, found: &mut Vec<Found<'a>>) -> Result<(), Memory>
    ensures { OnOk result (map found_seen found.new.items ≡
        map found_seen found.old.items ++ form_texts (stmt_form_view form.now)) }
{
    match form {
        StmtForm::Empty | StmtForm::Jump { .. } => Ok(()),
        StmtForm::Block { parts, .. } => walk_parts(parts, found),
        StmtForm::Do { expr: value } | StmtForm::Throw { value } => walk_expression(value, found),
        StmtForm::If { condition, yes, no } => {
            walk_expression(condition, found)?;
            walk_statement(yes, found)?;
            walk_maybe(no, found)
        }
        StmtForm::Loop {
            condition,
            steps,
            body,
        } => {
            walk_expression(condition, found)?;
            walk_steps(steps, found)?;
            walk_statement(body, found)
        }
        StmtForm::DoLoop { body, condition } => {
            walk_statement(body, found)?;
            walk_expression(condition, found)
        }
        StmtForm::Switch {
            selector,
            groups,
            ..
        } => {
            walk_expression(selector, found)?;
            walk_groups(groups, found)
        }
        StmtForm::Labelled { body, .. } => walk_statement(body, found),
        StmtForm::Return { value } => walk_value(value, found),
        StmtForm::Try {
            body,
            catches,
            last,
        } => {
            walk_statement(body, found)?;
            walk_catches(catches, found)?;
            walk_maybe(last, found)
        }
    }
}

#[cycle(walk)]
fn walk_parts<'a>(parts: &'a [Rc<Stmt>], found: &mut Vec<Found<'a>>) -> Result<(), Memory>
    ensures { OnOk result (map found_seen found.new.items ≡
        map found_seen found.old.items ++ part_texts (core_stmts (stmt_views parts.now))) }
{
    for part in parts {
        walk_statement(part, found)?;
    }
    Ok(())
}

#[cycle(walk)]
fn walk_maybe<'a>(part: &'a Option<Rc<Stmt>>, found: &mut Vec<Found<'a>>) -> Result<(), Memory>
    ensures { OnOk result (map found_seen found.new.items ≡
        map found_seen found.old.items ++ maybe_texts (maybe_stmt (stmt_view_if part.now))) }
{
    match part {
        None => Ok(()),
        Some(part) => walk_statement(part, found),
    }
}

#[cycle(walk)]
fn walk_groups<'a>(groups: &'a [Group], found: &mut Vec<Found<'a>>) -> Result<(), Memory>
    ensures { OnOk result (map found_seen found.new.items ≡
        map found_seen found.old.items ++ group_texts (core_groups (map group_view groups.now))) }
{
    for group in groups {
        walk_group(group, found)?;
    }
    Ok(())
}

#[cycle(walk)]
#[tactic(auto, using(je_core::proofs::Views::parts_seen))]
fn walk_group<'a>(group: &'a Group, found: &mut Vec<Found<'a>>) -> Result<(), Memory>
    ensures { OnOk result (map found_seen found.new.items ≡
        map found_seen found.old.items ++ one_group_texts (group_view group.now)) }
{
    walk_parts(&group.parts, found)
}

#[cycle(walk)]
fn walk_catches<'a>(catches: &'a [Catch], found: &mut Vec<Found<'a>>) -> Result<(), Memory>
    ensures { OnOk result (map found_seen found.new.items ≡
        map found_seen found.old.items ++ catch_texts (core_catches (map catch_view catches.now))) }
{
    for catch in catches {
        walk_catch(catch, found)?;
    }
    Ok(())
}

#[cycle(walk)]
#[tactic(auto, using(je_core::proofs::Views::parts_seen))]
fn walk_catch<'a>(catch: &'a Catch, found: &mut Vec<Found<'a>>) -> Result<(), Memory>
    ensures { OnOk result (map found_seen found.new.items ≡
        map found_seen found.old.items ++ one_catch_texts (catch_view catch.now)) }
{
    walk_statement(&catch.body, found)
}

// Those in the steps of a loop.
fn walk_steps<'a>(steps: &'a [Rc<Expr>], found: &mut Vec<Found<'a>>) -> Result<(), Memory>
    ensures { OnOk result (map found_seen found.new.items ≡
        map found_seen found.old.items ++ flat_map texts_of (views steps.now)) }
{
    for step in steps {
        walk_expression(step, found)?;
    }
    Ok(())
}
