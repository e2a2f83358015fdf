// Whether each statement of a body, and each node of its expressions, is plain.

ghost use Rattle.std.specs.Prelude.{◌≡◌, ◌&&◌, IfOk, map};
ghost use Rattle.std.specs.List.{list_all};
ghost use Rattle.je_core.specs.Core.{core_catches, core_groups, core_stmts, maybe_stmt};
ghost use Rattle.je_core.specs.View.{catch_view, group_view, program_view, stmt_form_view, stmt_view, stmt_view_if, stmt_views, view, view_if, views};
ghost use Rattle.je_classes.specs.Hierarchy.{IsAcyclic};
ghost use Rattle.plain_programs.specs.Nodes.{every, every_value, throughout, throughout_all, throughout_catch, throughout_catches, throughout_group, throughout_groups, throughout_if, throughout_parts};
ghost use Rattle.plain_programs.specs.way.Deciding.{is_plain_body, is_plain_form, is_plain_node};

use crate::expressions::expression_is_plain;
use crate::nodes::form_is_plain;
use je_core::{Catch, Expr, Group, Memory, Program, Stmt, StmtForm};
use std::alloc::Global;
use std::rc::Rc;

// Whether each node of some expressions is plain.
fn steps_are_plain(
    alloc: Global,
    program: &Program,
    starts: bool,
    steps: &[Rc<Expr>],
) -> Result<bool, Memory>
    requires { IsAcyclic (program_view program.now) }
    ensures { IfOk result (λ plain. plain ≡
        list_all (every (is_plain_node (program_view program.now) starts)) (views steps.now)) }
{
    for step in steps {
        if !expression_is_plain(alloc, program, starts, step)? {
            return Ok(false);
        }
    }
    Ok(true)
}

// Whether each node of a value is plain, if there is one.
fn value_is_plain(
    alloc: Global,
    program: &Program,
    starts: bool,
    value: &Option<Rc<Expr>>,
) -> Result<bool, Memory>
    requires { IsAcyclic (program_view program.now) }
    ensures { IfOk result (λ plain. plain ≡
        every_value (is_plain_node (program_view program.now) starts) (view_if value.now)) }
{
    match value {
        None => Ok(true),
        Some(value) => expression_is_plain(alloc, program, starts, value),
    }
}

/// Whether each statement and each node of a body is plain, of a static initializer or not.
#[cycle(statement)]
#[tactic(auto, using(je_core::proofs::Views::stmt_view_is))]
pub fn statement_is_plain(
    alloc: Global,
    program: &Program,
    starts: bool,
    statement: &Stmt,
) -> Result<bool, Memory>
    requires { IsAcyclic (program_view program.now) }
    ensures { IfOk result (λ plain. plain ≡
        is_plain_body (program_view program.now) starts (stmt_view statement.now)) }
{
    if !form_is_plain(&statement.form) {
        return Ok(false);
    }
    parts_are_plain(alloc, program, starts, &statement.form)
}

#[cycle(statement)]
fn parts_are_plain(
    alloc: Global,
    program: &Program,
    starts: bool,
    form: &StmtForm,
) -> Result<bool, Memory>
    requires { IsAcyclic (program_view program.now) }
    ensures { IfOk result (λ plain. plain ≡
        throughout_parts (is_plain_node (program_view program.now) starts) is_plain_form
        (stmt_form_view form.now)) }
{
    match form {
        StmtForm::Empty | StmtForm::Jump { .. } => Ok(true),
        StmtForm::Block { parts, .. } => all_are_plain(alloc, program, starts, parts),
        StmtForm::Do { expr } => expression_is_plain(alloc, program, starts, expr),
        StmtForm::If { condition, yes, no } => {
            if !expression_is_plain(alloc, program, starts, condition)? {
                return Ok(false);
            }
            if !statement_is_plain(alloc, program, starts, yes)? {
                return Ok(false);
            }
            part_is_plain(alloc, program, starts, no)
        }
        StmtForm::Loop {
            condition,
            steps,
            body,
        } => {
            if !expression_is_plain(alloc, program, starts, condition)? {
                return Ok(false);
            }
            if !steps_are_plain(alloc, program, starts, steps)? {
                return Ok(false);
            }
            statement_is_plain(alloc, program, starts, body)
        }
        StmtForm::DoLoop { body, condition } => {
            if !statement_is_plain(alloc, program, starts, body)? {
                return Ok(false);
            }
            expression_is_plain(alloc, program, starts, condition)
        }
        StmtForm::Switch {
            selector,
            groups,
            ..
        } => {
            if !expression_is_plain(alloc, program, starts, selector)? {
                return Ok(false);
            }
            groups_are_plain(alloc, program, starts, groups)
        }
        StmtForm::Labelled { body, .. } => statement_is_plain(alloc, program, starts, body),
        StmtForm::Return { value } => value_is_plain(alloc, program, starts, value),
        StmtForm::Throw { value } => expression_is_plain(alloc, program, starts, value),
        StmtForm::Try {
            body,
            catches,
            last,
        } => {
            if !statement_is_plain(alloc, program, starts, body)? {
                return Ok(false);
            }
            if !catches_are_plain(alloc, program, starts, catches)? {
                return Ok(false);
            }
            part_is_plain(alloc, program, starts, last)
        }
    }
}

#[cycle(statement)]
fn all_are_plain(
    alloc: Global,
    program: &Program,
    starts: bool,
    list: &[Rc<Stmt>],
) -> Result<bool, Memory>
    requires { IsAcyclic (program_view program.now) }
    ensures { IfOk result (λ plain. plain ≡
        throughout_all (is_plain_node (program_view program.now) starts) is_plain_form
        (core_stmts (stmt_views list.now))) }
{
    for statement in list {
        if !statement_is_plain(alloc, program, starts, statement)? {
            return Ok(false);
        }
    }
    Ok(true)
}

#[cycle(statement)]
fn part_is_plain(
    alloc: Global,
    program: &Program,
    starts: bool,
    part: &Option<Rc<Stmt>>,
) -> Result<bool, Memory>
    requires { IsAcyclic (program_view program.now) }
    ensures { IfOk result (λ plain. plain ≡
        throughout_if (is_plain_node (program_view program.now) starts) is_plain_form
        (maybe_stmt (stmt_view_if part.now))) }
{
    match part {
        None => Ok(true),
        Some(part) => statement_is_plain(alloc, program, starts, part),
    }
}

#[cycle(statement)]
fn groups_are_plain(
    alloc: Global,
    program: &Program,
    starts: bool,
    groups: &[Group],
) -> Result<bool, Memory>
    requires { IsAcyclic (program_view program.now) }
    ensures { IfOk result (λ plain. plain ≡
        throughout_groups (is_plain_node (program_view program.now) starts) is_plain_form
        (core_groups (map group_view groups.now))) }
{
    for group in groups {
        if !group_is_plain(alloc, program, starts, group)? {
            return Ok(false);
        }
    }
    Ok(true)
}

#[cycle(statement)]
#[tactic(auto, using(je_core::proofs::Views::parts_seen))]
fn group_is_plain(
    alloc: Global,
    program: &Program,
    starts: bool,
    group: &Group,
) -> Result<bool, Memory>
    requires { IsAcyclic (program_view program.now) }
    ensures { IfOk result (λ plain. plain ≡
        throughout_group (is_plain_node (program_view program.now) starts) is_plain_form
        (group_view group.now)) }
{
    all_are_plain(alloc, program, starts, &group.parts)
}

#[cycle(statement)]
fn catches_are_plain(
    alloc: Global,
    program: &Program,
    starts: bool,
    catches: &[Catch],
) -> Result<bool, Memory>
    requires { IsAcyclic (program_view program.now) }
    ensures { IfOk result (λ plain. plain ≡
        throughout_catches (is_plain_node (program_view program.now) starts) is_plain_form
        (core_catches (map catch_view catches.now))) }
{
    for catch in catches {
        if !catch_is_plain(alloc, program, starts, catch)? {
            return Ok(false);
        }
    }
    Ok(true)
}

#[cycle(statement)]
#[tactic(auto, using(je_core::proofs::Views::parts_seen))]
fn catch_is_plain(
    alloc: Global,
    program: &Program,
    starts: bool,
    catch: &Catch,
) -> Result<bool, Memory>
    requires { IsAcyclic (program_view program.now) }
    ensures { IfOk result (λ plain. plain ≡
        throughout_catch (is_plain_node (program_view program.now) starts) is_plain_form
        (catch_view catch.now)) }
{
    statement_is_plain(alloc, program, starts, &catch.body)
}
