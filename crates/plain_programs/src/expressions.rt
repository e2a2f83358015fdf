// Whether each node of an expression is plain.

ghost use Rattle.std.specs.Prelude.{◌≡◌, IfOk};
ghost use Rattle.je_core.specs.Core.{cores, maybe_core};
ghost use Rattle.je_core.specs.View.{form_view, program_view, view, view_if, views};
ghost use Rattle.je_classes.specs.Hierarchy.{IsAcyclic};
ghost use Rattle.plain_programs.specs.Nodes.{every, every_if, every_of, every_part};
ghost use Rattle.plain_programs.specs.way.Deciding.{is_plain_node};

use crate::nodes::node_is_plain;
use je_core::{Expr, Form, Memory, Program};
use std::alloc::Global;
use std::rc::Rc;

/// Whether each node of an expression is plain, in a static initializer or not.
#[cycle(expression)]
#[tactic(auto, using(je_core::proofs::Views::view_is))]
pub fn expression_is_plain(
    alloc: Global,
    program: &Program,
    starts: bool,
    e: &Expr,
) -> Result<bool, Memory>
    requires { IsAcyclic (program_view program.now) }
    ensures { IfOk result (λ plain. plain ≡
        every (is_plain_node (program_view program.now) starts) (view e.now)) }
{
    if !node_is_plain(alloc, program, starts, &e.form)? {
        return Ok(false);
    }
    parts_are_plain(alloc, program, starts, &e.form)
}

// Whether each node of the parts of an expression is plain.
#[cycle(expression)]
fn parts_are_plain(
    alloc: Global,
    program: &Program,
    starts: bool,
    form: &Form,
) -> Result<bool, Memory>
    requires { IsAcyclic (program_view program.now) }
    ensures { IfOk result (λ plain. plain ≡
        every_part (is_plain_node (program_view program.now) starts) (form_view form.now)) }
{
    match form {
        Form::Const { .. } | Form::Text { .. } | Form::Local { .. } | Form::This => Ok(true),
        Form::Field { object, .. } => expression_is_plain(alloc, program, starts, object),
        Form::Static { object, .. } => part_is_plain(alloc, program, starts, object),
        Form::Index { array, index } => {
            if !expression_is_plain(alloc, program, starts, array)? {
                return Ok(false);
            }
            expression_is_plain(alloc, program, starts, index)
        }
        Form::Length { array } => expression_is_plain(alloc, program, starts, array),
        Form::Assign { place, value } => {
            if !expression_is_plain(alloc, program, starts, place)? {
                return Ok(false);
            }
            expression_is_plain(alloc, program, starts, value)
        }
        Form::Update { place, operand, .. } => {
            if !expression_is_plain(alloc, program, starts, place)? {
                return Ok(false);
            }
            part_is_plain(alloc, program, starts, operand)
        }
        Form::Unary { operand, .. }
        | Form::Convert { operand }
        | Form::Cast { operand }
        | Form::InstanceOf { operand, .. } => expression_is_plain(alloc, program, starts, operand),
        Form::Binary { left, right, .. }
        | Form::And { left, right }
        | Form::Or { left, right }
        | Form::Concat { left, right } => {
            if !expression_is_plain(alloc, program, starts, left)? {
                return Ok(false);
            }
            expression_is_plain(alloc, program, starts, right)
        }
        Form::Choose { condition, yes, no } => {
            if !expression_is_plain(alloc, program, starts, condition)? {
                return Ok(false);
            }
            if !expression_is_plain(alloc, program, starts, yes)? {
                return Ok(false);
            }
            expression_is_plain(alloc, program, starts, no)
        }
        Form::CallVirtual { receiver, args, .. } => {
            if !expression_is_plain(alloc, program, starts, receiver)? {
                return Ok(false);
            }
            all_are_plain(alloc, program, starts, args)
        }
        Form::CallExact { receiver, args, .. } => {
            if !part_is_plain(alloc, program, starts, receiver)? {
                return Ok(false);
            }
            all_are_plain(alloc, program, starts, args)
        }
        Form::New { args, .. } => all_are_plain(alloc, program, starts, args),
        Form::NewArray { lengths } => all_are_plain(alloc, program, starts, lengths),
        Form::ArrayOf { values } => all_are_plain(alloc, program, starts, values),
    }
}

#[cycle(expression)]
fn part_is_plain(
    alloc: Global,
    program: &Program,
    starts: bool,
    part: &Option<Rc<Expr>>,
) -> Result<bool, Memory>
    requires { IsAcyclic (program_view program.now) }
    ensures { IfOk result (λ plain. plain ≡
        every_if (is_plain_node (program_view program.now) starts) (maybe_core (view_if part.now))) }
{
    match part {
        None => Ok(true),
        Some(part) => expression_is_plain(alloc, program, starts, part),
    }
}

#[cycle(expression)]
fn all_are_plain(
    alloc: Global,
    program: &Program,
    starts: bool,
    list: &[Rc<Expr>],
) -> Result<bool, Memory>
    requires { IsAcyclic (program_view program.now) }
    ensures { IfOk result (λ plain. plain ≡
        every_of (is_plain_node (program_view program.now) starts) (cores (views list.now))) }
{
    for e in list {
        if !expression_is_plain(alloc, program, starts, e)? {
            return Ok(false);
        }
    }
    Ok(true)
}
