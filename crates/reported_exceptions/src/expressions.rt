// What expressions can throw (JLS 11.2.1).

ghost use Rattle.std.specs.Prelude.{◌≡◌, OnOk};
ghost use Rattle.je_core.specs.Core.{cores, maybe_core};
ghost use Rattle.je_core.specs.View.{view, form_view, views, view_if, program_view};
ghost use Rattle.reported_exceptions.specs.Expressions.{throws, form_throws, all_throws, maybe_throws};
ghost use Rattle.reported_exceptions.specs.Throws.{out_behind};
ghost use Rattle.reported_exceptions.specs.View.{rows};

use crate::making::{Making, throw_making};
use crate::throws::{Throw, throw_call};
use je_core::{Expr, Form, Memory, Program, Span};
use std::alloc::Global;
use std::rc::Rc;

/// Adds what an expression can throw.
#[cycle(walk)]
#[tactic(auto, using(je_core::proofs::Views::view_is))]
pub fn walk_expression(
    alloc: Global,
    program: &Program,
    makings: &[Making],
    e: &Expr,
    thrown: &mut Vec<Throw>,
) -> Result<(), Memory>
    ensures { OnOk result (thrown.new.items ≡
        out_behind (program_view program.now) thrown.old.items
        (throws (program_view program.now) (rows makings.now) (view e.now))) }
{
    walk_form(alloc, program, makings, &e.form, e.at, thrown)
}

#[cycle(walk)]
fn walk_form(
    alloc: Global,
    program: &Program,
    makings: &[Making],
    form: &Form,
    at: Span,
    thrown: &mut Vec<Throw>,
) -> Result<(), Memory>
    ensures { OnOk result (thrown.new.items ≡
        out_behind (program_view program.now) thrown.old.items
        (form_throws (program_view program.now) (rows makings.now) at (form_view form.now))) }
{
    match form {
        Form::Const { .. } | Form::Text { .. } | Form::Local { .. } | Form::This => Ok(()),
        Form::Static { object, .. } => walk_maybe(alloc, program, makings, object, thrown),
        Form::Update { place, operand, .. } => {
            walk_expression(alloc, program, makings, place, thrown)?;
            walk_maybe(alloc, program, makings, operand, thrown)
        }
        Form::Field { object: part, .. }
        | Form::Length { array: part }
        | Form::Unary { operand: part, .. }
        | Form::Convert { operand: part }
        | Form::Cast { operand: part }
        | Form::InstanceOf { operand: part, .. } => {
            walk_expression(alloc, program, makings, part, thrown)
        }
        Form::Index {
            array: left,
            index: right,
        }
        | Form::Assign {
            place: left,
            value: right,
        }
        | Form::Binary { left, right, .. }
        | Form::And { left, right }
        | Form::Or { left, right }
        | Form::Concat { left, right } => {
            walk_expression(alloc, program, makings, left, thrown)?;
            walk_expression(alloc, program, makings, right, thrown)
        }
        Form::Choose { condition, yes, no } => {
            walk_expression(alloc, program, makings, condition, thrown)?;
            walk_expression(alloc, program, makings, yes, thrown)?;
            walk_expression(alloc, program, makings, no, thrown)
        }
        Form::CallVirtual {
            receiver,
            class,
            method,
            args,
        } => {
            walk_expression(alloc, program, makings, receiver, thrown)?;
            walk_all(alloc, program, makings, args, thrown)?;
            throw_call(alloc, program, *class, *method, at, thrown)
        }
        Form::CallExact {
            receiver,
            class,
            method,
            args,
        } => {
            walk_maybe(alloc, program, makings, receiver, thrown)?;
            walk_all(alloc, program, makings, args, thrown)?;
            throw_call(alloc, program, *class, *method, at, thrown)
        }
        Form::New {
            class,
            method,
            args,
            word,
            ..
        } => {
            walk_all(alloc, program, makings, args, thrown)?;
            throw_call(alloc, program, *class, *method, *word, thrown)?;
            throw_making(alloc, program, makings, *class, *word, thrown)
        }
        Form::NewArray { lengths: parts } | Form::ArrayOf { values: parts } => {
            walk_all(alloc, program, makings, parts, thrown)
        }
    }
}

/// Adds what expressions can throw.
#[cycle(walk)]
pub fn walk_all(
    alloc: Global,
    program: &Program,
    makings: &[Making],
    parts: &[Rc<Expr>],
    thrown: &mut Vec<Throw>,
) -> Result<(), Memory>
    ensures { OnOk result (thrown.new.items ≡
        out_behind (program_view program.now) thrown.old.items
        (all_throws (program_view program.now) (rows makings.now) (cores (views parts.now)))) }
{
    for part in parts {
        walk_expression(alloc, program, makings, part, thrown)?;
    }
    Ok(())
}

#[cycle(walk)]
fn walk_maybe(
    alloc: Global,
    program: &Program,
    makings: &[Making],
    part: &Option<Rc<Expr>>,
    thrown: &mut Vec<Throw>,
) -> Result<(), Memory>
    ensures { OnOk result (thrown.new.items ≡
        out_behind (program_view program.now) thrown.old.items
        (maybe_throws (program_view program.now) (rows makings.now)
        (maybe_core (view_if part.now)))) }
{
    match part {
        None => Ok(()),
        Some(part) => walk_expression(alloc, program, makings, part, thrown),
    }
}
