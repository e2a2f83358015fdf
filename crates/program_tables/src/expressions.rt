// The constant strings in expressions.

ghost use Rattle.std.specs.Prelude.{◌≡◌, ◌++◌, OnOk, map};
ghost use Rattle.class_typing.specs.Texts.{texts_all, texts_if, texts_in, texts_maybe, texts_of};
ghost use Rattle.je_core.specs.Core.{cores, maybe_core};
ghost use Rattle.je_core.specs.View.{form_view, view, view_if, views};
ghost use Rattle.program_tables.specs.way.Seen.{found_seen};

use crate::found::Found;
use je_base::{Memory, Span};
use je_core::{Expr, Form};
use std::rc::Rc;

/// Adds those in an expression.
#[cycle(walk)]
#[tactic(auto, using(je_core::proofs::Views::view_is))]
pub fn walk_expression<'a>(e: &'a Expr, found: &mut Vec<Found<'a>>) -> Result<(), Memory>
    ensures { OnOk result (map found_seen found.new.items ≡
        map found_seen found.old.items ++ texts_of (view e.now)) }
{
    walk_form(&e.form, e.span, found)
}

#[cycle(walk)]
fn walk_form<'a>(form: &'a Form, span: Span, found: &mut Vec<Found<'a>>) -> Result<(), Memory>
    ensures { OnOk result (map found_seen found.new.items ≡
        map found_seen found.old.items ++ texts_in span (form_view form.now)) }
{
    match form {
        Form::Const { .. } | Form::Local { .. } | Form::This => Ok(()),
        Form::Text { units, .. } => {
            found.push(Found { units, span })?;
            Ok(())
        }
        Form::Static { object, .. } => walk_maybe(object, found),
        Form::Update { place, operand, .. } => {
            walk_expression(place, found)?;
            walk_maybe(operand, found)
        }
        Form::Field { object: part, .. }
        | Form::Length { array: part }
        | Form::Unary { operand: part, .. }
        | Form::Convert { operand: part }
        | Form::Cast { operand: part }
        | Form::InstanceOf { operand: part, .. } => walk_expression(part, found),
        Form::Index {
            array: left,
            index: right,
        }
        | Form::Assign {
            place: left,
            value: right,
        }
        | Form::Binary { left, right, .. }
        | Form::And { left, right }
        | Form::Or { left, right }
        | Form::Concat { left, right } => {
            walk_expression(left, found)?;
            walk_expression(right, found)
        }
        Form::Choose { condition, yes, no } => {
            walk_expression(condition, found)?;
            walk_expression(yes, found)?;
            walk_expression(no, found)
        }
        Form::CallVirtual { receiver, args, .. } => {
            walk_expression(receiver, found)?;
            walk_all(args, found)
        }
        Form::CallExact { receiver, args, .. } => {
            walk_maybe(receiver, found)?;
            walk_all(args, found)
        }
        Form::New { args: parts, .. }
        | Form::NewArray { lengths: parts }
        | Form::ArrayOf { values: parts } => walk_all(parts, found),
    }
}

/// Adds those in expressions.
#[cycle(walk)]
pub fn walk_all<'a>(parts: &'a [Rc<Expr>], found: &mut Vec<Found<'a>>) -> Result<(), Memory>
    ensures { OnOk result (map found_seen found.new.items ≡
        map found_seen found.old.items ++ texts_all (cores (views parts.now))) }
{
    for part in parts {
        walk_expression(part, found)?;
    }
    Ok(())
}

#[cycle(walk)]
fn walk_maybe<'a>(part: &'a Option<Rc<Expr>>, found: &mut Vec<Found<'a>>) -> Result<(), Memory>
    ensures { OnOk result (map found_seen found.new.items ≡
        map found_seen found.old.items ++ texts_maybe (maybe_core (view_if part.now))) }
{
    match part {
        None => Ok(()),
        Some(part) => walk_expression(part, found),
    }
}

/// Adds those in an expression, if there is one.
pub fn walk_value<'a>(value: &'a Option<Rc<Expr>>, found: &mut Vec<Found<'a>>) -> Result<(), Memory>
    ensures { OnOk result (map found_seen found.new.items ≡
        map found_seen found.old.items ++ texts_if (view_if value.now)) }
{
    match value {
        None => Ok(()),
        Some(value) => walk_expression(value, found),
    }
}
