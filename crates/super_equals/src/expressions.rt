// The calls of Object's `equals(Object)` by `super` in expressions.

ghost use Rattle.std.specs.Prelude.{◌≡◌, OnOk};
ghost use Rattle.je_core.specs.Core.{cores, maybe_core};
ghost use Rattle.je_core.specs.View.{form_view, view, view_if, views};
ghost use Rattle.rule_breaks.specs.way.Found.{followed_by};
ghost use Rattle.super_equals.specs.Calls.{equals_place as the_equals_place, is_super_equals as the_is_super_equals, is_this_if};
ghost use Rattle.super_equals.specs.Expressions.{calls_in, calls_in_all, calls_in_form, calls_in_maybe};

use class_members::same_class;
use fit_nodes::is_this;
use je_classes::object_class;
use je_core::{ClassId, Expr, Form, Memory, Span};
use rule_breaks::{ConfinementRule, Found};
use std::rc::Rc;

/// The place of Object's `equals(Object)` among its methods.
#[tactic(auto, unfolding(crate::specs::Calls::equals_place))]
pub fn equals_place() -> u32
    ensures { result ≡ the_equals_place }
{
    0
}

fn is_receiver_this(receiver: &Option<Rc<Expr>>) -> bool
    ensures { result ≡ is_this_if (maybe_core (view_if receiver.now)) }
{
    match receiver {
        None => false,
        Some(receiver) => is_this(receiver),
    }
}

fn is_super_equals(receiver: &Option<Rc<Expr>>, class: ClassId, method: u32) -> bool
    ensures { result ≡ the_is_super_equals (maybe_core (view_if receiver.now)) class method }
{
    is_receiver_this(receiver) && same_class(class, object_class()) && method == equals_place()
}

/// Adds the calls of Object's `equals(Object)` by `super` in an expression, each at the name `equals`.
#[cycle(walk)]
#[tactic(auto, using(je_core::proofs::Views::view_is))]
pub fn walk_expression(e: &Expr, found: &mut Found) -> Result<(), Memory>
    ensures { OnOk result (found.new ≡
        followed_by found.old (calls_in (view e.now))) }
{
    walk_form(&e.form, e.at, found)
}

#[cycle(walk)]
fn walk_form(form: &Form, at: Span, found: &mut Found) -> Result<(), Memory>
    ensures { OnOk result (found.new ≡
        followed_by found.old
        (calls_in_form at (form_view form.now))) }
{
    match form {
        Form::Const { .. } | Form::Text { .. } | Form::Local { .. } | Form::This => Ok(()),
        Form::Static { object, .. } => walk_maybe(object, found),
        Form::Update { place, operand, .. } => {
            walk_expression(place, found)?;
            walk_maybe(operand, found)
        }
        Form::Field { object: part, .. }
        | Form::Length { array: part }
        | Form::Unary { operand: part, .. }
        | Form::Convert { operand: part }
        | Form::Cast { operand: part }
        | Form::InstanceOf { operand: part, .. } => walk_expression(part, found),
        Form::Index {
            array: left,
            index: right,
        }
        | Form::Assign {
            place: left,
            value: right,
        }
        | Form::Binary { left, right, .. }
        | Form::And { left, right }
        | Form::Or { left, right }
        | Form::Concat { left, right } => {
            walk_expression(left, found)?;
            walk_expression(right, found)
        }
        Form::Choose { condition, yes, no } => {
            walk_expression(condition, found)?;
            walk_expression(yes, found)?;
            walk_expression(no, found)
        }
        Form::CallVirtual { receiver, args, .. } => {
            walk_expression(receiver, found)?;
            walk_all(args, found)
        }
        Form::CallExact {
            receiver,
            class,
            method,
            args,
        } => {
            let is_call = is_super_equals(receiver, *class, *method);
            found.add_where(is_call, ConfinementRule::SelflessClass, at)?;
            walk_maybe(receiver, found)?;
            walk_all(args, found)
        }
        Form::New { args, .. } => walk_all(args, found),
        Form::NewArray { lengths: parts } | Form::ArrayOf { values: parts } => {
            walk_all(parts, found)
        }
    }
}

#[cycle(walk)]
fn walk_maybe(part: &Option<Rc<Expr>>, found: &mut Found) -> Result<(), Memory>
    ensures { OnOk result (found.new ≡
        followed_by found.old (calls_in_maybe
        (maybe_core (view_if part.now)))) }
{
    match part {
        None => Ok(()),
        Some(part) => walk_expression(part, found),
    }
}

#[cycle(walk)]
fn walk_all(parts: &[Rc<Expr>], found: &mut Found) -> Result<(), Memory>
    ensures { OnOk result (found.new ≡
        followed_by found.old (calls_in_all (cores (views parts.now)))) }
{
    for part in parts {
        walk_expression(part, found)?;
    }
    Ok(())
}
