// Where `this` escapes in expressions.

ghost use Rattle.std.specs.Prelude.{◌≡◌, OnOk, if◌then◌else◌, map};
ghost use Rattle.je_core.specs.Core.{cores, maybe_core};
ghost use Rattle.je_core.specs.View.{capture_view, form_view, program_view, view, view_if, views};
ghost use Rattle.je_fitting.specs.Expressions.{is_this as the_is_this};
ghost use Rattle.rule_breaks.specs.Breaks.{none};
ghost use Rattle.rule_breaks.specs.way.Found.{followed_by};
ghost use Rattle.ctor_escape.specs.Expressions.{all_escape, escapes, form_escapes, is_enclosed as the_is_enclosed, is_handed_this as the_is_handed_this, maybe_escapes, selected_escapes};

use constructor_calls::calls_constructor;
use fit_nodes::is_this;
use je_core::{Capture, Expr, Form, Memory, Program, Span};
use rule_breaks::{ConfinementRule, Found};
use std::rc::Rc;

// Whether a hidden field of a new object begins with `this` itself.
fn is_handed_this(capture: &Capture) -> bool
    ensures { result ≡ the_is_handed_this (capture_view capture.now) }
{
    capture.local.is_none() && capture.path.len() == 0
}

// Whether the enclosing instance of a new object is `this`.
fn is_enclosed(captures: &[Capture]) -> bool
    ensures { result ≡ the_is_enclosed (map capture_view captures.now) }
{
    for capture in captures {
        if is_handed_this(capture) {
            return true;
        }
    }
    false
}

/// Adds the places where `this` escapes in an expression.
#[cycle(walk)]
#[tactic(auto, using(je_core::proofs::Views::view_is))]
pub fn walk_expression(program: &Program, e: &Expr, found: &mut Found) -> Result<(), Memory>
    ensures { OnOk result (found.new ≡
        followed_by found.old (escapes (program_view program.now) (view e.now))) }
{
    walk_form(program, &e.form, e.span, e.at, found)
}

#[cycle(walk)]
fn walk_form(
    program: &Program,
    form: &Form,
    span: Span,
    at: Span,
    found: &mut Found,
) -> Result<(), Memory>
    ensures { OnOk result (found.new ≡
        followed_by found.old
        (form_escapes (program_view program.now) span at (form_view form.now))) }
{
    match form {
        Form::Const { .. } | Form::Text { .. } | Form::Local { .. } => Ok(()),
        Form::This => found.add(ConfinementRule::ThisEscapes, span),
        Form::Field { object, .. } => walk_object(program, object, found),
        Form::Static { object, .. } => walk_selected(program, true, object, found),
        Form::Update { place, operand, .. } => {
            walk_expression(program, place, found)?;
            walk_maybe(program, operand, found)
        }
        Form::Length { array: part }
        | Form::Unary { operand: part, .. }
        | Form::Convert { operand: part }
        | Form::Cast { operand: part }
        | Form::InstanceOf { operand: part, .. } => walk_expression(program, part, found),
        Form::Index {
            array: left,
            index: right,
        }
        | Form::Assign {
            place: left,
            value: right,
        }
        | Form::Binary { left, right, .. }
        | Form::And { left, right }
        | Form::Or { left, right }
        | Form::Concat { left, right } => {
            walk_expression(program, left, found)?;
            walk_expression(program, right, found)
        }
        Form::Choose { condition, yes, no } => {
            walk_expression(program, condition, found)?;
            walk_expression(program, yes, found)?;
            walk_expression(program, no, found)
        }
        Form::CallVirtual { receiver, args, .. } => {
            walk_expression(program, receiver, found)?;
            walk_all(program, args, found)
        }
        Form::CallExact {
            receiver,
            class,
            method,
            args,
        } => {
            let is_head = calls_constructor(program, *class, *method);
            walk_selected(program, is_head, receiver, found)?;
            walk_all(program, args, found)
        }
        Form::New { args, captures, .. } => {
            walk_all(program, args, found)?;
            found.add_where(is_enclosed(captures), ConfinementRule::ThisEscapes, at)
        }
        Form::NewArray { lengths: parts } | Form::ArrayOf { values: parts } => {
            walk_all(program, parts, found)
        }
    }
}

// The object of a field access, which `this` may be.
#[cycle(walk)]
fn walk_object(program: &Program, object: &Expr, found: &mut Found) -> Result<(), Memory>
    ensures { OnOk result (found.new ≡
        followed_by found.old (if the_is_this (view object.now) then none else
        escapes (program_view program.now) (view object.now))) }
{
    if is_this(object) {
        return Ok(());
    }
    walk_expression(program, object, found)
}

// What a member is selected from, and whether `this` may stand there.
#[cycle(walk)]
fn walk_selected(
    program: &Program,
    may_be_this: bool,
    object: &Option<Rc<Expr>>,
    found: &mut Found,
) -> Result<(), Memory>
    ensures { OnOk result (found.new ≡
        followed_by found.old (selected_escapes (program_view program.now) may_be_this
        (maybe_core (view_if object.now)))) }
{
    match object {
        None => Ok(()),
        Some(object) => {
            if may_be_this && is_this(object) {
                return Ok(());
            }
            walk_expression(program, object, found)
        }
    }
}

#[cycle(walk)]
fn walk_maybe(program: &Program, part: &Option<Rc<Expr>>, found: &mut Found) -> Result<(), Memory>
    ensures { OnOk result (found.new ≡
        followed_by found.old (maybe_escapes (program_view program.now)
        (maybe_core (view_if part.now)))) }
{
    match part {
        None => Ok(()),
        Some(part) => walk_expression(program, part, found),
    }
}

#[cycle(walk)]
fn walk_all(program: &Program, parts: &[Rc<Expr>], found: &mut Found) -> Result<(), Memory>
    ensures { OnOk result (found.new ≡
        followed_by found.old (all_escape (program_view program.now) (cores (views parts.now)))) }
{
    for part in parts {
        walk_expression(program, part, found)?;
    }
    Ok(())
}
