// The variables that are assigned nowhere in an expression.

ghost use Rattle.std.specs.Prelude.{◌≡◌, IfOk};
ghost use Rattle.je_core.specs.Core.{cores, maybe_core};
ghost use Rattle.je_core.specs.View.{view, form_view, views, view_if};
ghost use Rattle.variable_sets.specs.SetView.{set_view};
ghost use Rattle.assigned_expressions.specs.Untouched.{without as the_without, untouched, untouched_in, all_untouched, maybe_untouched};

use crate::places::variable_of;
use je_core::{ClassId, Expr, Form, Memory};
use std::rc::Rc;
use variable_sets::Variables;

/// The variables of a set that are assigned nowhere in an expression.
#[cycle(expressions)]
#[tactic(auto, using(je_core::proofs::Views::view_is))]
pub fn without_assigned(
    home: Option<ClassId>,
    e: &Expr,
    set: Variables,
) -> Result<Variables, Memory>
    ensures { IfOk result (λ v. set_view v ≡ untouched home (set_view set) (view e.now)) }
{
    without_assigned_in(home, &e.form, set)
}

#[cycle(expressions)]
fn without_assigned_in(
    home: Option<ClassId>,
    form: &Form,
    set: Variables,
) -> Result<Variables, Memory>
    ensures { IfOk result (λ v. set_view v ≡
        untouched_in home (set_view set) (form_view form.now)) }
{
    match form {
        Form::Const { .. } | Form::Text { .. } | Form::Local { .. } | Form::This => Ok(set),
        Form::Static { object, .. } => without_maybe(home, object, set),
        Form::Assign { place, value } => {
            let rest = without_assigned(home, place, set)?;
            let rest = without_assigned(home, value, rest)?;
            without(variable_of(home, place), rest)
        }
        Form::Update { place, operand, .. } => {
            let rest = without_assigned(home, place, set)?;
            let rest = without_maybe(home, operand, rest)?;
            without(variable_of(home, place), rest)
        }
        Form::Index {
            array: left,
            index: right,
        }
        | Form::Binary { left, right, .. }
        | Form::And { left, right }
        | Form::Or { left, right }
        | Form::Concat { left, right } => {
            let rest = without_assigned(home, left, set)?;
            without_assigned(home, right, rest)
        }
        Form::Choose { condition, yes, no } => {
            let rest = without_assigned(home, condition, set)?;
            let rest = without_assigned(home, yes, rest)?;
            without_assigned(home, no, rest)
        }
        Form::Field {
            object: operand,
            ..
        }
        | Form::Length { array: operand }
        | Form::Unary { operand, .. }
        | Form::Convert { operand }
        | Form::Cast { operand }
        | Form::InstanceOf { operand, .. } => without_assigned(home, operand, set),
        Form::CallVirtual { receiver, args, .. } => {
            let rest = without_assigned(home, receiver, set)?;
            without_all(home, args, rest)
        }
        Form::CallExact { receiver, args, .. } => {
            let rest = without_maybe(home, receiver, set)?;
            without_all(home, args, rest)
        }
        Form::New { args: parts, .. }
        | Form::NewArray { lengths: parts }
        | Form::ArrayOf { values: parts } => without_all(home, parts, set),
    }
}

/// The variables of a set that are assigned nowhere in some expressions.
#[cycle(expressions)]
pub fn without_all(
    home: Option<ClassId>,
    parts: &[Rc<Expr>],
    set: Variables,
) -> Result<Variables, Memory>
    ensures { IfOk result (λ v. set_view v ≡
        all_untouched home (set_view set) (cores (views parts.now))) }
{
    let mut rest = set;
    for part in parts {
        rest = without_assigned(home, part, rest)?;
    }
    Ok(rest)
}

#[cycle(expressions)]
fn without_maybe(
    home: Option<ClassId>,
    part: &Option<Rc<Expr>>,
    set: Variables,
) -> Result<Variables, Memory>
    ensures { IfOk result (λ v. set_view v ≡
        maybe_untouched home (set_view set) (maybe_core (view_if part.now))) }
{
    match part {
        None => Ok(set),
        Some(part) => without_assigned(home, part, set),
    }
}

fn without(variable: Option<usize>, set: Variables) -> Result<Variables, Memory>
    ensures { IfOk result (λ v. set_view v ≡ the_without variable (set_view set)) }
{
    match variable {
        None => Ok(set),
        Some(variable) => {
            let mut rest = set;
            rest.remove(variable)?;
            Ok(rest)
        }
    }
}
