// The breaks of expressions.

ghost use Rattle.std.specs.Prelude.{◌≡◌, OnOk};
ghost use Rattle.je_core.specs.Core.{cores, maybe_core};
ghost use Rattle.je_core.specs.View.{form_view, view, view_if, views};
ghost use Rattle.je_types.specs.Views.{program_of};
ghost use Rattle.rule_breaks.specs.way.Found.{followed_by};
ghost use Rattle.taming_db.specs.View.{rows};
ghost use Rattle.use_rules.specs.Expressions.{all_breaks, expression_breaks, maybe_breaks, parts_breaks, value_breaks};

use je_core::{Expr, Form, Memory};
use je_types::Typed;
use node_rules::judge_node;
use rule_breaks::Found;
use std::alloc::Global;
use std::rc::Rc;
use taming_db::Taming;

/// Adds the breaks of an expression.
#[cycle(walk)]
#[tactic(auto, using(je_core::proofs::Views::view_is))]
pub fn walk_expression(
    alloc: Global,
    typed: &Typed,
    taming: &Taming,
    e: &Expr,
    found: &mut Found,
) -> Result<(), Memory>
    ensures { OnOk result (found.new ≡
        followed_by found.old
        (expression_breaks (program_of typed.now) (rows taming.now) (view e.now))) }
{
    judge_node(alloc, typed, taming, e.at, &e.form, found)?;
    walk_parts(alloc, typed, taming, &e.form, found)
}

// Those of its parts.
#[cycle(walk)]
fn walk_parts(
    alloc: Global,
    typed: &Typed,
    taming: &Taming,
    form: &Form,
    found: &mut Found,
) -> Result<(), Memory>
    ensures { OnOk result (found.new ≡
        followed_by found.old
        (parts_breaks (program_of typed.now) (rows taming.now) (form_view form.now))) }
{
    match form {
        Form::Const { .. } | Form::Text { .. } | Form::Local { .. } | Form::This => Ok(()),
        Form::Static { object, .. } => walk_maybe(alloc, typed, taming, object, found),
        Form::Update { place, operand, .. } => {
            walk_expression(alloc, typed, taming, place, found)?;
            walk_maybe(alloc, typed, taming, operand, found)
        }
        Form::Field { object: part, .. }
        | Form::Length { array: part }
        | Form::Unary { operand: part, .. }
        | Form::Convert { operand: part }
        | Form::Cast { operand: part }
        | Form::InstanceOf { operand: part, .. } => {
            walk_expression(alloc, typed, taming, part, found)
        }
        Form::Index {
            array: left,
            index: right,
        }
        | Form::Assign {
            place: left,
            value: right,
        }
        | Form::Binary { left, right, .. }
        | Form::And { left, right }
        | Form::Or { left, right }
        | Form::Concat { left, right } => {
            walk_expression(alloc, typed, taming, left, found)?;
            walk_expression(alloc, typed, taming, right, found)
        }
        Form::Choose { condition, yes, no } => {
            walk_expression(alloc, typed, taming, condition, found)?;
            walk_expression(alloc, typed, taming, yes, found)?;
            walk_expression(alloc, typed, taming, no, found)
        }
        Form::CallVirtual { receiver, args, .. } => {
            walk_expression(alloc, typed, taming, receiver, found)?;
            walk_all(alloc, typed, taming, args, found)
        }
        Form::CallExact { receiver, args, .. } => {
            walk_maybe(alloc, typed, taming, receiver, found)?;
            walk_all(alloc, typed, taming, args, found)
        }
        Form::New { args: parts, .. }
        | Form::NewArray { lengths: parts }
        | Form::ArrayOf { values: parts } => walk_all(alloc, typed, taming, parts, found),
    }
}

#[cycle(walk)]
fn walk_maybe(
    alloc: Global,
    typed: &Typed,
    taming: &Taming,
    part: &Option<Rc<Expr>>,
    found: &mut Found,
) -> Result<(), Memory>
    ensures { OnOk result (found.new ≡
        followed_by found.old
        (maybe_breaks (program_of typed.now) (rows taming.now) (maybe_core (view_if part.now)))) }
{
    match part {
        None => Ok(()),
        Some(part) => walk_expression(alloc, typed, taming, part, found),
    }
}

#[cycle(walk)]
fn walk_all(
    alloc: Global,
    typed: &Typed,
    taming: &Taming,
    parts: &[Rc<Expr>],
    found: &mut Found,
) -> Result<(), Memory>
    ensures { OnOk result (found.new ≡
        followed_by found.old
        (all_breaks (program_of typed.now) (rows taming.now) (cores (views parts.now)))) }
{
    for part in parts {
        walk_expression(alloc, typed, taming, part, found)?;
    }
    Ok(())
}

/// Adds the breaks of a value, if there is one.
pub fn walk_value(
    alloc: Global,
    typed: &Typed,
    taming: &Taming,
    value: &Option<Rc<Expr>>,
    found: &mut Found,
) -> Result<(), Memory>
    ensures { OnOk result (found.new ≡
        followed_by found.old
        (value_breaks (program_of typed.now) (rows taming.now) (view_if value.now))) }
{
    match value {
        None => Ok(()),
        Some(value) => walk_expression(alloc, typed, taming, value, found),
    }
}
