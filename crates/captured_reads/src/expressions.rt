// A walk past expressions: fields of `this`, and the classes of bodies behind `new` (JLS 15.9.5).

ghost use Rattle.std.specs.Prelude.{◌≡◌, IfOk};
ghost use Rattle.je_core.specs.Core.{cores, maybe_core, form_of};
ghost use Rattle.je_core.specs.View.{view, form_view, views, view_if, program_view};
ghost use Rattle.captured_reads.specs.Walks as the;
ghost use Rattle.captured_reads.specs.View.{walk_view};

use crate::nesting::is_anonymous;
use crate::walks::{Around, Met, Walk, coming_to, place_class};
use je_core::{ClassId, Expr, Form, Memory, Span};
use std::alloc::Global;
use std::rc::Rc;

fn is_this(form: &Form) -> bool
    ensures { result ≡ the.is_this (form_view form.now) }
{
    matches!(form, Form::This)
}

#[tactic(auto, using(je_core::proofs::Views::view_is))]
fn past_field<'a>(
    walk: Walk<'a>,
    object: &Expr,
    class: ClassId,
    field: u32,
    span: Span,
) -> Result<Walk<'a>, Memory>
    ensures { IfOk result (λ w. walk_view w ≡
        the.past_field (form_of (view object.now)) class field span (walk_view walk.entry)) }
{
    if is_this(&object.form) {
        coming_to(walk, Met::Field { class, field, span })
    } else {
        Ok(walk)
    }
}

fn past_new<'a>(
    alloc: Global,
    around: &Around,
    walk: Walk<'a>,
    class: ClassId,
) -> Result<Walk<'a>, Memory>
    ensures { IfOk result (λ w. walk_view w ≡ the.past_new
        (program_view around.now.program.now) around.now.locals.now class (walk_view walk.entry)) }
{
    match around.program.class(class) {
        Some(found) if is_anonymous(found.kind.sort) => {
            let met = place_class(alloc, around, None, &walk.scope, class, found.span)?;
            coming_to(walk, met)
        }
        _ => Ok(walk),
    }
}

// Past an expression.
#[cycle(expressions)]
#[tactic(auto, using(je_core::proofs::Views::view_is))]
pub(crate) fn past<'a>(
    alloc: Global,
    around: &Around,
    walk: Walk<'a>,
    e: &Expr,
) -> Result<Walk<'a>, Memory>
    ensures { IfOk result (λ w. walk_view w ≡ the.past
        (program_view around.now.program.now) around.now.locals.now (walk_view walk.entry) (view e.now)) }
{
    past_form(alloc, around, e.span, walk, &e.form)
}

#[cycle(expressions)]
fn past_form<'a>(
    alloc: Global,
    around: &Around,
    span: Span,
    walk: Walk<'a>,
    form: &Form,
) -> Result<Walk<'a>, Memory>
    ensures { IfOk result (λ w. walk_view w ≡ the.past_form
        (program_view around.now.program.now) around.now.locals.now span (walk_view walk.entry) (form_view form.now)) }
{
    match form {
        Form::Const { .. } | Form::Text { .. } | Form::Local { .. } | Form::This => Ok(walk),
        Form::Field {
            object,
            class,
            field,
        } => {
            let walk = past(alloc, around, walk, object)?;
            past_field(walk, object, *class, *field, span)
        }
        Form::Static { object, .. } => past_maybe(alloc, around, walk, object),
        Form::Update { place, operand, .. } => {
            let walk = past(alloc, around, walk, place)?;
            past_maybe(alloc, around, walk, operand)
        }
        Form::Index {
            array: left,
            index: right,
        }
        | Form::Assign {
            place: left,
            value: right,
        }
        | Form::Binary { left, right, .. }
        | Form::And { left, right }
        | Form::Or { left, right }
        | Form::Concat { left, right } => {
            let walk = past(alloc, around, walk, left)?;
            past(alloc, around, walk, right)
        }
        Form::Choose { condition, yes, no } => {
            let walk = past(alloc, around, walk, condition)?;
            let walk = past(alloc, around, walk, yes)?;
            past(alloc, around, walk, no)
        }
        Form::Length { array: operand }
        | Form::Unary { operand, .. }
        | Form::Convert { operand }
        | Form::Cast { operand }
        | Form::InstanceOf { operand, .. } => past(alloc, around, walk, operand),
        Form::CallVirtual { receiver, args, .. } => {
            let walk = past(alloc, around, walk, receiver)?;
            past_all(alloc, around, walk, args)
        }
        Form::CallExact { receiver, args, .. } => {
            let walk = past_maybe(alloc, around, walk, receiver)?;
            past_all(alloc, around, walk, args)
        }
        Form::New { class, args, .. } => {
            let walk = past_all(alloc, around, walk, args)?;
            past_new(alloc, around, walk, *class)
        }
        Form::NewArray { lengths: parts } | Form::ArrayOf { values: parts } => {
            past_all(alloc, around, walk, parts)
        }
    }
}

#[cycle(expressions)]
pub(crate) fn past_all<'a>(
    alloc: Global,
    around: &Around,
    walk: Walk<'a>,
    parts: &[Rc<Expr>],
) -> Result<Walk<'a>, Memory>
    ensures { IfOk result (λ w. walk_view w ≡ the.past_all
        (program_view around.now.program.now) around.now.locals.now (walk_view walk.entry)
        (cores (views parts.now))) }
{
    let mut walk = walk;
    for part in parts {
        walk = past(alloc, around, walk, part)?;
    }
    Ok(walk)
}

#[cycle(expressions)]
fn past_maybe<'a>(
    alloc: Global,
    around: &Around,
    walk: Walk<'a>,
    part: &Option<Rc<Expr>>,
) -> Result<Walk<'a>, Memory>
    ensures { IfOk result (λ w. walk_view w ≡ the.past_maybe
        (program_view around.now.program.now) around.now.locals.now (walk_view walk.entry)
        (maybe_core (view_if part.now))) }
{
    match part {
        None => Ok(walk),
        Some(part) => past(alloc, around, walk, part),
    }
}
