// What the hidden fields of a new instance begin with (JLS 8.1.3, 15.9.2).

ghost use Rattle.std.specs.Prelude.{◌≡◌, IfOk, Some, map};
ghost use Rattle.std.specs.List.{list_all};
ghost use Rattle.je_core.specs.View.{capture_view, class_view, program_view};
ghost use Rattle.je_fitting.specs.Classes.{handed_count as the_handed_count};
ghost use Rattle.je_fitting.specs.Expressions.{handed_over};
ghost use Rattle.je_fitting.specs.way.Deciding.{same_pairs, leads_to as the_leads_to, capture_fits as the_capture_fits, captures_fit as the_captures_fit};
ghost use Rattle.fit_parts.specs.way.Handing.{filled, are_own as the_are_own, next_type as the_next_type};

use crate::agree::agrees;
use crate::body::{Body, begins_as};
use crate::types::class_type;
use class_members::{field_at, is_hidden, same_class};
use je_classes::{class_count, is_subtype};
use je_core::{Capture, Class, ClassId, Memory, Program, Ty};
use std::alloc::Global;

/// How many fields of a class hold its outer instance and captured locals.
pub fn handed_count(class: &Class) -> usize
    ensures { result ≡ the_handed_count (class_view class.now) }
{
    let captured = class.captured as usize;
    match class.enclosing {
        None => captured,
        Some(_) => 1 + captured,
    }
}

// Whether these fill the first fields of a class, in order.
fn are_own(captures: &[Capture], class: ClassId) -> bool
    ensures { result ≡ the_are_own class 0 (map capture_view captures.now) }
{
    for (at, capture) in captures.iter().enumerate() {
        if !same_class(capture.class, class) || capture.field as usize != at {
            return false;
        }
    }
    true
}

// Whether these fill the outer field and the captured ones of a class and of those above it, the highest class's first.
#[tactic(auto, using(crate::proofs::Handed::handing))]
fn are_handed(program: &Program, class: ClassId, captures: &[Capture]) -> bool
    ensures { result ≡ same_pairs (filled (map capture_view captures.now))
        (handed_over (program_view program.now) class) }
{
    let mut above = Some(class);
    let mut rest = captures;
    let mut left = class_count(program);
    while left > 0 {
        let Some(at) = above else {
            return rest.is_empty();
        };
        let Some(class) = program.class(at) else {
            return rest.is_empty();
        };
        let count = handed_count(class);
        if rest.len() < count {
            return false;
        }
        let (higher, own) = rest.split_at(rest.len() - count);
        if !are_own(own, at) {
            return false;
        }
        rest = higher;
        above = class.superclass;
        left -= 1;
    }
    rest.is_empty()
}

// The type of a hidden instance field of a class, where a value of a type has it.
fn next_type(
    alloc: Global,
    program: &Program,
    ty: Ty,
    step: (ClassId, u32),
) -> Result<Option<Ty>, Memory>
    ensures { IfOk result (λ next. next ≡ the_next_type (program_view program.now) ty step) }
{
    let Some(field) = field_at(program, step.0, step.1 as usize) else {
        return Ok(None);
    };
    if !is_subtype(alloc, program, ty, class_type(step.0))? {
        return Ok(None);
    }
    if field.is_static || !is_hidden(field) {
        return Ok(None);
    }
    Ok(Some(field.ty))
}

// The type to which a path of hidden fields leads from a type.
#[tactic(auto, using(crate::proofs::Handed::leads_on))]
fn leads_to(
    alloc: Global,
    program: &Program,
    from: Ty,
    path: &[(ClassId, u32)],
) -> Result<Option<Ty>, Memory>
    ensures { IfOk result
        (λ to. to ≡ the_leads_to (program_view program.now) (Some from) path.now) }
{
    let mut ty = from;
    for step in path {
        let Some(next) = next_type(alloc, program, ty, *step)? else {
            return Ok(None);
        };
        ty = next;
    }
    Ok(Some(ty))
}

// Whether the value that is handed over agrees with its field.
fn capture_fits(
    alloc: Global,
    program: &Program,
    body: &Body<'_>,
    capture: &Capture,
) -> Result<bool, Memory>
    ensures { IfOk result (λ fits. fits ≡
        the_capture_fits (program_view program.now) body.now (capture_view capture.now)) }
{
    let Some(from) = begins_as(body, capture.local) else {
        return Ok(false);
    };
    let Some(to) = leads_to(alloc, program, from, &capture.path)? else {
        return Ok(false);
    };
    let Some(field) = field_at(program, capture.class, capture.field as usize) else {
        return Ok(false);
    };
    agrees(alloc, program, to, field.ty)
}

fn each_fits(
    alloc: Global,
    program: &Program,
    body: &Body<'_>,
    captures: &[Capture],
) -> Result<bool, Memory>
    ensures { IfOk result (λ fit. fit ≡ list_all
        (the_capture_fits (program_view program.now) body.now) (map capture_view captures.now)) }
{
    for capture in captures {
        if !capture_fits(alloc, program, body, capture)? {
            return Ok(false);
        }
    }
    Ok(true)
}

/// Whether these are what the hidden fields of a new instance of a class begin with, those of the classes above it first.
pub fn captures_fit(
    alloc: Global,
    program: &Program,
    body: &Body<'_>,
    class: ClassId,
    captures: &[Capture],
) -> Result<bool, Memory>
    ensures { IfOk result (λ fit. fit ≡ the_captures_fit (program_view program.now) body.now class
        (map capture_view captures.now)) }
{
    if !are_handed(program, class, captures) {
        return Ok(false);
    }
    each_fits(alloc, program, body, captures)
}
