// What the objects of a class hold beside their declared fields.

ghost use Rattle.std.specs.Prelude.{◌≡◌, IfOk, drop, map, take};
ghost use Rattle.std.specs.List.{list_any};
ghost use Rattle.je_core.specs.View.{class_view, field_view};
ghost use Rattle.je_types.specs.Views.{program_of};
ghost use Rattle.taming_db.specs.View.{rows};
ghost use Rattle.je_classes.specs.Hierarchy.{class_at};
ghost use Rattle.je_fitting.specs.Expressions.{outer_count as the_outer_count};
ghost use Rattle.overlay_types.specs.Guests.{has_superclass_that, passes};
ghost use Rattle.inner_capture.specs.InnerCapture as words;

use je_core::{Class, ClassId, Field, Memory};
use je_types::Typed;
use overlay_types::{class_has, guest_superclasses, holds};
use std::alloc::Global;
use taming_db::{Marker, Taming};

fn outer_count(enclosing: Option<ClassId>) -> usize
    ensures { result ≡ the_outer_count enclosing }
{
    match enclosing {
        None => 0,
        Some(_) => 1,
    }
}

#[tactic(auto, unfolding(crate::specs::InnerCapture::is_other))]
fn is_other(typed: &Typed, taming: &Taming, marker: Marker, field: &Field) -> bool
    ensures { result ≡ words.is_other
        (program_of typed.now) (rows taming.now) marker (field_view field.now) }
{
    !holds(typed, taming, field.ty, marker)
}

// The fields past so many.
#[tactic(auto, using(std::proofs::lemmas::List::drop_all))]
fn past(fields: &[Field], count: usize) -> &[Field]
    ensures { result.now ≡ drop count fields.now }
{
    if count >= fields.len() {
        return &[];
    }
    &fields[count..]
}

// So many fields, or all where there are fewer.
#[tactic(auto, using(std::proofs::lemmas::List::take_all))]
fn first(fields: &[Field], count: usize) -> &[Field]
    ensures { result.now ≡ take count fields.now }
{
    if count >= fields.len() {
        return fields;
    }
    &fields[..count]
}

fn one_is_other(typed: &Typed, taming: &Taming, marker: Marker, fields: &[Field]) -> bool
    ensures { result ≡ list_any
        (words.is_other (program_of typed.now) (rows taming.now) marker)
        (map field_view fields.now) }
{
    for field in fields {
        if is_other(typed, taming, marker, field) {
            return true;
        }
    }
    false
}

/// Whether a class captures a local whose type is neither primitive nor has the marker.
pub fn captures_other(typed: &Typed, taming: &Taming, marker: Marker, class: &Class) -> bool
    ensures { result ≡ words.captures_other
        (program_of typed.now) (rows taming.now) marker (class_view class.now) }
{
    let behind = past(&class.fields, outer_count(class.enclosing));
    let captured = first(behind, class.captured as usize);
    one_is_other(typed, taming, marker, captured)
}

fn is_in_other(typed: &Typed, taming: &Taming, marker: Marker, class: &Class) -> bool
    ensures { result ≡ words.is_in_other
        (program_of typed.now) (rows taming.now) marker (class_view class.now) }
{
    match class.enclosing {
        None => false,
        Some(outer) => !class_has(typed, taming, marker, outer),
    }
}

fn is_class_in_other(typed: &Typed, taming: &Taming, marker: Marker, class: ClassId) -> bool
    ensures { result ≡ passes
        (words.is_in_other (program_of typed.now) (rows taming.now) marker)
        (class_at (program_of typed.now) class) }
{
    match typed.program().class(class) {
        None => false,
        Some(class) => is_in_other(typed, taming, marker, class),
    }
}

fn is_in_other_above(
    alloc: Global,
    typed: &Typed,
    taming: &Taming,
    marker: Marker,
    class: &Class,
) -> Result<bool, Memory>
    ensures { IfOk result (λ above. above ≡ has_superclass_that
        (words.is_in_other (program_of typed.now) (rows taming.now) marker)
        (program_of typed.now) (class_view class.now)) }
{
    let superclasses = guest_superclasses(alloc, typed.program(), class)?;
    for superclass in &superclasses {
        if is_class_in_other(typed, taming, marker, *superclass) {
            return Ok(true);
        }
    }
    Ok(false)
}

/// Whether the objects of a class, or of a superclass of the program's own, have one round them whose class doesn't have the marker.
pub fn holds_other(
    alloc: Global,
    typed: &Typed,
    taming: &Taming,
    marker: Marker,
    class: &Class,
) -> Result<bool, Memory>
    ensures { IfOk result (λ other. other ≡ words.holds_other
        (program_of typed.now) (rows taming.now) marker (class_view class.now)) }
{
    if is_in_other(typed, taming, marker, class) {
        return Ok(true);
    }
    is_in_other_above(alloc, typed, taming, marker, class)
}
