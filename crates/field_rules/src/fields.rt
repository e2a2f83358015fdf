// The fields that immutable and powerless classes may not have.

ghost use Rattle.std.specs.Prelude.{◌≡◌, IfOk, map};
ghost use Rattle.std.specs.List.{list_any};
ghost use Rattle.je_core.specs.View.{class_view, field_view};
ghost use Rattle.je_types.specs.Views.{program_of};
ghost use Rattle.taming_db.specs.View.{rows};
ghost use Rattle.je_classes.specs.Hierarchy.{class_at};
ghost use Rattle.overlay_types.specs.Guests.{has_superclass_that, passes};
ghost use Rattle.field_rules.specs.FieldRules as words;

use je_core::{Class, ClassId, Field, Memory};
use je_types::Typed;
use overlay_types::{guest_superclasses, holds, is_declared};
use std::alloc::Global;
use taming_db::{Marker, Taming};

/// Whether a class under Immutable may not have a field: it isn't final, or its type is neither primitive nor immutable.
pub fn may_change(typed: &Typed, taming: &Taming, field: &Field) -> bool
    ensures { result ≡
        words.may_change (program_of typed.now) (rows taming.now) (field_view field.now) }
{
    is_declared(field) && (!field.is_final || !holds(typed, taming, field.ty, Marker::Immutable))
}

/// Whether a powerless class may not have a field: its type is neither primitive nor powerless.
pub fn may_grant(typed: &Typed, taming: &Taming, field: &Field) -> bool
    ensures { result ≡
        words.may_grant (program_of typed.now) (rows taming.now) (field_view field.now) }
{
    is_declared(field) && !holds(typed, taming, field.ty, Marker::Powerless)
}

fn one_may_change(typed: &Typed, taming: &Taming, fields: &[Field]) -> bool
    ensures { result ≡ list_any
        (words.may_change (program_of typed.now) (rows taming.now)) (map field_view fields.now) }
{
    for field in fields {
        if may_change(typed, taming, field) {
            return true;
        }
    }
    false
}

fn one_may_grant(typed: &Typed, taming: &Taming, fields: &[Field]) -> bool
    ensures { result ≡ list_any
        (words.may_grant (program_of typed.now) (rows taming.now)) (map field_view fields.now) }
{
    for field in fields {
        if may_grant(typed, taming, field) {
            return true;
        }
    }
    false
}

fn class_may_change(typed: &Typed, taming: &Taming, class: ClassId) -> bool
    ensures { result ≡
        passes (words.one_may_change (program_of typed.now) (rows taming.now))
        (class_at (program_of typed.now) class) }
{
    match typed.program().class(class) {
        None => false,
        Some(class) => one_may_change(typed, taming, &class.fields),
    }
}

fn class_may_grant(typed: &Typed, taming: &Taming, class: ClassId) -> bool
    ensures { result ≡
        passes (words.one_may_grant (program_of typed.now) (rows taming.now))
        (class_at (program_of typed.now) class) }
{
    match typed.program().class(class) {
        None => false,
        Some(class) => one_may_grant(typed, taming, &class.fields),
    }
}

/// Whether a class has a superclass of the program's own with a field that may change.
pub fn may_change_above(
    alloc: Global,
    typed: &Typed,
    taming: &Taming,
    class: &Class,
) -> Result<bool, Memory>
    ensures { IfOk result (λ above. above ≡ has_superclass_that
        (words.one_may_change (program_of typed.now) (rows taming.now))
        (program_of typed.now) (class_view class.now)) }
{
    let superclasses = guest_superclasses(alloc, typed.program(), class)?;
    for superclass in &superclasses {
        if class_may_change(typed, taming, *superclass) {
            return Ok(true);
        }
    }
    Ok(false)
}

/// Whether a class has a superclass of the program's own with a field that may grant something.
pub fn may_grant_above(
    alloc: Global,
    typed: &Typed,
    taming: &Taming,
    class: &Class,
) -> Result<bool, Memory>
    ensures { IfOk result (λ above. above ≡ has_superclass_that
        (words.one_may_grant (program_of typed.now) (rows taming.now))
        (program_of typed.now) (class_view class.now)) }
{
    let superclasses = guest_superclasses(alloc, typed.program(), class)?;
    for superclass in &superclasses {
        if class_may_grant(typed, taming, *superclass) {
            return Ok(true);
        }
    }
    Ok(false)
}
