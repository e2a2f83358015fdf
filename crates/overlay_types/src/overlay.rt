// The markers of classes and of types.

ghost use Rattle.std.specs.Prelude.{◌≡◌};
ghost use Rattle.je_types.specs.Views.{program_of};
ghost use Rattle.taming_db.specs.View.{rows};
ghost use Rattle.je_classes.specs.Hierarchy.{class_at};
ghost use Rattle.overlay_types.specs.Overlay as words;

use je_core::{Base, ClassId, Sort, Ty};
use je_table::LibraryClass;
use je_types::Typed;
use taming_db::{Marker, Taming};

// How many classes the library has.
const LIBRARY_CLASSES: u32 = 39;

/// A class of the library, by its number in a program.
pub fn of_library(class: LibraryClass) -> ClassId
    ensures { result ≡ words.of_library class }
{
    ClassId(class.number())
}

fn interface_of(marker: Marker) -> ClassId
    ensures { result ≡ words.interface_of marker }
{
    match marker {
        Marker::Immutable => of_library(LibraryClass::Immutable),
        Marker::Powerless => of_library(LibraryClass::Powerless),
        Marker::Selfless => of_library(LibraryClass::Selfless),
        Marker::Equatable => of_library(LibraryClass::Equatable),
    }
}

// Whether a class is, or is below, one that the taming text makes honorary in the marker.
fn is_honorary_by(typed: &Typed, taming: &Taming, marker: Marker, class: ClassId) -> bool
    ensures { result ≡
        words.is_honorary_by (program_of typed.now) (rows taming.now) marker class }
{
    (0..LIBRARY_CLASSES).any(|number| {
        taming.honorary(number as usize, marker) && typed.is_below(class, ClassId(number))
    })
}

fn is_enum(typed: &Typed, class: ClassId) -> bool
    ensures { result ≡ words.is_enum (class_at (program_of typed.now) class) }
{
    match typed.program().class(class) {
        None => false,
        Some(class) => matches!(class.kind.sort, Sort::Enum),
    }
}

fn goes_with_enums(marker: Marker) -> bool
    ensures { result ≡ words.goes_with_enums marker }
{
    match marker {
        Marker::Powerless | Marker::Equatable => true,
        Marker::Immutable | Marker::Selfless => false,
    }
}

#[tactic(auto, unfolding(crate::specs::Overlay::is_marked))]
fn is_marked(typed: &Typed, taming: &Taming, marker: Marker, class: ClassId) -> bool
    ensures { result ≡ words.is_marked (program_of typed.now) (rows taming.now) marker class }
{
    typed.is_below(class, interface_of(marker))
        || is_honorary_by(typed, taming, marker, class)
        || (goes_with_enums(marker) && is_enum(typed, class))
}

/// Whether a class has a marker: it is below the marker, or is or is below a class that the taming text makes honorary in it, or is an
/// enum and the marker is Powerless or Equatable. What has Powerless has Immutable.
pub fn class_has(typed: &Typed, taming: &Taming, marker: Marker, class: ClassId) -> bool
    ensures { result ≡ words.class_has (program_of typed.now) (rows taming.now) marker class }
{
    match marker {
        Marker::Immutable => {
            is_marked(typed, taming, Marker::Immutable, class)
                || is_marked(typed, taming, Marker::Powerless, class)
        }
        Marker::Powerless | Marker::Selfless | Marker::Equatable => {
            is_marked(typed, taming, marker, class)
        }
    }
}

fn has_by(typed: &Typed, taming: &Taming, marker: Marker, base: Base) -> bool
    ensures { result ≡ words.has_by (program_of typed.now) (rows taming.now) marker base 0 }
{
    match base {
        Base::Class(class) => class_has(typed, taming, marker, class),
        Base::Null => true,
        _ => false,
    }
}

/// Whether a type has a marker. An array type and a primitive one have none, and the type of `null` has all.
#[tactic(auto, unfolding(crate::specs::Overlay::has))]
pub fn has(typed: &Typed, taming: &Taming, ty: Ty, marker: Marker) -> bool
    ensures { result ≡ words.has (program_of typed.now) (rows taming.now) marker ty }
{
    if ty.dims > 0 {
        return false;
    }
    has_by(typed, taming, marker, ty.base)
}

/// Whether what a variable of a type holds keeps a marker's promise: the type is primitive, or has the marker.
pub fn holds(typed: &Typed, taming: &Taming, ty: Ty, marker: Marker) -> bool
    ensures { result ≡ words.holds (program_of typed.now) (rows taming.now) marker ty }
{
    !fit_parts::is_reference(ty) || has(typed, taming, ty, marker)
}

/// Whether a class is under Immutable: it has Immutable, or is an exception's.
#[tactic(auto, unfolding(crate::specs::Overlay::is_under_immutable))]
pub fn is_under_immutable(typed: &Typed, taming: &Taming, class: ClassId) -> bool
    ensures { result ≡ words.is_under_immutable (program_of typed.now) (rows taming.now) class }
{
    class_has(typed, taming, Marker::Immutable, class)
        || typed.is_below(class, of_library(LibraryClass::Throwable))
}
