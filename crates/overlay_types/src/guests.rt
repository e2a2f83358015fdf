// The classes of a program's own.

ghost use Rattle.std.specs.Prelude.{◌≡◌, ◌<◌, ◌^◌, IfOk, length, map};
ghost use Rattle.je_core.specs.View.{class_view, field_view, program_view};
ghost use Rattle.je_classes.specs.Hierarchy.{class_at};
ghost use Rattle.je_types.specs.Views.{program_of};
ghost use Rattle.overlay_types.specs.Guests.{is_declared as the_is_declared, guest_superclasses as the_guest_superclasses, superclass_in};

use class_members::is_hidden;
use fit_members::is_guest;
use je_classes::class_count;
use je_core::{Class, ClassId, Field, Memory, Program};
use je_types::Typed;
use std::alloc::Global;

/// The classes of a program, by number; their numbers fit 31 bits.
#[tactic(auto, unfolding(je_core::specs::View::program_view))]
pub fn classes_of(typed: &Typed) -> &[Class]
    ensures classes { map class_view result.now ≡ (program_of typed.now).classes }
    ensures few { length result.now < 2 ^ 31 }
{
    &typed.program().classes
}

fn superclass_of(program: &Program, class: ClassId) -> Option<ClassId>
    ensures { result ≡ superclass_in (class_at (program_view program.now) class) }
{
    match program.class(class) {
        None => None,
        Some(class) => class.superclass,
    }
}

/// The superclasses of a class that are the program's own, the nearest first.
#[tactic(auto, using(crate::proofs::Upwards::upwards), unfolding(crate::specs::Guests::guest_superclasses))]
pub fn guest_superclasses(
    alloc: Global,
    program: &Program,
    class: &Class,
) -> Result<Vec<ClassId>, Memory>
    ensures { IfOk result (λ list. list.items ≡
        the_guest_superclasses (program_view program.now) (class_view class.now)) }
{
    let mut superclasses = Vec::new(alloc);
    let mut above = class.superclass;
    let mut left = class_count(program);
    while left > 0 {
        let Some(superclass) = above else {
            return Ok(superclasses);
        };
        if !is_guest(superclass) {
            return Ok(superclasses);
        }
        superclasses.push(superclass)?;
        above = superclass_of(program, superclass);
        left -= 1;
    }
    Ok(superclasses)
}

/// Whether a class declares a field as an instance field: hidden ones aren't in the source.
pub fn is_declared(field: &Field) -> bool
    ensures { result ≡ the_is_declared (field_view field.now) }
{
    !field.is_static && !is_hidden(field)
}
