// The names of parts.

ghost use Rattle.std.specs.Prelude.{◌≡◌, Some};
ghost use Rattle.je_core.specs.View.{program_view};
ghost use Rattle.je_fitting.specs.way.Misfits.{first_misfit};
ghost use Rattle.fit_program.specs.Parts.{part_seen};
ghost use Rattle.je_types.specs.Checked.{name_of, IsFault};

use crate::fault::CheckFault;
use class_members::{field_at, method_at};
use fit_program::Part;
use je_core::{ClassId, NameId, Program};

// The name of a part of a class: the class's own, or the member's.
fn part_name(program: &Program, class: ClassId, part: Part) -> Option<NameId>
    ensures { result ≡ name_of (program_view program.now) class (part_seen part) }
{
    match part {
        Part::Itself => match program.class(class) {
            None => None,
            Some(class) => Some(class.name),
        },
        Part::Field(at) => match field_at(program, class, at) {
            None => None,
            Some(field) => Some(field.name),
        },
        Part::Method(at) => match method_at(program, class, at) {
            None => None,
            Some(method) => Some(method.name),
        },
    }
}

/// The fault of a program whose first misfit is this part.
#[tactic(auto, using(crate::proofs::Checking::checking))]
pub fn misfit(program: &Program, class: ClassId, part: Part) -> CheckFault
    requires { first_misfit (program_view program.now) ≡ Some (class, part_seen part) }
    ensures { IsFault (program_view program.now) result }
{
    match part_name(program, class, part) {
        Some(name) => CheckFault::Misfit(class, name),
        None => unreachable!(),
    }
}
