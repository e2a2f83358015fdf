// The method that a name and arguments choose in a class (JLS 15.12.2).

ghost use Rattle.std.specs.Prelude.{◌≡◌, IfOk};
ghost use Rattle.je_core.specs.View.{program_view};
ghost use Rattle.je_classes.specs.Hierarchy.{IsAcyclic};
ghost use Rattle.je_classes.specs.Methods.{find_method as the_find_method};
ghost use Rattle.member_lookup.specs.Founds.{found_seen};

use crate::candidates::{Call, candidates};
use crate::choice::chosen;
use class_lookup::classes_above;
use je_core::{ClassId, Memory, NameId, Program, Ty};
use member_lookup::Found;
use std::alloc::Global;

/// The method of a name that a class has and that is chosen for arguments of these types: none where none accepts them,
/// and several where none is the most specific.
#[tactic(auto, using(crate::proofs::MethodWays::method_is))]
pub fn find_method(
    alloc: Global,
    program: &Program,
    class: ClassId,
    name: NameId,
    types: &[Ty],
) -> Result<Found, Memory>
    requires { IsAcyclic (program_view program.now) }
    ensures { IfOk result (λ found. found_seen found ≡
        the_find_method (program_view program.now) class name types.now) }
{
    let above = classes_above(alloc, program, class)?;
    let call = Call {
        own: class,
        name,
        types,
    };
    let candidates = candidates(alloc, program, &call, &above)?;
    chosen(alloc, program, &candidates)
}
