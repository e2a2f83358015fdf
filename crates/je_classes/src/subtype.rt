// Which type is a subtype of which.

ghost use Rattle.std.specs.Prelude.{◌≡◌, IfOk};
ghost use Rattle.je_core.specs.View.{program_view};
ghost use Rattle.je_classes.specs.Hierarchy.{object_class as the_object_class};
ghost use Rattle.je_classes.specs.Subtypes.{is_object as the_is_object, is_null as the_is_null, same_base as the_same_base, is_base_below as the_is_base_below, is_subtype as the_is_subtype};

use crate::reach::is_below;
use je_core::{Base, ClassId, Memory, Program, Ty};
use je_table::LibraryClass;
use std::alloc::Global;

/// Object.
#[tactic(auto, unfolding(crate::specs::Hierarchy::library_class, crate::specs::Hierarchy::object_class))]
pub fn object_class() -> ClassId
    ensures { result ≡ the_object_class }
{
    ClassId(LibraryClass::Object.number())
}

fn is_object(base: Base) -> bool
    ensures { result ≡ the_is_object base }
{
    match base {
        Base::Class(class) => class.0 == object_class().0,
        _ => false,
    }
}

fn is_null(base: Base) -> bool
    ensures { result ≡ the_is_null base }
{
    match base {
        Base::Null => true,
        _ => false,
    }
}

fn same_base(a: Base, b: Base) -> bool
    ensures { result ≡ the_same_base a b }
{
    a == b
}

// Whether a base is below another one, neither of them with dimensions.
fn is_base_below(alloc: Global, program: &Program, a: Base, b: Base) -> Result<bool, Memory>
    ensures { IfOk result (λ below. below ≡ the_is_base_below (program_view program.now) a b) }
{
    match (a, b) {
        (Base::Class(c), Base::Class(d)) => {
            if d.0 == object_class().0 {
                return Ok(true);
            }
            is_below(alloc, program, c, d)
        }
        (Base::Null, Base::Class(_)) => Ok(true),
        (Base::Null, Base::Null) => Ok(true),
        _ => Ok(false),
    }
}

/// Whether the first type is a subtype of the second.
#[tactic(auto, using(crate::proofs::Dimensions::fewer, crate::proofs::Dimensions::more, crate::proofs::Dimensions::alike, crate::proofs::Dimensions::as_many, crate::proofs::Dimensions::bases))]
pub fn is_subtype(alloc: Global, program: &Program, s: Ty, t: Ty) -> Result<bool, Memory>
    ensures { IfOk result (λ below. below ≡ the_is_subtype (program_view program.now) s t) }
{
    if s.dims < t.dims {
        return Ok(is_null(s.base));
    }
    if s.dims > t.dims {
        return Ok(is_object(t.base));
    }
    if s.dims > 0 && same_base(s.base, t.base) {
        return Ok(true);
    }
    is_base_below(alloc, program, s.base, t.base)
}
