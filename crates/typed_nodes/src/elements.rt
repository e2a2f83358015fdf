// References, and the elements of arrays (JLS 4.3, 10.1).

ghost use Rattle.std.specs.Prelude.{◌≡◌, option_map};
ghost use Rattle.je_typing.specs.Typed.{element_type as the_element_type};
ghost use Rattle.name_types.specs.View.{shown};
ghost use Rattle.source_types.specs.Subtypes.{is_reference as the_is_reference};
ghost use Rattle.typed_nodes.specs.way.Plain.{is_reference_if as the_is_reference_if};

use crate::types::plain_of;
use je_core::Base;
use name_types::SrcTy;

fn is_reference_if(base: Option<Base>) -> bool
    ensures { result ≡ the_is_reference_if base }
{
    match base {
        None | Some(Base::Class(_) | Base::Null) => true,
        _ => false,
    }
}

/// Whether it is a class, a type variable, an array or the type of `null`.
#[tactic(auto, using(crate::proofs::Plain::reference_by_base))]
pub fn is_reference(ty: &SrcTy) -> bool
    ensures { result ≡ the_is_reference (shown ty.now) }
{
    is_reference_if(plain_of(ty))
}

/// The type of an array's elements; none of what is no array.
#[tactic(auto, using(name_types::proofs::Views::type_is, name_types::proofs::Views::rolled_is, crate::proofs::ElementTypes::elements))]
pub fn element_type(ty: SrcTy) -> Option<SrcTy>
    ensures { option_map shown result ≡ the_element_type (shown ty) }
{
    if ty.dims == 0 {
        return None;
    }
    Some(SrcTy {
        base: ty.base,
        dims: ty.dims - 1,
    })
}
