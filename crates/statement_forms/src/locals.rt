// Local variables of a body.

ghost use Rattle.std.specs.Prelude.{◌≡◌, IfOk, option_map};
ghost use Rattle.name_types.specs.View.{shown};
ghost use Rattle.body_typing.specs.Bodies.{local_of as the_local_of};
ghost use Rattle.body_places.specs.Places.{local_seen};
ghost use Rattle.body_places.specs.Tables.{constant_seen};

use body_places::{Constant, LocalVariable};
use je_base::{Memory, NameId};
use name_types::SrcTy;
use source_subtypes::copied;
use std::alloc::Global;

/// A local variable of a type.
pub fn local_of(
    alloc: Global,
    name: NameId,
    ty: &SrcTy,
    is_final: bool,
    number: u32,
    constant: Option<Constant>,
) -> Result<LocalVariable, Memory>
    ensures { IfOk result (λ v. local_seen v ≡ the_local_of name (shown ty.now) is_final number
        (option_map constant_seen constant)) }
{
    let ty = copied(alloc, ty)?;
    Ok(LocalVariable {
        name,
        ty,
        is_final,
        number,
        constant,
    })
}
