// Types with members, and the superclass of a class (JLS 8.1.4, 15.11.1, 15.12).

ghost use Rattle.std.specs.Prelude.{◌≡◌, ℕ, IfOk, map};
ghost use Rattle.name_types.specs.View.{base_shown, plain_shown, shown};
ghost use Rattle.name_typing.specs.Accesses.{first_type as the_first_type, has_members as the_has_members, superclass_of as the_superclass_of};
ghost use Rattle.source_subtypes.specs.View.{heads_of};
ghost use Rattle.source_types.specs.Subtypes.{is_null as the_is_null};

use je_base::Memory;
use je_core::{Base, ClassId};
use name_types::{SrcBase, SrcTy};
use source_subtypes::{ClassHeads, copied, object};
use std::alloc::Global;
use typed_nodes::is_reference;

fn is_null_base(base: Base) -> bool
    ensures { (n : ℕ) → result ≡ the_is_null (plain_shown base n) }
{
    match base {
        Base::Null => true,
        _ => false,
    }
}

#[tactic(auto, using(name_types::proofs::Views::base_is))]
fn is_null_in(base: &SrcBase) -> bool
    ensures { (n : ℕ) → result ≡ the_is_null (base_shown base.now n) }
{
    match base {
        SrcBase::Plain(plain) => is_null_base(*plain),
        SrcBase::Made(_, _) => false,
        SrcBase::Var(_, _) => false,
    }
}

/// Whether values of a type have members: neither a primitive type has, nor that of `null`.
#[tactic(auto, using(name_types::proofs::Views::type_is))]
pub fn has_members(ty: &SrcTy) -> bool
    ensures { result ≡ the_has_members (shown ty.now) }
{
    is_reference(ty) && !is_null_in(&ty.base)
}

fn first_type(alloc: Global, types: &[SrcTy]) -> Result<SrcTy, Memory>
    ensures { IfOk result (λ t. shown t ≡ the_first_type (map shown types.now)) }
{
    match types {
        [first, ..] => copied(alloc, first),
        [] => Ok(object()),
    }
}

/// The superclass of a class, Object where it has none.
pub fn superclass_of(alloc: Global, heads: &ClassHeads, class: ClassId) -> Result<SrcTy, Memory>
    ensures { IfOk result (λ t. shown t ≡ the_superclass_of (heads_of heads.now) class.0) }
{
    first_type(alloc, heads.supers(class))
}
