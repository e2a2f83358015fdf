// Copies of types.

ghost use Rattle.std.specs.Prelude.{◌≡◌, ℕ, IfOk, map};
ghost use Rattle.name_types.specs.View.{base_shown, shown};

use je_base::Memory;
use name_types::{SrcBase, SrcTy};
use std::alloc::Global;

/// The same type once more.
#[cycle(copying)]
#[tactic(auto, using(name_types::proofs::Views::type_is, name_types::proofs::Views::rolled_is))]
pub fn copied(alloc: Global, ty: &SrcTy) -> Result<SrcTy, Memory>
    ensures { IfOk result (λ t. shown t ≡ shown ty.now) }
{
    Ok(SrcTy {
        base: copied_base(alloc, &ty.base)?,
        dims: ty.dims,
    })
}

#[cycle(copying)]
#[tactic(auto, using(name_types::proofs::Views::base_is))]
fn copied_base(alloc: Global, base: &SrcBase) -> Result<SrcBase, Memory>
    ensures { IfOk result (λ b. (n : ℕ) → base_shown b n ≡ base_shown base.now n) }
{
    match base {
        SrcBase::Plain(plain) => Ok(SrcBase::Plain(*plain)),
        SrcBase::Made(class, args) => Ok(SrcBase::Made(*class, all_copied(alloc, args)?)),
        SrcBase::Var(class, at) => Ok(SrcBase::Var(*class, *at)),
    }
}

/// The same types once more.
#[cycle(copying)]
pub fn all_copied(alloc: Global, types: &[SrcTy]) -> Result<Vec<SrcTy>, Memory>
    ensures { IfOk result (λ ts. map shown ts.items ≡ map shown types.now) }
{
    let mut copies = Vec::new(alloc);
    for ty in types {
        copies.push(copied(alloc, ty)?)?;
    }
    Ok(copies)
}
