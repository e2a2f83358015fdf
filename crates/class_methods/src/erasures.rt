// Types once erased, as types of a source.

ghost use Rattle.std.specs.Prelude.{◌≡◌};
ghost use Rattle.name_types.specs.View.{shown};
ghost use Rattle.overriding.specs.Methods as words;
ghost use Rattle.source_subtypes.specs.View.{heads_of};

use je_core::Ty;
use name_types::{SrcBase, SrcTy};
use source_subtypes::{ClassHeads, erased};

/// A type of the core program, as a type of a source without type arguments.
pub fn unbounded(ty: Ty) -> SrcTy
    ensures { shown result ≡ words.unbounded ty.base ty.dims }
{
    SrcTy {
        base: SrcBase::Plain(ty.base),
        dims: ty.dims,
    }
}

/// A type once erased.
pub fn erasure(heads: &ClassHeads, ty: &SrcTy) -> SrcTy
    ensures { shown result ≡ words.erasure (heads_of heads.now) (shown ty.now) }
{
    unbounded(erased(heads, ty))
}
