// Erasure.

ghost use Rattle.std.specs.Prelude.{◌≡◌};
ghost use Rattle.je_scopes.specs.SourceTypes.{of_variable};
ghost use Rattle.name_types.specs.View.{shown};
ghost use Rattle.source_types.specs.Erasure.{erased as the_erased, erased_array as the_erased_array, type as type_of};
ghost use Rattle.source_subtypes.specs.View.{heads_of};

use crate::dims::added_dims;
use crate::heads::ClassHeads;
use je_classes::object_class;
use je_core::{Base, ClassId, Ty};
use name_types::{SrcBase, SrcTy};

/// A type without its type arguments, in which a type variable is its bound, erased (JLS 4.6).
pub fn erased(heads: &ClassHeads, ty: &SrcTy) -> Ty
    ensures { result ≡ the_erased (heads_of heads.now) (shown ty.now) }
{
    match &ty.base {
        SrcBase::Plain(base) => Ty {
            base: *base,
            dims: ty.dims,
        },
        SrcBase::Made(class, _) => Ty {
            base: Base::Class(*class),
            dims: ty.dims,
        },
        SrcBase::Var(class, at) => erased_variable(heads, *class, *at, ty.dims),
    }
}

// An array of so many dimensions over a type variable, from bound to bound.
fn erased_variable(heads: &ClassHeads, class: ClassId, at: usize, dims: u8) -> Ty
    ensures { result ≡ the_erased (heads_of heads.now) (of_variable class.0 at dims) }
{
    let mut next = (class, at);
    let mut outer = dims;
    for _ in 0..heads.variable_count() {
        match heads.bound(next.0, next.1) {
            None => return erased_array(Base::Class(object_class()), 0, outer),
            Some(bound) => match &bound.base {
                SrcBase::Plain(base) => return erased_array(*base, bound.dims, outer),
                SrcBase::Made(class, _) => {
                    return erased_array(Base::Class(*class), bound.dims, outer);
                }
                SrcBase::Var(class, at) => {
                    next = (*class, *at);
                    outer = added_dims(bound.dims, outer);
                }
            },
        }
    }
    Ty {
        base: Base::Class(object_class()),
        dims: outer,
    }
}

// So many dimensions over an array.
fn erased_array(base: Base, dims: u8, outer: u8) -> Ty
    ensures { result ≡ the_erased_array (type_of base dims) outer }
{
    Ty {
        base,
        dims: added_dims(dims, outer),
    }
}
