// A type in which a type variable is its bound, or the bound of that (JLS 4.4).

ghost use Rattle.std.specs.Prelude.{◌≡◌, IfOk};
ghost use Rattle.je_scopes.specs.SourceTypes.{of_variable};
ghost use Rattle.je_typing.specs.Castable.{bounded as the_bounded};
ghost use Rattle.name_types.specs.View.{shown};
ghost use Rattle.source_types.specs.Heads.{object_type};
ghost use Rattle.source_types.specs.Substitution.{array_over};
ghost use Rattle.source_subtypes.specs.View.{heads_of};

use je_base::Memory;
use je_classes::object_class;
use je_core::{Base, ClassId};
use name_types::{SrcBase, SrcTy};
use source_subtypes::{ClassHeads, copied};
use std::alloc::Global;

/// The bound of a type variable, under its dimensions; another type as it is.
#[tactic(auto, using(crate::proofs::Bounding::bounds))]
pub fn bounded(alloc: Global, heads: &ClassHeads, ty: &SrcTy) -> Result<SrcTy, Memory>
    ensures { IfOk result (λ t. shown t ≡ the_bounded (heads_of heads.now) (shown ty.now)) }
{
    match &ty.base {
        SrcBase::Plain(_) => copied(alloc, ty),
        SrcBase::Made(_, _) => copied(alloc, ty),
        SrcBase::Var(class, at) => bounded_variable(alloc, heads, *class, *at, ty.dims),
    }
}

// An array of so many dimensions over Object.
pub fn object_array(dims: u8) -> SrcTy
    ensures { shown result ≡ array_over object_type dims }
{
    SrcTy {
        base: SrcBase::Plain(Base::Class(object_class())),
        dims,
    }
}

// An array of so many dimensions over a type, of 255 at most.
fn array_over_type(alloc: Global, ty: &SrcTy, dims: u8) -> Result<SrcTy, Memory>
    ensures { IfOk result (λ t. shown t ≡ array_over (shown ty.now) dims) }
{
    let copy = copied(alloc, ty)?;
    Ok(SrcTy {
        base: copy.base,
        dims: copy.dims.saturating_add(dims),
    })
}

// An array of so many dimensions over a type variable, from bound to bound.
fn bounded_variable(
    alloc: Global,
    heads: &ClassHeads,
    class: ClassId,
    at: usize,
    dims: u8,
) -> Result<SrcTy, Memory>
    ensures { IfOk result (λ t. shown t ≡ the_bounded (heads_of heads.now)
        (of_variable class.0 at dims)) }
{
    let mut next = (class, at);
    let mut outer = dims;
    for _ in 0..heads.variable_count() {
        match heads.bound(next.0, next.1) {
            None => return Ok(object_array(outer)),
            Some(bound) => match &bound.base {
                SrcBase::Plain(_) => return array_over_type(alloc, bound, outer),
                SrcBase::Made(_, _) => return array_over_type(alloc, bound, outer),
                SrcBase::Var(class, at) => {
                    next = (*class, *at);
                    outer = bound.dims.saturating_add(outer);
                }
            },
        }
    }
    Ok(object_array(outer))
}
