// Type arguments put in for type variables.

ghost use Rattle.std.specs.Prelude.{◌≡◌, IfOk, map, option_map, slice_get};
ghost use Rattle.je_scopes.specs.SourceTypes.{of_variable};
ghost use Rattle.name_types.specs.View.{all_shown, base_shown, shown};
ghost use Rattle.source_types.specs.Substitution.{argument_at, array_over, substituted as the_substituted};

use crate::copying::copied;
use crate::dims::added_dims;
use je_base::Memory;
use je_core::ClassId;
use name_types::{SrcBase, SrcTy};
use std::alloc::Global;

/// Type arguments for the type parameters of a class, in order.
#[derive(Clone, Copy)]
pub struct Arguments<'a> {
    pub class: ClassId,
    pub types: &'a [SrcTy],
}

/// A type in which each type variable of a class is the type argument of its place (JLS 4.5). A variable without argument
/// stays; of more than 255 dimensions 255 count.
#[cycle(substitution)]
#[tactic(auto, using(name_types::proofs::Views::type_is))]
pub fn substituted(alloc: Global, arguments: Arguments, ty: &SrcTy) -> Result<SrcTy, Memory>
    ensures { IfOk result (λ t. shown t ≡
        the_substituted arguments.entry.class.0 (all_shown arguments.entry.types.now) (shown ty.now)) }
{
    substituted_base(alloc, arguments, &ty.base, ty.dims)
}

#[cycle(substitution)]
fn substituted_base(
    alloc: Global,
    arguments: Arguments,
    base: &SrcBase,
    dims: u8,
) -> Result<SrcTy, Memory>
    ensures { IfOk result (λ t. shown t ≡
        the_substituted arguments.entry.class.0 (all_shown arguments.entry.types.now) (base_shown base.now dims)) }
{
    match base {
        SrcBase::Plain(plain) => Ok(SrcTy {
            base: SrcBase::Plain(*plain),
            dims,
        }),
        SrcBase::Made(of, types) => Ok(SrcTy {
            base: SrcBase::Made(*of, all_substituted(alloc, arguments, types)?),
            dims,
        }),
        SrcBase::Var(of, at) => {
            let put = variable(alloc, arguments, *of, *at, dims)?;
            Ok(put)
        }
    }
}

/// The same of each of these types.
#[cycle(substitution)]
pub fn all_substituted(
    alloc: Global,
    arguments: Arguments,
    types: &[SrcTy],
) -> Result<Vec<SrcTy>, Memory>
    ensures { IfOk result (λ ts. map shown ts.items ≡
        map (the_substituted arguments.entry.class.0 (all_shown arguments.entry.types.now)) (map shown types.now)) }
{
    let mut all = Vec::new(alloc);
    for ty in types {
        all.push(substituted(alloc, arguments, ty)?)?;
    }
    Ok(all)
}

// What stands for a type variable under so many dimensions.
fn variable(
    alloc: Global,
    arguments: Arguments,
    of: ClassId,
    at: usize,
    dims: u8,
) -> Result<SrcTy, Memory>
    ensures { IfOk result (λ t. shown t ≡
        the_substituted arguments.entry.class.0 (all_shown arguments.entry.types.now) (of_variable of.0 at dims)) }
{
    if of.0 != arguments.class.0 {
        return Ok(the_variable(of, at, dims));
    }
    match argument(arguments.types, at) {
        Some(arg) => {
            let put = array_of(alloc, arg, dims)?;
            Ok(put)
        }
        None => Ok(the_variable(of, at, dims)),
    }
}

fn the_variable(class: ClassId, at: usize, dims: u8) -> SrcTy
    ensures { shown result ≡ of_variable class.0 at dims }
{
    SrcTy {
        base: SrcBase::Var(class, at),
        dims,
    }
}

/// The type argument at a place.
pub fn argument(args: &[SrcTy], at: usize) -> Option<&SrcTy>
    ensures { option_map (λ t. shown t.now) result ≡ argument_at (all_shown args.now) at }
{
    item(args, at)
}

fn item(types: &[SrcTy], at: usize) -> Option<&SrcTy>
    ensures { option_map (λ t. shown t.now) result ≡ slice_get (map shown types.now) at }
{
    types.get(at)
}

// An array of so many dimensions over a type.
fn array_of(alloc: Global, ty: &SrcTy, dims: u8) -> Result<SrcTy, Memory>
    ensures { IfOk result (λ t. shown t ≡ array_over (shown ty.now) dims) }
{
    let copy = copied(alloc, ty)?;
    Ok(SrcTy {
        base: copy.base,
        dims: added_dims(copy.dims, dims),
    })
}
