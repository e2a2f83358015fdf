// The types directly above a type.

ghost use Rattle.std.specs.Prelude.{◌≡◌, IfOk, map};
ghost use Rattle.je_scopes.specs.SourceTypes.{of_class, of_variable};
ghost use Rattle.name_types.specs.View.{all_shown, base_shown, plain_shown, shown};
ghost use Rattle.source_subtypes.specs.View.{heads_of};
ghost use Rattle.source_types.specs.Supertypes.{directly_above as the_directly_above};

use je_base::Memory;
use je_core::{Base, ClassId};
use name_types::{SrcBase, SrcTy};
use source_subtypes::{Arguments, ClassHeads, all_substituted, copied, object};
use std::alloc::Global;

/// The types directly above a type: those that the header of its class names, with its type arguments put in, or the
/// bound of a type variable; none above an array (JLS 4.10.2).
#[tactic(auto, using(name_types::proofs::Views::type_is, crate::proofs::Objects::none_above))]
pub fn directly_above(alloc: Global, heads: &ClassHeads, ty: &SrcTy) -> Result<Vec<SrcTy>, Memory>
    ensures { IfOk result (λ ts. map shown ts.items ≡
        the_directly_above (heads_of heads.now) (shown ty.now)) }
{
    if ty.dims != 0 {
        return Ok(Vec::new(alloc));
    }
    above_base(alloc, heads, &ty.base)
}

#[tactic(auto, using(name_types::proofs::Views::base_is))]
fn above_base(alloc: Global, heads: &ClassHeads, base: &SrcBase) -> Result<Vec<SrcTy>, Memory>
    ensures { IfOk result (λ ts. map shown ts.items ≡
        the_directly_above (heads_of heads.now) (base_shown base.now 0)) }
{
    match base {
        SrcBase::Plain(plain) => above_plain(alloc, heads, *plain),
        SrcBase::Made(class, types) => above_class(
            alloc,
            heads,
            Arguments {
                class: *class,
                types,
            },
        ),
        SrcBase::Var(class, at) => above_variable(alloc, heads, *class, *at),
    }
}

fn above_plain(alloc: Global, heads: &ClassHeads, plain: Base) -> Result<Vec<SrcTy>, Memory>
    ensures { IfOk result (λ ts. map shown ts.items ≡
        the_directly_above (heads_of heads.now) (plain_shown plain 0)) }
{
    match plain {
        Base::Class(class) => above_class(alloc, heads, Arguments { class, types: &[] }),
        _ => Ok(Vec::new(alloc)),
    }
}

fn above_class(
    alloc: Global,
    heads: &ClassHeads,
    arguments: Arguments,
) -> Result<Vec<SrcTy>, Memory>
    ensures { IfOk result (λ ts. map shown ts.items ≡ the_directly_above (heads_of heads.now)
        (of_class arguments.entry.class.0 (all_shown arguments.entry.types.now) 0)) }
{
    all_substituted(alloc, arguments, heads.supers(arguments.class))
}

fn above_variable(
    alloc: Global,
    heads: &ClassHeads,
    class: ClassId,
    at: usize,
) -> Result<Vec<SrcTy>, Memory>
    ensures { IfOk result (λ ts. map shown ts.items ≡
        the_directly_above (heads_of heads.now) (of_variable class.0 at 0)) }
{
    let mut above = Vec::new(alloc);
    match heads.bound(class, at) {
        Some(bound) => above.push(copied(alloc, bound)?)?,
        None => above.push(object())?,
    }
    Ok(above)
}
