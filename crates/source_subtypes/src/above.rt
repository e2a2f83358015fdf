// The types above a type.

ghost use Rattle.std.specs.Prelude.{◌≡◌, ◌≤◌, IfOk, OnOk, drop, length, map};
ghost use Rattle.je_scopes.specs.SourceTypes.{of_class, of_variable};
ghost use Rattle.name_types.specs.View.{all_shown, plain_shown, shown};
ghost use Rattle.source_types.specs.Heads.{object_type};
ghost use Rattle.source_types.specs.Supertypes.{directly_above, has_type};
ghost use Rattle.source_types.specs.way.Reaching.{all_met, gone_up, with_type, with_types};
ghost use Rattle.source_subtypes.specs.Above.{HasTypesAbove};
ghost use Rattle.source_subtypes.specs.View.{heads_of};

use crate::copying::{all_copied, copied};
use crate::equality::is_same;
use crate::heads::ClassHeads;
use crate::substitution::{Arguments, substituted};
use je_base::Memory;
use je_classes::object_class;
use je_core::{Base, ClassId};
use name_types::{SrcBase, SrcTy};
use std::alloc::Global;

/// A type and all types above it by headers and bounds (JLS 4.10.2). Object is above each reference, also where it isn't
/// among these.
#[tactic(auto, using(source_types::proofs::Reaching::met_are_above))]
pub fn supertypes(alloc: Global, heads: &ClassHeads, ty: &SrcTy) -> Result<Vec<SrcTy>, Memory>
    ensures { IfOk result (λ above. HasTypesAbove (heads_of heads.now) (shown ty.now)
        (map shown above.items)) }
{
    let met = reached(alloc, heads, ty)?;
    Ok(met)
}

// All that are come by, each once, those that are fewer steps away first.
#[tactic(auto, unfolding(source_types::specs::way::Reaching::all_met))]
fn reached(alloc: Global, heads: &ClassHeads, ty: &SrcTy) -> Result<Vec<SrcTy>, Memory>
    ensures { IfOk result (λ met. map shown met.items ≡ all_met (heads_of heads.now)
        (shown ty.now)) }
{
    let mut met = Vec::new(alloc);
    met.push(copied(alloc, ty)?)?;
    let mut next = 0;
    for _ in 0..heads.most_steps() {
        let end = met.len();
        if next >= end {
            return Ok(met);
        }
        go_up(alloc, heads, &mut met, next)?;
        next = end;
    }
    Ok(met)
}

// Those directly above each that is met, from a place on, are met too.
fn go_up(alloc: Global, heads: &ClassHeads, met: &mut Vec<SrcTy>, from: usize) -> Result<(), Memory>
    requires { from ≤ length met.old.items }
    ensures { OnOk result (map shown met.new.items ≡
        gone_up (heads_of heads.now) (map shown met.old.items) (drop from (map shown met.old.items))) }
{
    let new = all_copied(alloc, &met[from..])?;
    for here in &new {
        add_above(alloc, heads, met, here)?;
    }
    Ok(())
}

// Those directly above a type are met.
fn add_above(
    alloc: Global,
    heads: &ClassHeads,
    met: &mut Vec<SrcTy>,
    here: &SrcTy,
) -> Result<(), Memory>
    ensures { OnOk result (map shown met.new.items ≡
        with_types (map shown met.old.items) (directly_above (heads_of heads.now) (shown here.now))) }
{
    if here.dims != 0 {
        return Ok(());
    }
    match &here.base {
        SrcBase::Plain(base) => add_above_base(alloc, heads, met, *base),
        SrcBase::Made(class, args) => add_supers(alloc, heads, met, *class, args),
        SrcBase::Var(class, at) => add_bound(alloc, heads, met, *class, *at),
    }
}

// Those directly above a class that isn't generic; none, above another base.
fn add_above_base(
    alloc: Global,
    heads: &ClassHeads,
    met: &mut Vec<SrcTy>,
    base: Base,
) -> Result<(), Memory>
    ensures { OnOk result (map shown met.new.items ≡
        with_types (map shown met.old.items) (directly_above (heads_of heads.now) (plain_shown base 0))) }
{
    match base {
        Base::Class(class) => add_supers(alloc, heads, met, class, &[]),
        _ => Ok(()),
    }
}

// The types above a class, with its type arguments put in.
fn add_supers(
    alloc: Global,
    heads: &ClassHeads,
    met: &mut Vec<SrcTy>,
    class: ClassId,
    args: &[SrcTy],
) -> Result<(), Memory>
    ensures { OnOk result (map shown met.new.items ≡ with_types (map shown met.old.items)
        (directly_above (heads_of heads.now) (of_class class.0 (all_shown args.now) 0))) }
{
    let arguments = Arguments { class, types: args };
    for above in heads.supers(class) {
        add(met, substituted(alloc, arguments, above)?)?;
    }
    Ok(())
}

// The bound of a type variable.
fn add_bound(
    alloc: Global,
    heads: &ClassHeads,
    met: &mut Vec<SrcTy>,
    class: ClassId,
    at: usize,
) -> Result<(), Memory>
    ensures { OnOk result (map shown met.new.items ≡ with_types (map shown met.old.items)
        (directly_above (heads_of heads.now) (of_variable class.0 at 0))) }
{
    match heads.bound(class, at) {
        Some(bound) => add(met, copied(alloc, bound)?),
        None => add(met, object()),
    }
}

/// Object.
pub fn object() -> SrcTy
    ensures { shown result ≡ object_type }
{
    SrcTy {
        base: SrcBase::Plain(Base::Class(object_class())),
        dims: 0,
    }
}

// One type more, unless it is there.
fn add(met: &mut Vec<SrcTy>, ty: SrcTy) -> Result<(), Memory>
    ensures { OnOk result (map shown met.new.items ≡ with_type (map shown met.old.items)
        (shown ty)) }
{
    if !has(met, &ty) {
        met.push(ty)?;
    }
    Ok(())
}

/// Whether a type is one of these.
pub fn has(types: &[SrcTy], ty: &SrcTy) -> bool
    ensures { result ≡ has_type (map shown types.now) (shown ty.now) }
{
    for other in types {
        if is_same(other, ty) {
            return true;
        }
    }
    false
}
