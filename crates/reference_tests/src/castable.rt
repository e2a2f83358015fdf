// Whether an object, or null, of one type may be of another one (JLS 5.5).

ghost use Rattle.std.specs.Prelude.{◌≡◌, ℕ, IfOk, map};
ghost use Rattle.std.specs.List.{list_any};
ghost use Rattle.je_classes.specs.Subtypes.{same_base as the_same_base};
ghost use Rattle.je_typing.specs.Castable.{is_above_arrays as the_is_above_arrays, is_of_class as the_is_of_class, may_be as the_may_be, may_be_bounded as the_may_be_bounded, may_be_class as the_may_be_class, may_be_element as the_may_be_element};
ghost use Rattle.name_types.specs.View.{plain_shown, shown};
ghost use Rattle.source_types.specs.Subtypes.{element_of as the_element_of, is_null as the_is_null, is_object as the_is_object};
ghost use Rattle.reference_tests.specs.way.Shapes.{base_in as the_base_in, may_be_bases as the_may_be_bases, may_share as the_may_share};
ghost use Rattle.source_subtypes.specs.View.{heads_of};

use crate::arguments::are_consistent;
use crate::bounds::{bounded, object_array};
use crate::classes::{class_in, may_meet};
use je_base::Memory;
use je_core::{Base, ClassId};
use name_types::{SrcBase, SrcTy};
use source_subtypes::{ClassHeads, copied, is_same, supertypes};
use std::alloc::Global;
use typed_nodes::{is_reference, null_ty};

/// Whether an object, or null, of one type may be of another one; only between references.
#[tactic(auto, unfolding(je_typing::specs::Castable::may_be))]
pub fn may_be(alloc: Global, heads: &ClassHeads, ty: &SrcTy, other: &SrcTy) -> Result<bool, Memory>
    ensures { IfOk result (λ may. may ≡ the_may_be (heads_of heads.now) (shown ty.now)
        (shown other.now)) }
{
    if !is_reference(ty) || !is_reference(other) {
        return Ok(false);
    }
    let from = bounded(alloc, heads, ty)?;
    let to = bounded(alloc, heads, other)?;
    may_be_bounded(alloc, heads, &from, &to)
}

// What a type is an array of, or the type itself.
fn flat(alloc: Global, ty: &SrcTy) -> Result<SrcTy, Memory>
    ensures element { IfOk result (λ t. shown t ≡ the_element_of (shown ty.now)) }
    ensures flat { IfOk result (λ t. t.dims ≡ 0) }
{
    let copy = copied(alloc, ty)?;
    Ok(SrcTy {
        base: copy.base,
        dims: 0,
    })
}

#[tactic(auto, using(crate::proofs::Shapes::null_is))]
fn is_null(ty: &SrcTy) -> bool
    requires { ty.now.dims ≡ 0 }
    ensures { result ≡ the_is_null (shown ty.now) }
{
    is_same(ty, &null_ty())
}

fn is_object(ty: &SrcTy) -> bool
    ensures { result ≡ the_is_object (shown ty.now) }
{
    is_same(ty, &object_array(0))
}

// Of two types that are no type variables.
#[tactic(auto, using(crate::proofs::Within::within))]
fn may_be_bounded(
    alloc: Global,
    heads: &ClassHeads,
    ty: &SrcTy,
    other: &SrcTy,
) -> Result<bool, Memory>
    ensures { IfOk result (λ may. may ≡
        the_may_be_bounded (heads_of heads.now) (shown ty.now) (shown other.now)) }
{
    let from = flat(alloc, ty)?;
    let to = flat(alloc, other)?;
    if ty.dims < other.dims {
        return Ok(is_above_arrays(&from));
    }
    if ty.dims > other.dims {
        return Ok(is_above_arrays(&to));
    }
    may_be_element(alloc, heads, &from, &to)
}

// What an array may be, and what may be an array.
fn is_above_arrays(ty: &SrcTy) -> bool
    requires { ty.now.dims ≡ 0 }
    ensures { result ≡ the_is_above_arrays (shown ty.now) }
{
    is_null(ty) || is_object(ty)
}

// Of two types without dimensions.
#[tactic(auto, using(crate::proofs::Shapes::shaped_is))]
fn may_be_element(
    alloc: Global,
    heads: &ClassHeads,
    ty: &SrcTy,
    other: &SrcTy,
) -> Result<bool, Memory>
    requires flat { ty.now.dims ≡ 0 }
    requires other_flat { other.now.dims ≡ 0 }
    ensures { IfOk result (λ may. may ≡
        the_may_be_element (heads_of heads.now) (shown ty.now) (shown other.now)) }
{
    match class_in(ty) {
        Some(class) => match class_in(other) {
            Some(to) => may_be_class(alloc, heads, class, ty, to, other),
            None => Ok(may_be_bases(ty, other)),
        },
        None => Ok(may_be_bases(ty, other)),
    }
}

fn unless_class(base: Base) -> Option<Base>
    ensures { (n : ℕ) → result ≡ the_base_in (plain_shown base n) }
{
    match base {
        Base::Class(_) => None,
        _ => Some(base),
    }
}

#[tactic(auto, using(crate::proofs::Shapes::shapes))]
fn base_in(ty: &SrcTy) -> Option<Base>
    ensures { result ≡ the_base_in (shown ty.now) }
{
    match &ty.base {
        SrcBase::Plain(plain) => unless_class(*plain),
        SrcBase::Made(_, _) => None,
        SrcBase::Var(_, _) => None,
    }
}

fn is_same_base(base: Base, other: Base) -> bool
    ensures { result ≡ the_same_base base other }
{
    base == other
}

// Of two that aren't both classes.
fn may_be_bases(ty: &SrcTy, other: &SrcTy) -> bool
    requires flat { ty.now.dims ≡ 0 }
    requires other_flat { other.now.dims ≡ 0 }
    ensures { result ≡ the_may_be_bases (shown ty.now) (shown other.now)
        (the_base_in (shown ty.now)) (the_base_in (shown other.now)) }
{
    match base_in(ty) {
        Some(base) => match base_in(other) {
            Some(to) => is_same_base(base, to),
            None => is_null(ty) || is_null(other),
        },
        None => is_null(ty) || is_null(other),
    }
}

// Whether an object may be of two classes, by the types above them; their type arguments aside.
fn may_share(
    heads: &ClassHeads,
    class: ClassId,
    ty: &SrcTy,
    above: &[SrcTy],
    other_class: ClassId,
    other: &SrcTy,
    above_other: &[SrcTy],
) -> bool
    ensures { result ≡ the_may_share (heads_of heads.now) class.0 (shown ty.now)
        (map shown above.now) other_class.0 (shown other.now) (map shown above_other.now) }
{
    is_object(ty)
        || is_object(other)
        || has_class(above, other_class)
        || has_class(above_other, class)
        || may_meet(heads, class, other_class)
}

// Of two classes.
#[tactic(auto, using(crate::proofs::Sets::sets))]
fn may_be_class(
    alloc: Global,
    heads: &ClassHeads,
    class: ClassId,
    ty: &SrcTy,
    other_class: ClassId,
    other: &SrcTy,
) -> Result<bool, Memory>
    ensures { IfOk result (λ may. may ≡ the_may_be_class (heads_of heads.now)
        class.0 (shown ty.now) other_class.0 (shown other.now)) }
{
    let above = supertypes(alloc, heads, ty)?;
    let above_other = supertypes(alloc, heads, other)?;
    if !may_share(heads, class, ty, &above, other_class, other, &above_other) {
        return Ok(false);
    }
    Ok(are_consistent(&above, &above_other))
}

#[tactic(auto, using(crate::proofs::Shapes::class_is))]
fn is_of_class(ty: &SrcTy, class: ClassId) -> bool
    ensures { result ≡ the_is_of_class class.0 (shown ty.now) }
{
    match class_in(ty) {
        Some(other) => other.0 == class.0,
        None => false,
    }
}

// Whether a type of a class is among these.
fn has_class(types: &[SrcTy], class: ClassId) -> bool
    ensures { result ≡ list_any (the_is_of_class class.0) (map shown types.now) }
{
    for ty in types {
        if is_of_class(ty, class) {
            return true;
        }
    }
    false
}
