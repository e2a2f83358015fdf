// Subtypes.

ghost use Rattle.std.specs.Prelude.{◌≡◌, ◌&&◌, ◌||◌, true, IfOk};
ghost use Rattle.je_classes.specs.Subtypes as base_types;
ghost use Rattle.je_scopes.specs.SourceTypes.{same_source_type};
ghost use Rattle.name_types.specs.View.{base_shown, shown};
ghost use Rattle.source_types.specs.Subtypes.{element_of as the_element_of, is_element_below as the_is_element_below, is_null as the_is_null, is_object as the_is_object, is_reference as the_is_reference, is_subtype as the_is_subtype};
ghost use Rattle.source_subtypes.specs.View.{heads_of};

use crate::above::{has, supertypes};
use crate::copying::copied;
use crate::equality::{is_plain, is_same};
use crate::heads::ClassHeads;
use je_base::Memory;
use je_classes::object_class;
use je_core::Base;
use name_types::{SrcBase, SrcTy};
use std::alloc::Global;

/// Whether a type is a subtype of another one (JLS 4.10.2, 4.10.3). No primitive type is one.
pub fn is_subtype(
    alloc: Global,
    heads: &ClassHeads,
    ty: &SrcTy,
    other: &SrcTy,
) -> Result<bool, Memory>
    ensures { IfOk result (λ below. below ≡ the_is_subtype (heads_of heads.now) (shown ty.now)
        (shown other.now)) }
{
    if ty.dims < other.dims {
        return Ok(is_null(&ty.base));
    }
    if ty.dims > other.dims {
        return Ok(is_object(&other.base));
    }
    let element = element_of(alloc, ty)?;
    let above = element_of(alloc, other)?;
    if ty.dims > 0 {
        let component_below = is_component_below(alloc, heads, &element, &above)?;
        return Ok(component_below);
    }
    let element_below = is_element_below(alloc, heads, &element, &above)?;
    Ok(element_below)
}

// Whether a component of an array is the same as that of another one, or below it.
fn is_component_below(
    alloc: Global,
    heads: &ClassHeads,
    ty: &SrcTy,
    other: &SrcTy,
) -> Result<bool, Memory>
    requires flat { ty.now.dims ≡ 0 }
    requires other_flat { other.now.dims ≡ 0 }
    ensures { IfOk result (λ below. below ≡
        (the_is_element_below (heads_of heads.now) (shown ty.now) (shown other.now)
        || same_source_type (shown ty.now) (shown other.now))) }
{
    if is_same(ty, other) {
        return Ok(true);
    }
    let below = is_element_below(alloc, heads, ty, other)?;
    Ok(below)
}

// What a type is an array of, or the type itself.
fn element_of(alloc: Global, ty: &SrcTy) -> Result<SrcTy, Memory>
    ensures element { IfOk result (λ t. shown t ≡ the_element_of (shown ty.now)) }
    ensures flat { IfOk result (λ t. t.dims ≡ 0) }
{
    let copy = copied(alloc, ty)?;
    Ok(SrcTy {
        base: copy.base,
        dims: 0,
    })
}

fn is_null(base: &SrcBase) -> bool
    ensures { result ≡ the_is_null (base_shown base.now 0) }
{
    match base {
        SrcBase::Plain(base) => is_null_base(*base),
        SrcBase::Made(_, _) => false,
        SrcBase::Var(_, _) => false,
    }
}

fn is_null_base(base: Base) -> bool
    ensures { result ≡ base_types.is_null base }
{
    match base {
        Base::Null => true,
        _ => false,
    }
}

// Whether it is Object.
fn is_object(base: &SrcBase) -> bool
    ensures { result ≡ the_is_object (base_shown base.now 0) }
{
    is_plain(base, Base::Class(object_class()))
}

// A class, a type variable or the type of `null`.
fn is_reference(base: &SrcBase) -> bool
    ensures { result ≡ the_is_reference (base_shown base.now 0) }
{
    match base {
        SrcBase::Plain(base) => is_reference_base(*base),
        SrcBase::Made(_, _) => true,
        SrcBase::Var(_, _) => true,
    }
}

fn is_reference_base(base: Base) -> bool
    ensures { result ≡ base_types.is_reference_base base }
{
    match base {
        Base::Class(_) => true,
        Base::Null => true,
        _ => false,
    }
}

// Whether a type without dimensions is below another one.
fn is_element_below(
    alloc: Global,
    heads: &ClassHeads,
    ty: &SrcTy,
    other: &SrcTy,
) -> Result<bool, Memory>
    requires flat { ty.now.dims ≡ 0 }
    requires other_flat { other.now.dims ≡ 0 }
    ensures { IfOk result (λ below. below ≡
        the_is_element_below (heads_of heads.now) (shown ty.now) (shown other.now)) }
{
    if is_reference(&ty.base) {
        let below = is_reference_below(alloc, heads, ty, other)?;
        Ok(below)
    } else {
        Ok(false)
    }
}

// The same of a reference.
fn is_reference_below(
    alloc: Global,
    heads: &ClassHeads,
    ty: &SrcTy,
    other: &SrcTy,
) -> Result<bool, Memory>
    requires flat { ty.now.dims ≡ 0 }
    requires other_flat { other.now.dims ≡ 0 }
    requires reference { the_is_reference (base_shown ty.now.base 0) ≡ true }
    ensures { IfOk result (λ below. below ≡
        the_is_element_below (heads_of heads.now) (shown ty.now) (shown other.now)) }
{
    if is_object(&other.base) {
        return Ok(true);
    }
    if is_null_below(&ty.base, &other.base) {
        return Ok(true);
    }
    if is_same(ty, other) {
        return Ok(true);
    }
    let above = supertypes(alloc, heads, ty)?;
    let below = has(&above, other);
    Ok(below)
}

// The type of `null` is below each reference.
fn is_null_below(base: &SrcBase, other: &SrcBase) -> bool
    ensures { result ≡
        (the_is_null (base_shown base.now 0) && the_is_reference (base_shown other.now 0)) }
{
    is_null(base) && is_reference(other)
}
