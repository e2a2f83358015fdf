// What is asked of methods that override others.

ghost use Rattle.std.specs.Prelude.{◌≡◌, IfOk, codes, map};
ghost use Rattle.std.specs.List.{list_all, list_any};
ghost use Rattle.je_scopes.specs.SourceTypes.{no_source_types, of_class};
ghost use Rattle.name_types.specs.View.{shown};
ghost use Rattle.overriding.specs.Overrides as words;
ghost use Rattle.class_methods.specs.View.{method_seen};
ghost use Rattle.source_subtypes.specs.View.{heads_of};
ghost use Rattle.source_types.specs.Subtypes.{is_subtype as the_is_subtype};

use class_methods::{Method, is_subsignature, unbounded};
use je_base::Memory;
use je_core::{Access, Base, ClassId, Ty};
use je_table::LibraryClass;
use name_types::SrcTy;
use source_subtypes::{ClassHeads, is_same, is_subtype};
use std::alloc::Global;

fn rank(access: Access) -> u8
    ensures { result ≡ words.rank access }
{
    match access {
        Access::Public => 0,
        Access::Protected => 1,
        Access::Package => 2,
        Access::Private => 3,
        Access::Hidden => 4,
    }
}

// The type of a class that isn't generic.
fn class_type(class: ClassId) -> SrcTy
    ensures { shown result ≡ of_class class.0 no_source_types 0 }
{
    unbounded(Ty {
        base: Base::Class(class),
        dims: 0,
    })
}

#[tactic(auto, unfolding(je_classes::specs::Hierarchy::library_class))]
fn runtime_exception() -> SrcTy
    ensures { shown result ≡ words.named_type (codes "java.lang.RuntimeException") }
{
    class_type(ClassId(LibraryClass::RuntimeException.number()))
}

#[tactic(auto, unfolding(je_classes::specs::Hierarchy::library_class))]
fn error() -> SrcTy
    ensures { shown result ≡ words.named_type (codes "java.lang.Error") }
{
    class_type(ClassId(LibraryClass::Error.number()))
}

// Whether it is a checked exception (JLS 11.2).
fn is_checked(alloc: Global, heads: &ClassHeads, ty: &SrcTy) -> Result<bool, Memory>
    ensures { IfOk result (λ is_so. is_so ≡ words.is_checked (heads_of heads.now) (shown ty.now)) }
{
    if is_subtype(alloc, heads, ty, &runtime_exception())? {
        return Ok(false);
    }
    let is_error = is_subtype(alloc, heads, ty, &error())?;
    Ok(!is_error)
}

// Whether a type is below one of these.
fn is_below_one(
    alloc: Global,
    heads: &ClassHeads,
    types: &[SrcTy],
    ty: &SrcTy,
) -> Result<bool, Memory>
    ensures { IfOk result (λ is_so. is_so ≡ list_any
        (the_is_subtype (heads_of heads.now) (shown ty.now)) (map shown types.now)) }
{
    for at in 0..types.len() {
        if is_subtype(alloc, heads, ty, &types[at])? {
            return Ok(true);
        }
    }
    Ok(false)
}

fn may_throw(
    alloc: Global,
    heads: &ClassHeads,
    allowed: &[SrcTy],
    ty: &SrcTy,
) -> Result<bool, Memory>
    ensures { IfOk result (λ may. may ≡
        words.may_throw (heads_of heads.now) (map shown allowed.now) (shown ty.now)) }
{
    if !is_checked(alloc, heads, ty)? {
        return Ok(true);
    }
    let below = is_below_one(alloc, heads, allowed, ty)?;
    Ok(below)
}

fn may_throw_all(
    alloc: Global,
    heads: &ClassHeads,
    allowed: &[SrcTy],
    types: &[SrcTy],
) -> Result<bool, Memory>
    ensures { IfOk result (λ may. may ≡ list_all
        (words.may_throw (heads_of heads.now) (map shown allowed.now)) (map shown types.now)) }
{
    for at in 0..types.len() {
        if !may_throw(alloc, heads, allowed, &types[at])? {
            return Ok(false);
        }
    }
    Ok(true)
}

/// Whether a result is the other one, or below it.
pub fn is_result_for(
    alloc: Global,
    heads: &ClassHeads,
    ty: &SrcTy,
    other: &SrcTy,
) -> Result<bool, Memory>
    ensures { IfOk result (λ is_so. is_so ≡
        words.is_result_for (heads_of heads.now) (shown ty.now) (shown other.now)) }
{
    if is_same(ty, other) {
        return Ok(true);
    }
    let below = is_subtype(alloc, heads, ty, other)?;
    Ok(below)
}

// Whether what is said of a method lets it override another one, results and what is thrown aside.
fn may_stand_for(method: &Method, other: &Method) -> bool
    ensures { result ≡ words.may_stand_for (method_seen method.now) (method_seen other.now) }
{
    let flags = method.declared.flags;
    let theirs = other.declared.flags;
    !theirs.is_final
        && flags.is_static == theirs.is_static
        && rank(flags.access) <= rank(theirs.access)
}

/// Whether a method may override another one (JLS 8.4.5, 8.4.6, 8.4.8).
#[tactic(auto, unfolding(overriding::specs::Overrides::may_override))]
pub fn may_override(
    alloc: Global,
    heads: &ClassHeads,
    method: &Method,
    other: &Method,
) -> Result<bool, Memory>
    ensures { IfOk result (λ may. may ≡ words.may_override (heads_of heads.now)
        (method_seen method.now) (method_seen other.now)) }
{
    if !may_stand_for(method, other) {
        return Ok(false);
    }
    if !is_result_for(alloc, heads, &method.result, &other.result)? {
        return Ok(false);
    }
    let may = may_throw_all(alloc, heads, &other.throws, &method.throws)?;
    Ok(may)
}

fn overrides_well(
    alloc: Global,
    heads: &ClassHeads,
    method: &Method,
    other: &Method,
) -> Result<bool, Memory>
    ensures { IfOk result (λ well. well ≡ words.overrides_well (heads_of heads.now)
        (method_seen method.now) (method_seen other.now)) }
{
    if !is_subsignature(heads, method, other) {
        return Ok(true);
    }
    let may = may_override(alloc, heads, method, other)?;
    Ok(may)
}

/// Whether a method may override all of these that it does override.
pub fn overrides_all_well(
    alloc: Global,
    heads: &ClassHeads,
    method: &Method,
    others: &[Method],
) -> Result<bool, Memory>
    ensures { IfOk result (λ well. well ≡ list_all
        (words.overrides_well (heads_of heads.now) (method_seen method.now))
        (map method_seen others.now)) }
{
    for at in 0..others.len() {
        if !overrides_well(alloc, heads, method, &others[at])? {
            return Ok(false);
        }
    }
    Ok(true)
}
