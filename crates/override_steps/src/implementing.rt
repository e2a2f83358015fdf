// What is asked of the methods that a class inherits, and which have no body.

ghost use Rattle.std.specs.Prelude.{◌≡◌, ◌++◌, ◌||◌, IfOk, IfErr, map};
ghost use Rattle.std.specs.List.{list_all, list_any};
ghost use Rattle.je_scopes.specs.SourceTypes.{same_source_type};
ghost use Rattle.je_typing.specs.Answers.{IsFault};
ghost use Rattle.je_typing.specs.Judged.{gives, check as the_check};
ghost use Rattle.je_typing.specs.declared.fault.TypeRule.TheVariants as rule;
ghost use Rattle.name_types.specs.View.{shown};
ghost use Rattle.overriding.specs.Methods.{erasure as the_erasure};
ghost use Rattle.overriding.specs.Overrides as words;
ghost use Rattle.class_methods.specs.View.{method_seen};
ghost use Rattle.source_subtypes.specs.View.{heads_of};

use crate::overrides::{is_result_for, may_override};
use class_methods::{Method, erasure, have_one_signature, unbounded};
use je_base::{Memory, Span};
use je_core::Ty;
use je_typing::{Refusal, TypeRule, check};
use name_types::SrcTy;
use source_subtypes::{ClassHeads, erased, is_same, supertypes};
use std::alloc::Global;

/// Whether a method with a body stands for an abstract one of its signature.
pub fn implements(method: &Method, other: &Method) -> bool
    ensures { result ≡ words.implements (method_seen method.now) (method_seen other.now) }
{
    !method.is_abstract && other.is_abstract && have_one_signature(method, other)
}

// Whether a type is the erasure of one of these.
fn is_erasure_among(heads: &ClassHeads, types: &[SrcTy], ty: &SrcTy) -> bool
    ensures { result ≡ list_any (λ s. same_source_type (the_erasure (heads_of heads.now) s)
        (shown ty.now)) (map shown types.now) }
{
    for at in 0..types.len() {
        if is_same(&erasure(heads, &types[at]), ty) {
            return true;
        }
    }
    false
}

#[tactic(auto, using(class_methods::proofs::Sets::same_among_types))]
fn is_erased_below(
    alloc: Global,
    heads: &ClassHeads,
    ty: &SrcTy,
    other: &SrcTy,
) -> Result<bool, Memory>
    ensures { IfOk result (λ below. below ≡
        words.is_erased_below (heads_of heads.now) (shown ty.now) (shown other.now)) }
{
    let above = supertypes(alloc, heads, ty)?;
    let below = is_erasure_among(heads, &above, other);
    Ok(below)
}

// What a type of the core program is an array of, or the type itself.
fn element_of(ty: Ty) -> SrcTy
    ensures { shown result ≡ words.element_of_erased ty }
{
    unbounded(Ty {
        base: ty.base,
        dims: 0,
    })
}

// Whether one erased result is the other one, or below it.
fn is_erased_result_for(
    alloc: Global,
    heads: &ClassHeads,
    ty: &SrcTy,
    other: &SrcTy,
) -> Result<bool, Memory>
    ensures { IfOk result (λ is_so. is_so ≡
        words.is_erased_result_for (heads_of heads.now) (shown ty.now) (shown other.now)) }
{
    let mine = erased(heads, ty);
    let theirs = erased(heads, other);
    if is_result_for(alloc, heads, &unbounded(mine), &unbounded(theirs))? {
        return Ok(true);
    }
    if mine.dims != theirs.dims {
        return Ok(false);
    }
    let below = is_erased_below(alloc, heads, &element_of(mine), &element_of(theirs))?;
    Ok(below)
}

fn implements_well(
    alloc: Global,
    heads: &ClassHeads,
    method: &Method,
    other: &Method,
) -> Result<bool, Memory>
    ensures { IfOk result (λ well. well ≡ words.implements_well (heads_of heads.now)
        (method_seen method.now) (method_seen other.now)) }
{
    if !implements(method, other) {
        return Ok(true);
    }
    if !may_override(alloc, heads, method, other)? {
        return Ok(false);
    }
    let well = is_erased_result_for(
        alloc,
        heads,
        &method.declared.result,
        &other.declared.result,
    )?;
    Ok(well)
}

fn implements_all_well(
    alloc: Global,
    heads: &ClassHeads,
    method: &Method,
    others: &[Method],
) -> Result<bool, Memory>
    ensures { IfOk result (λ well. well ≡ list_all
        (words.implements_well (heads_of heads.now) (method_seen method.now))
        (map method_seen others.now)) }
{
    for at in 0..others.len() {
        if !implements_well(alloc, heads, method, &others[at])? {
            return Ok(false);
        }
    }
    Ok(true)
}

fn implement_well(alloc: Global, heads: &ClassHeads, methods: &[Method]) -> Result<bool, Memory>
    ensures { IfOk result (λ well. well ≡
        words.implement_well (heads_of heads.now) (map method_seen methods.now)) }
{
    for at in 0..methods.len() {
        if !implements_all_well(alloc, heads, &methods[at], methods)? {
            return Ok(false);
        }
    }
    Ok(true)
}

/// Nothing where each method with a body that a class inherits may stand for the abstract ones of its signature that the class
/// inherits too, else BadOverride at the class (JLS 8.4.8).
#[tactic(auto, using(je_typing::proofs::Walks::walks))]
pub fn good_implementations(
    alloc: Global,
    heads: &ClassHeads,
    inherited: &[Method],
    span: Span,
) -> Result<(), Refusal>
    ensures ok { IfOk result (λ done. the_check rule.BadOverride span
        (words.implement_well (heads_of heads.now) (map method_seen inherited.now)) ≡ gives done) }
    ensures err { IfErr result (IsFault (the_check rule.BadOverride span
        (words.implement_well (heads_of heads.now) (map method_seen inherited.now)))) }
{
    let holds = implement_well(alloc, heads, inherited)?;
    check(TypeRule::BadOverride, span, holds)
}

fn is_implemented_among(methods: &[Method], other: &Method) -> bool
    ensures { result ≡ list_any (λ m. words.implements m (method_seen other.now))
        (map method_seen methods.now) }
{
    for at in 0..methods.len() {
        if implements(&methods[at], other) {
            return true;
        }
    }
    false
}

// Of the methods that a class declares and inherits.
#[tactic(auto, using(class_methods::proofs::Lists::appended))]
fn is_left_abstract(own: &[Method], inherited: &[Method], other: &Method) -> bool
    ensures { result ≡ words.is_left_abstract
        (map method_seen own.now ++ map method_seen inherited.now) (method_seen other.now) }
{
    other.is_abstract
        && !(is_implemented_among(own, other) || is_implemented_among(inherited, other))
}

// Whether one of some methods is left without a body.
fn some_left(own: &[Method], inherited: &[Method], methods: &[Method]) -> bool
    ensures { result ≡ list_any (words.is_left_abstract
        (map method_seen own.now ++ map method_seen inherited.now)) (map method_seen methods.now) }
{
    for at in 0..methods.len() {
        if is_left_abstract(own, inherited, &methods[at]) {
            return true;
        }
    }
    false
}

#[tactic(auto, using(class_methods::proofs::Lists::appended))]
fn are_implemented(own: &[Method], inherited: &[Method]) -> bool
    ensures { result ≡ words.are_implemented
        (map method_seen own.now ++ map method_seen inherited.now) }
{
    !(some_left(own, inherited, own) || some_left(own, inherited, inherited))
}

/// Nothing where a class is abstract, or has a body for each method that it declares or inherits. Else NotAbstract at the
/// class (JLS 8.1.1.1).
pub fn all_implemented(
    is_abstract: bool,
    own: &[Method],
    inherited: &[Method],
    span: Span,
) -> Result<(), Refusal>
    ensures ok { IfOk result (λ done. the_check rule.NotAbstract span
        (is_abstract || words.are_implemented
        (map method_seen own.now ++ map method_seen inherited.now)) ≡ gives done) }
    ensures err { IfErr result (IsFault (the_check rule.NotAbstract span
        (is_abstract || words.are_implemented
        (map method_seen own.now ++ map method_seen inherited.now)))) }
{
    let holds = is_abstract || are_implemented(own, inherited);
    check(TypeRule::NotAbstract, span, holds)
}
