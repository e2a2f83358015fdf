// Two methods with one name and erasure.

ghost use Rattle.std.specs.Prelude.{◌≡◌, IfOk, IfErr, map};
ghost use Rattle.std.specs.List.{list_any};
ghost use Rattle.class_heads.specs.View.{classes_of};
ghost use Rattle.declarations.specs.View.{method_shown};
ghost use Rattle.je_typing.specs.Answers.{IsFault};
ghost use Rattle.je_typing.specs.Judged.{gives};
ghost use Rattle.name_types.specs.View.{shown};
ghost use Rattle.overriding.specs.Overrides as words;
ghost use Rattle.class_methods.specs.View.{method_seen};
ghost use Rattle.source_subtypes.specs.View.{heads_of};
ghost use Rattle.je_classes.specs.Subtypes.{same_types};
ghost use Rattle.source_types.specs.Erasure.{erased as the_erased};

use crate::implementing::implements;
use crate::overrides::is_result_for;
use class_heads::AllClasses;
use class_methods::{Method, are_same_types, is_same_method, overrides};
use declarations::MethodDecl;
use je_base::Memory;
use je_typing::{Refusal, TypeRule, check};
use name_types::SrcTy;
use source_subtypes::{ClassHeads, erased};
use std::alloc::Global;

/// Whether types are the same once erased.
pub fn are_same_erased(heads: &ClassHeads, types: &[SrcTy], others: &[SrcTy]) -> bool
    ensures { result ≡ same_types (map (the_erased (heads_of heads.now)) (map shown types.now))
        (map (the_erased (heads_of heads.now)) (map shown others.now)) }
{
    let mut left = others;
    for ty in types {
        let Some((first, rest)) = left.split_first() else {
            return false;
        };
        if erased(heads, ty) != erased(heads, first) {
            return false;
        }
        left = rest;
    }
    left.is_empty()
}

/// Whether two methods have one name, and the same parameters once erased.
pub fn have_one_erasure(heads: &ClassHeads, method: &MethodDecl, other: &MethodDecl) -> bool
    ensures { result ≡ words.have_one_erasure (heads_of heads.now) (method_shown method.now)
        (method_shown other.now) }
{
    method.name.name.0 == other.name.name.0
        && are_same_erased(heads, &method.parameters, &other.parameters)
}

// Whether both are abstract with the same parameters, and one may stand for the other.
fn are_alike(
    alloc: Global,
    heads: &ClassHeads,
    method: &Method,
    other: &Method,
) -> Result<bool, Memory>
    ensures { IfOk result (λ alike. alike ≡ words.are_alike (heads_of heads.now)
        (method_seen method.now) (method_seen other.now)) }
{
    if !are_abstract_alike(method, other) {
        return Ok(false);
    }
    if is_result_for(alloc, heads, &method.result, &other.result)? {
        return Ok(true);
    }
    let alike = is_result_for(alloc, heads, &other.result, &method.result)?;
    Ok(alike)
}

fn are_abstract_alike(method: &Method, other: &Method) -> bool
    ensures { result ≡ words.are_abstract_alike (method_seen method.now) (method_seen other.now) }
{
    method.is_abstract && other.is_abstract && are_same_types(&method.parameters, &other.parameters)
}

/// Whether one method overrides another one by the class that declares it, or implements it (JLS 8.4.8).
pub fn is_override(
    alloc: Global,
    heads: &ClassHeads,
    classes: AllClasses,
    method: &Method,
    other: &Method,
) -> Result<bool, Memory>
    ensures { IfOk result (λ is_so. is_so ≡ words.is_override (heads_of heads.now)
        (classes_of classes.entry) (method_seen method.now) (method_seen other.now)) }
{
    if overrides(alloc, heads, classes, method, other)? {
        return Ok(true);
    }
    Ok(implements(method, other))
}

// Whether they are two methods of one name and erasure.
fn may_clash(heads: &ClassHeads, method: &Method, other: &Method) -> bool
    ensures { result ≡ words.may_clash (heads_of heads.now) (method_seen method.now)
        (method_seen other.now) }
{
    have_one_erasure(heads, method.declared, other.declared) && !is_same_method(method, other)
}

fn clash(
    alloc: Global,
    heads: &ClassHeads,
    classes: AllClasses,
    method: &Method,
    other: &Method,
) -> Result<bool, Memory>
    ensures { IfOk result (λ does. does ≡ words.clash (heads_of heads.now)
        (classes_of classes.entry) (method_seen method.now) (method_seen other.now)) }
{
    if !may_clash(heads, method, other) {
        return Ok(false);
    }
    if is_override(alloc, heads, classes, method, other)? {
        return Ok(false);
    }
    if is_override(alloc, heads, classes, other, method)? {
        return Ok(false);
    }
    let alike = are_alike(alloc, heads, method, other)?;
    Ok(!alike)
}

// Whether a method clashes with one of these.
fn clashes(
    alloc: Global,
    heads: &ClassHeads,
    classes: AllClasses,
    methods: &[Method],
    method: &Method,
) -> Result<bool, Memory>
    ensures { IfOk result (λ does. does ≡ words.clashes (heads_of heads.now)
        (classes_of classes.entry) (map method_seen methods.now) (method_seen method.now)) }
{
    for at in 0..methods.len() {
        if clash(alloc, heads, classes, method, &methods[at])? {
            return Ok(true);
        }
    }
    Ok(false)
}

/// Whether two of these clash.
pub fn some_clash(
    alloc: Global,
    heads: &ClassHeads,
    classes: AllClasses,
    methods: &[Method],
) -> Result<bool, Memory>
    ensures { IfOk result (λ do_clash. do_clash ≡ words.some_clash (heads_of heads.now)
        (classes_of classes.entry) (map method_seen methods.now)) }
{
    for at in 0..methods.len() {
        if clashes(alloc, heads, classes, methods, &methods[at])? {
            return Ok(true);
        }
    }
    Ok(false)
}

// Whether one of these is a constructor with a constructor's erasure.
fn has_constructor(heads: &ClassHeads, earlier: &[MethodDecl], constructor: &MethodDecl) -> bool
    ensures { result ≡ words.has_constructor (heads_of heads.now) (map method_shown earlier.now)
        (method_shown constructor.now) }
{
    for at in 0..earlier.len() {
        if earlier[at].is_constructor && have_one_erasure(heads, constructor, &earlier[at]) {
            return true;
        }
    }
    false
}

/// Nothing where no constructor before one has its erasure, else SameErasure at its name (JLS 8.8.2).
#[tactic(auto, unfolding(overriding::specs::Overrides::no_constructor_clash))]
pub fn no_constructor_clash(
    heads: &ClassHeads,
    earlier: &[MethodDecl],
    constructor: &MethodDecl,
) -> Result<(), Refusal>
    ensures ok { IfOk result (λ done. words.no_constructor_clash (heads_of heads.now)
        (map method_shown earlier.now) (method_shown constructor.now) ≡ gives done) }
    ensures err { IfErr result (IsFault (words.no_constructor_clash (heads_of heads.now)
        (map method_shown earlier.now) (method_shown constructor.now))) }
{
    let has_one = has_constructor(heads, earlier, constructor);
    check(TypeRule::SameErasure, constructor.name.span, !has_one)
}
