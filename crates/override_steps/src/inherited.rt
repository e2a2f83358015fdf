// What a class inherits, one method against another one.

ghost use Rattle.std.specs.Prelude.{◌≡◌, ◌&&◌, ◌||◌, IfErr, IfOk, map, not};
ghost use Rattle.std.specs.List.{list_any};
ghost use Rattle.class_heads.specs.View.{classes_of};
ghost use Rattle.je_typing.specs.Answers.{IsFault};
ghost use Rattle.je_typing.specs.Judged.{gives, check as the_check};
ghost use Rattle.je_typing.specs.declared.fault.TypeRule.TheVariants as rule;
ghost use Rattle.overriding.specs.Methods as method_words;
ghost use Rattle.overriding.specs.Overrides as words;
ghost use Rattle.class_methods.specs.View.{method_seen};
ghost use Rattle.source_subtypes.specs.View.{heads_of};

use crate::above::takes_erasure;
use crate::clashing::some_clash;
use class_heads::AllClasses;
use class_methods::{Method, have_one_name, is_subsignature, methods_above, overrides, own_method};
use je_base::{Memory, Span};
use je_core::ClassId;
use je_typing::{Refusal, TypeRule, check};
use source_subtypes::ClassHeads;
use std::alloc::Global;

// Whether one of these has a method's name, and the method's signature isn't its own nor its erasure.
fn has_overload(heads: &ClassHeads, above: &[Method], method: &Method) -> bool
    ensures { result ≡ list_any (λ n. method_words.have_one_name (method_seen method.now) n
        && not (method_words.is_subsignature (heads_of heads.now) (method_seen method.now) n))
        (map method_seen above.now) }
{
    for at in 0..above.len() {
        if have_one_name(method, &above[at]) && !is_subsignature(heads, method, &above[at]) {
            return true;
        }
    }
    false
}

fn is_related(
    alloc: Global,
    heads: &ClassHeads,
    classes: AllClasses,
    method: &Method,
    other: &Method,
) -> Result<bool, Memory>
    ensures { IfOk result (λ is_so. is_so ≡
        (method_words.overrides (heads_of heads.now) (classes_of classes.entry)
        (method_seen method.now) (method_seen other.now)
        || method_words.overrides (heads_of heads.now) (classes_of classes.entry)
        (method_seen other.now) (method_seen method.now))) }
{
    if overrides(alloc, heads, classes, method, other)? {
        return Ok(true);
    }
    let is_so = overrides(alloc, heads, classes, other, method)?;
    Ok(is_so)
}

// Against a method above, where a method as its class sees it is `own`, with those above that class.
fn takes_unrelated<'a>(
    alloc: Global,
    heads: &ClassHeads,
    classes: AllClasses,
    own_above: &[Method],
    own: &Method<'a>,
    method: &Method<'a>,
    other: &Method,
) -> Result<bool, Memory>
    ensures { IfOk result (λ does. does ≡ words.takes_unrelated (heads_of heads.now)
        (classes_of classes.entry) (words.overridden_of (heads_of heads.now)
        (method_seen own.now) (map method_seen own_above.now))
        (method_seen method.now) (method_seen other.now)) }
{
    if !takes_erasure(heads, own_above, own, method, other) {
        return Ok(false);
    }
    let related = is_related(alloc, heads, classes, method, other)?;
    Ok(!related)
}

fn takes_one_of<'a>(
    alloc: Global,
    heads: &ClassHeads,
    classes: AllClasses,
    own_above: &[Method],
    own: &Method<'a>,
    method: &Method<'a>,
    above: &[Method],
) -> Result<bool, Memory>
    ensures { IfOk result (λ does. does ≡ list_any (words.takes_unrelated (heads_of heads.now)
        (classes_of classes.entry) (words.overridden_of (heads_of heads.now)
        (method_seen own.now) (map method_seen own_above.now))
        (method_seen method.now)) (map method_seen above.now)) }
{
    for at in 0..above.len() {
        if takes_unrelated(alloc, heads, classes, own_above, own, method, &above[at])? {
            return Ok(true);
        }
    }
    Ok(false)
}

// What stands above the method's own class is looked up once, and only where there is an overload.
#[tactic(auto, using(crate::proofs::MethodsAbove::no_overload, crate::proofs::MethodsAbove::same_overridden))]
fn clashes_with_one(
    alloc: Global,
    heads: &ClassHeads,
    classes: AllClasses,
    above: &[Method],
    method: &Method,
) -> Result<bool, Memory>
    ensures { IfOk result (λ does. does ≡ list_any (words.clash_above (heads_of heads.now)
        (classes_of classes.entry) (method_seen method.now)) (map method_seen above.now)) }
{
    if !has_overload(heads, above, method) {
        return Ok(false);
    }
    let own = own_method(alloc, method.holder, method.place, method.declared)?;
    let own_above = methods_above(alloc, heads, classes, method.holder)?;
    let does = takes_one_of(alloc, heads, classes, &own_above, &own, method, above)?;
    Ok(does)
}

fn some_clash_above(
    alloc: Global,
    heads: &ClassHeads,
    classes: AllClasses,
    above: &[Method],
    methods: &[Method],
) -> Result<bool, Memory>
    ensures { IfOk result (λ do_clash. do_clash ≡ words.some_clash_above (heads_of heads.now)
        (classes_of classes.entry) (map method_seen above.now) (map method_seen methods.now)) }
{
    for at in 0..methods.len() {
        if clashes_with_one(alloc, heads, classes, above, &methods[at])? {
            return Ok(true);
        }
    }
    Ok(false)
}

#[tactic(auto, using(crate::proofs::MethodsAbove::same_clashes))]
fn inherits_clash(
    alloc: Global,
    heads: &ClassHeads,
    classes: AllClasses,
    class: ClassId,
    inherited: &[Method],
) -> Result<bool, Memory>
    ensures { IfOk result (λ does. does ≡
        (words.some_clash (heads_of heads.now) (classes_of classes.entry)
        (map method_seen inherited.now)
        || words.some_clash_above (heads_of heads.now) (classes_of classes.entry)
        (method_words.methods_above (heads_of heads.now) (classes_of classes.entry) class.0)
        (map method_seen inherited.now))) }
{
    if some_clash(alloc, heads, classes, inherited)? {
        return Ok(true);
    }
    let above = methods_above(alloc, heads, classes, class)?;
    let does = some_clash_above(alloc, heads, classes, &above, inherited)?;
    Ok(does)
}

/// Nothing where no two methods that a class inherits clash, nor one of them and one that a class above declares; else
/// SameErasure at the class (JLS 8.4.8.3).
#[tactic(auto, using(je_typing::proofs::Walks::walks))]
pub fn no_inherited_clash(
    alloc: Global,
    heads: &ClassHeads,
    classes: AllClasses,
    class: ClassId,
    inherited: &[Method],
    span: Span,
) -> Result<(), Refusal>
    ensures ok { IfOk result (λ done. the_check rule.SameErasure span
        (not (words.some_clash (heads_of heads.now) (classes_of classes.entry)
        (map method_seen inherited.now)
        || words.some_clash_above (heads_of heads.now) (classes_of classes.entry)
        (method_words.methods_above (heads_of heads.now) (classes_of classes.entry) class.0)
        (map method_seen inherited.now))) ≡ gives done) }
    ensures err { IfErr result (IsFault (the_check rule.SameErasure span
        (not (words.some_clash (heads_of heads.now) (classes_of classes.entry)
        (map method_seen inherited.now)
        || words.some_clash_above (heads_of heads.now) (classes_of classes.entry)
        (method_words.methods_above (heads_of heads.now) (classes_of classes.entry) class.0)
        (map method_seen inherited.now))))) }
{
    let do_clash = inherits_clash(alloc, heads, classes, class, inherited)?;
    check(TypeRule::SameErasure, span, !do_clash)
}
