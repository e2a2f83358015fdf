// A method against all that the classes above its own one declare.

ghost use Rattle.std.specs.Prelude.{◌≡◌, IfErr, IfOk, map};
ghost use Rattle.std.specs.List.{list_all, list_any};
ghost use Rattle.class_heads.specs.View.{classes_of};
ghost use Rattle.je_typing.specs.Answers.{IsFault};
ghost use Rattle.je_typing.specs.Judged.{gives, check as the_check};
ghost use Rattle.je_typing.specs.declared.fault.TypeRule.TheVariants as rule;
ghost use Rattle.overriding.specs.Methods.{Method as SeenMethod};
ghost use Rattle.overriding.specs.Overrides as words;
ghost use Rattle.class_methods.specs.View.{method_seen};
ghost use Rattle.override_steps.specs.GoodMethods.{good_method as the_good_method, no_clash_among};
ghost use Rattle.source_subtypes.specs.View.{heads_of};

use crate::clashing::have_one_erasure;
use crate::overrides::overrides_all_well;
use class_heads::AllClasses;
use class_methods::{Method, have_one_name, is_subsignature, methods_above};
use je_typing::{Refusal, TypeRule, check};
use source_subtypes::ClassHeads;
use std::alloc::Global;

// Whether one of these has the erasure of a method.
fn is_like_one(heads: &ClassHeads, methods: &[Method], method: &Method) -> bool
    ensures { result ≡ words.is_like_one (heads_of heads.now) (map method_seen methods.now)
        (method_seen method.now) }
{
    for at in 0..methods.len() {
        if have_one_erasure(heads, method.declared, methods[at].declared) {
            return true;
        }
    }
    false
}

// Whether one of these that a method overrides has the erasure of another one.
#[tactic(auto, using(crate::proofs::MethodsAbove::filtered))]
fn overrides_one_like(heads: &ClassHeads, above: &[Method], method: &Method, other: &Method) -> bool
    ensures { result ≡ list_any (λ (j : SeenMethod).
        words.have_one_erasure (heads_of heads.now) j.declared (method_seen other.now).declared)
        (words.overridden_of (heads_of heads.now) (method_seen method.now)
        (map method_seen above.now)) }
{
    for at in 0..above.len() {
        let here = &above[at];
        if is_subsignature(heads, method, here)
            && have_one_erasure(heads, here.declared, other.declared)
        {
            return true;
        }
    }
    false
}

/// Whether a method has the name of another one, not its signature nor the erasure of that, and has its erasure, or
/// overrides one of `above` that has; `own` is the method as the class sees it that declares it.
pub fn takes_erasure<'a>(
    heads: &ClassHeads,
    above: &[Method],
    own: &Method<'a>,
    method: &Method<'a>,
    other: &Method,
) -> bool
    ensures { result ≡ words.takes_erasure (heads_of heads.now)
        (words.overridden_of (heads_of heads.now) (method_seen own.now)
        (map method_seen above.now)) (method_seen method.now) (method_seen other.now) }
{
    have_one_name(method, other)
        && !is_subsignature(heads, method, other)
        && (have_one_erasure(heads, method.declared, other.declared)
            || overrides_one_like(heads, above, own, other))
}

fn clashes_above(heads: &ClassHeads, above: &[Method], method: &Method) -> bool
    ensures { result ≡ words.clashes_above (heads_of heads.now) (method_seen method.now)
        (map method_seen above.now) }
{
    for at in 0..above.len() {
        if takes_erasure(heads, above, method, method, &above[at]) {
            return true;
        }
    }
    false
}

#[tactic(auto, using(je_typing::proofs::Walks::walks))]
fn good_override(
    alloc: Global,
    heads: &ClassHeads,
    above: &[Method],
    method: &Method,
) -> Result<(), Refusal>
    ensures ok { IfOk result (λ done.
        the_check rule.BadOverride method.now.declared.now.name.span
        (list_all (words.overrides_well (heads_of heads.now) (method_seen method.now))
        (map method_seen above.now)) ≡ gives done) }
    ensures err { IfErr result (IsFault
        (the_check rule.BadOverride method.now.declared.now.name.span
        (list_all (words.overrides_well (heads_of heads.now) (method_seen method.now))
        (map method_seen above.now)))) }
{
    let holds = overrides_all_well(alloc, heads, method, above)?;
    check(TypeRule::BadOverride, method.declared.name.span, holds)
}

fn no_clash(
    heads: &ClassHeads,
    earlier: &[Method],
    above: &[Method],
    method: &Method,
) -> Result<(), Refusal>
    ensures ok { IfOk result (λ done. no_clash_among (heads_of heads.now)
        (map method_seen earlier.now) (map method_seen above.now) (method_seen method.now)
        ≡ gives done) }
    ensures err { IfErr result (IsFault (no_clash_among (heads_of heads.now)
        (map method_seen earlier.now) (map method_seen above.now) (method_seen method.now))) }
{
    let clashes = is_like_one(heads, earlier, method) || clashes_above(heads, above, method);
    check(TypeRule::SameErasure, method.declared.name.span, !clashes)
}

/// Nothing where a method that a class declares may override all that it does override, and clashes neither with one of
/// `earlier` nor with one that the classes above declare. Else, at its name, BadOverride (JLS 8.4.5, 8.4.6, 8.4.8), or
/// behind that SameErasure (JLS 8.4.2, 8.4.8.3).
#[tactic(auto, using(je_typing::proofs::Walks::walks))]
pub fn good_method(
    alloc: Global,
    heads: &ClassHeads,
    classes: AllClasses,
    earlier: &[Method],
    method: &Method,
) -> Result<(), Refusal>
    ensures ok { IfOk result (λ done. the_good_method (heads_of heads.now)
        (classes_of classes.entry) (map method_seen earlier.now) (method_seen method.now)
        ≡ gives done) }
    ensures err { IfErr result (IsFault (the_good_method (heads_of heads.now)
        (classes_of classes.entry) (map method_seen earlier.now) (method_seen method.now))) }
{
    let above = methods_above(alloc, heads, classes, method.holder)?;
    good_override(alloc, heads, &above, method)?;
    no_clash(heads, earlier, &above, method)
}
