// What is static in an inner class.

ghost use Rattle.std.specs.Prelude.{◌≡◌, IfOk, IfErr};
ghost use Rattle.je_scopes.specs.Headers.{site_at, within};
ghost use Rattle.je_typing.specs.Answers.{IsFault};
ghost use Rattle.je_typing.specs.Judged.{gives};
ghost use Rattle.name_sites.specs.View.{source_of};
ghost use Rattle.source_subtypes.specs.View.{heads_of};
ghost use Rattle.source_types.specs.Heads.{head_at};
ghost use Rattle.header_typing.specs.Statics as words;

use je_ast::{Identifier, Modifier};
use je_base::Span;
use je_core::ClassId;
use je_typing::{Refusal, TypeRule, check};
use name_sites::Sites;
use name_walk::has_static;
use source_subtypes::ClassHeads;

/// Whether a class is inner: one inside another class that isn't static (JLS 8.1.3).
pub fn is_inner(sites: &Sites, heads: &ClassHeads, class: ClassId) -> bool
    ensures { result ≡ words.is_inner (source_of sites.now).sites (heads_of heads.now) class.0 }
{
    sites.outside(class).within.is_some() && !is_static(heads, class)
}

fn is_static(heads: &ClassHeads, class: ClassId) -> bool
    ensures { result ≡ words.is_static_head (head_at (heads_of heads.now) class.0) }
{
    match heads.class(class) {
        Some(head) => head.kind.is_static,
        None => false,
    }
}

/// Nothing where a method with these modifiers may stand in a class that may be inner, else the fault at its name.
pub fn static_method(inner: bool, modifiers: &[Modifier], name: Identifier) -> Result<(), Refusal>
    ensures ok { IfOk result (λ done. words.static_method inner modifiers.now name ≡ gives done) }
    ensures err { IfErr result (IsFault (words.static_method inner modifiers.now name)) }
{
    check(
        TypeRule::BadStatic,
        name.span,
        !(inner && has_static(modifiers)),
    )
}

/// The same of a field, which may be static where it is a constant.
pub fn static_field(
    inner: bool,
    modifiers: &[Modifier],
    is_constant: bool,
    name: Identifier,
) -> Result<(), Refusal>
    ensures ok { IfOk result (λ done. words.static_field inner modifiers.now is_constant name
        ≡ gives done) }
    ensures err { IfErr result (IsFault (words.static_field inner modifiers.now is_constant name)) }
{
    let holds = !(inner && has_static(modifiers) && !is_constant);
    check(TypeRule::BadStatic, name.span, holds)
}

/// The same of an initializer block, with the word `static` before it, or none.
#[tactic(auto, using(je_typing::proofs::Walks::walks))]
pub fn static_initializer(inner: bool, word: Option<Span>) -> Result<(), Refusal>
    ensures ok { IfOk result (λ done. words.static_initializer inner word ≡ gives done) }
    ensures err { IfErr result (IsFault (words.static_initializer inner word)) }
{
    match word {
        Some(word) => check(TypeRule::BadStatic, word, !inner),
        None => Ok(()),
    }
}

/// Nothing where a class may stand in the class round it: it isn't static, as interfaces and enums are, or the class round it is
/// no inner class. Else the fault at its name.
pub fn static_class(
    sites: &Sites,
    heads: &ClassHeads,
    class: ClassId,
    span: Span,
) -> Result<(), Refusal>
    ensures ok { IfOk result (λ done. words.static_class (source_of sites.now).sites
        (heads_of heads.now) class.0 span ≡ gives done) }
    ensures err { IfErr result (IsFault (words.static_class (source_of sites.now).sites
        (heads_of heads.now) class.0 span)) }
{
    let holds = !(is_static(heads, class) && is_in_inner(sites, heads, class));
    check(TypeRule::BadStatic, span, holds)
}

// Whether the class directly round a class, if there is one, is inner.
fn is_in_inner(sites: &Sites, heads: &ClassHeads, class: ClassId) -> bool
    ensures { result ≡ words.is_inner_if (source_of sites.now).sites (heads_of heads.now)
        (within (site_at (source_of sites.now).sites class.0)) }
{
    match sites.outside(class).within {
        Some(within) => is_inner(sites, heads, within),
        None => false,
    }
}
