// Reads modifiers.

ghost use Rattle.std.specs.Prelude.{◌≡◌, IfOk, option_map};
ghost use Rattle.parse_laws.specs.way.Types.{modifier_kind as modifier_kind_at, word_modifier_at, override_at, modifier_at, modifiers_at};
ghost use Rattle.parse_types.specs.way.Views.{read_of, seen_modifiers};

use crate::ahead::{behind, first_span, identifier, join};
use je_ast::{Modifier, ModifierKind};
use je_base::{Memory, Names};
use je_token::{Keyword, Symbol, Token, TokenKind};
use std::alloc::Global;

/// `{Modifier}`, as far as it goes.
#[tactic(auto, using(crate::proofs::Steps::modifiers_step, crate::proofs::Steps::modifiers_none), unfolding(parse_laws::specs::way::Types::modifiers_at))]
pub fn modifiers<'a>(
    alloc: Global,
    names: &Names,
    tokens: &'a [Token],
) -> Result<(Vec<Modifier>, &'a [Token]), Memory>
    ensures { IfOk result (λ x. seen_modifiers x ≡ modifiers_at names.now tokens.now) }
{
    let mut list = Vec::new(alloc);
    let mut rest = tokens;
    for _ in 0..tokens.len() {
        let Some((modifier, behind_modifier)) = modifier(names, rest) else {
            break;
        };
        list.push(modifier)?;
        rest = behind_modifier;
    }
    Ok((list, rest))
}

// A modifier, or `@Override`.
#[tactic(auto, unfolding(parse_laws::specs::way::Types::modifier_at))]
fn modifier<'a>(names: &Names, tokens: &'a [Token]) -> Option<(Modifier, &'a [Token])>
    ensures { read_of result ≡ modifier_at names.now tokens.now }
{
    match word_modifier(tokens) {
        Some(found) => Some(found),
        None => override_annotation(names, tokens),
    }
}

// A modifier that is one word.
fn word_modifier(tokens: &[Token]) -> Option<(Modifier, &[Token])>
    ensures { read_of result ≡ word_modifier_at tokens.now }
{
    let (token, rest) = tokens.split_first()?;
    let kind = modifier_kind(token.kind)?;
    let span = token.span;
    Some((Modifier { kind, span }, rest))
}

// `@Override`
#[tactic(auto, using(crate::proofs::Steps::same_bytes), unfolding(parse_laws::specs::way::Types::override_at))]
fn override_annotation<'a>(names: &Names, tokens: &'a [Token]) -> Option<(Modifier, &'a [Token])>
    ensures { read_of result ≡ override_at names.now tokens.now }
{
    let (name, rest) = identifier(behind(tokens, Symbol::At)?)?;
    let text = names.text(name.name)?;
    if text != "Override" {
        return None;
    }
    let modifier = Modifier {
        kind: ModifierKind::Override,
        span: join(first_span(tokens), name.span),
    };
    Some((modifier, rest))
}

// The modifier that is a token of this kind.
fn modifier_kind(kind: TokenKind) -> Option<ModifierKind>
    ensures { result ≡ modifier_kind_at kind }
{
    let TokenKind::Keyword(word) = kind else {
        return None;
    };
    match word {
        Keyword::Public => Some(ModifierKind::Public),
        Keyword::Protected => Some(ModifierKind::Protected),
        Keyword::Private => Some(ModifierKind::Private),
        Keyword::Static => Some(ModifierKind::Static),
        Keyword::Final => Some(ModifierKind::Final),
        Keyword::Abstract => Some(ModifierKind::Abstract),
        Keyword::Native => Some(ModifierKind::Native),
        _ => None,
    }
}
