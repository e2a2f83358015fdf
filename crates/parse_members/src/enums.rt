// Reads enums.

ghost use Rattle.std.specs.Prelude.{◌≡◌, ◌+◌, ◌<◌, ◌^◌, IfOk, length, []};
ghost use Rattle.je_ast.specs.View.{declaration_view};
ghost use Rattle.parse_laws.specs.way.Members.{constants_at, more_constants_at, enum_at};
ghost use Rattle.parse_laws.specs.way.Members.{past_symbol};
ghost use Rattle.parse_types.specs.way.Views.{seen};
ghost use Rattle.parse_below.specs.way.Views.{DeclarationHasHeight};
ghost use Rattle.parse_members.specs.way.Views.{seen_list, seen_constants, ConstantsHeight};
ghost use Rattle.parse_members.specs.way.Views.{closed_constants_at};

use je_ast::{Decl, Identifier, Modifier, make_decl};
use je_base::{Memory, Span};
use je_token::{Keyword, Symbol, Token};
use parse_types::{
    Closed, Found, Read, ReadClosed, behind, behind_word, first_span, identifier, join,
};
use std::alloc::Global;

/// `"enum" id "{" [id {"," id}] [","] [";"] "}"` behind these modifiers, of height at most `below +
/// 1`. `first` is the span of the first token of both.
#[tactic(auto, unfolding(parse_laws::specs::way::Members::enum_at))]
pub fn enum_declaration<'a>(
    alloc: Global,
    modifiers: Vec<Modifier>,
    first: Span,
    tokens: &'a [Token],
    below: u32,
) -> Read<'a, Decl>
    requires room { below + 1 < 2 ^ 32 }
    ensures value { IfOk result
        (λ o. seen declaration_view o ≡ enum_at below modifiers.items first tokens.now) }
    ensures height { IfOk result (DeclarationHasHeight (below + 1)) }
{
    let Some(word) = behind_word(tokens, Keyword::Enum) else {
        return Ok(None);
    };
    let Some((name, rest)) = identifier(word) else {
        return Ok(None);
    };
    let Some(inside) = behind(rest, Symbol::OpenBrace) else {
        return Ok(None);
    };
    let Some(constants) = constants(alloc, inside)? else {
        return Ok(None);
    };
    if below < constants.height {
        return Ok(None);
    }
    let tree = make_decl(Decl::Enum {
        modifiers,
        name,
        constants: constants.items,
        span: join(first, constants.close),
    });
    Ok(Some(Found {
        tree,
        height: constants.height + 1,
        rest: constants.rest,
    }))
}

// `[id {"," id}] [","] [";"] "}"`
#[tactic(auto, unfolding(parse_laws::specs::way::Members::constants_at))]
fn constants<'a>(alloc: Global, tokens: &'a [Token]) -> ReadClosed<'a, Identifier>
    ensures value { IfOk result (λ o. seen_constants o ≡ constants_at tokens.now) }
    ensures height { IfOk result ConstantsHeight }
{
    let (items, rest) = listed_constants(alloc, tokens)?;
    closed_constants(items, rest)
}

// `[id {"," id} [","]]`, as far as it goes
#[tactic(auto, using(crate::proofs::Steps::constants_step, crate::proofs::Steps::constants_none))]
fn listed_constants<'a>(
    alloc: Global,
    tokens: &'a [Token],
) -> Result<(Vec<Identifier>, &'a [Token]), Memory>
    ensures { IfOk result (λ x. seen_list x ≡ more_constants_at (length tokens.now) [] tokens.now) }
{
    let mut items = Vec::new(alloc);
    let mut next = tokens;
    for _ in 0..tokens.len() {
        let Some((constant, rest)) = identifier(next) else {
            return Ok((items, next));
        };
        items.push(constant)?;
        let Some(behind_comma) = behind(rest, Symbol::Comma) else {
            return Ok((items, rest));
        };
        next = behind_comma;
    }
    Ok((items, next))
}

// Constants before `[";"] "}"`, and before a comma too where there are none.
fn closed_constants(items: Vec<Identifier>, tokens: &[Token]) -> ReadClosed<Identifier>
    ensures value { IfOk result
        (λ o. seen_constants o ≡ closed_constants_at (items.items, tokens.now)) }
    ensures height { IfOk result ConstantsHeight }
{
    let (height, next) = if items.is_empty() {
        (0, past(tokens, Symbol::Comma))
    } else {
        (1, tokens)
    };
    let end = past(next, Symbol::Semicolon);
    let Some(rest) = behind(end, Symbol::CloseBrace) else {
        return Ok(None);
    };
    Ok(Some(Closed {
        items,
        height,
        close: first_span(end),
        rest,
    }))
}

// The tokens behind a symbol, where it stands first.
fn past(tokens: &[Token], symbol: Symbol) -> &[Token]
    ensures { result.now ≡ past_symbol symbol tokens.now }
{
    behind(tokens, symbol).unwrap_or(tokens)
}
