// Reads names and pairs of brackets.

ghost use Rattle.std.specs.Prelude.{◌≡◌, IfOk};
ghost use Rattle.parse_laws.specs.way.Types.{part_at, name_at, names_at, pair_at, dims_at};
ghost use Rattle.parse_types.specs.way.Views.{read_of, seen_name, seen_names, seen_dims};

use crate::ahead::{behind, first_span, identifier, join};
use je_ast::{Identifier, Name};
use je_base::{Memory, Span};
use je_token::{Symbol, Token};
use std::alloc::Global;

/// `"." id`
pub fn part(tokens: &[Token]) -> Option<(Identifier, &[Token])>
    ensures { read_of result ≡ part_at tokens.now }
{
    identifier(behind(tokens, Symbol::Dot)?)
}

/// `id {"." id}`, as far as it goes.
#[tactic(auto, using(crate::proofs::Steps::parts_step, crate::proofs::Steps::parts_none), unfolding(parse_laws::specs::way::Types::name_at))]
pub fn name<'a>(alloc: Global, tokens: &'a [Token]) -> Result<Option<(Name, &'a [Token])>, Memory>
    ensures { IfOk result (λ o. seen_name o ≡ name_at tokens.now) }
{
    let Some((first, mut rest)) = identifier(tokens) else {
        return Ok(None);
    };
    let mut parts = Vec::new(alloc);
    parts.push(first)?;
    let mut span = first.span;
    for _ in 0..tokens.len() {
        let Some((part, behind_part)) = part(rest) else {
            break;
        };
        parts.push(part)?;
        span = join(span, part.span);
        rest = behind_part;
    }
    Ok(Some((Name { parts, span }, rest)))
}

/// `Name {"," Name}`
#[tactic(auto, using(crate::proofs::Steps::names_step, crate::proofs::Steps::names_none, crate::proofs::Steps::names_push), unfolding(parse_laws::specs::way::Types::names_at))]
pub fn names<'a>(
    alloc: Global,
    tokens: &'a [Token],
) -> Result<Option<(Vec<Name>, &'a [Token])>, Memory>
    ensures { IfOk result (λ o. seen_names o ≡ names_at tokens.now) }
{
    let Some((first, mut rest)) = name(alloc, tokens)? else {
        return Ok(None);
    };
    let mut list = Vec::new(alloc);
    list.push(first)?;
    for _ in 0..tokens.len() {
        let Some(behind_comma) = behind(rest, Symbol::Comma) else {
            break;
        };
        let Some((next, behind_next)) = name(alloc, behind_comma)? else {
            return Ok(None);
        };
        list.push(next)?;
        rest = behind_next;
    }
    Ok(Some((list, rest)))
}

/// `"[" "]"`: the span of the second one, and the tokens behind it.
pub fn pair(tokens: &[Token]) -> Option<(Span, &[Token])>
    ensures { read_of result ≡ pair_at tokens.now }
{
    let inside = behind(tokens, Symbol::OpenBracket)?;
    let rest = behind(inside, Symbol::CloseBracket)?;
    Some((first_span(inside), rest))
}

/// `{"[" "]"}` behind what has this span: how many pairs there are, the span with them, and the tokens behind them.
#[tactic(auto, using(crate::proofs::Steps::dims_step, crate::proofs::Steps::dims_none), unfolding(parse_laws::specs::way::Types::dims_at))]
pub fn dims(span: Span, tokens: &[Token]) -> (usize, Span, &[Token])
    ensures { seen_dims result ≡ dims_at span tokens.now }
{
    let mut count = 0;
    let mut whole = span;
    let mut rest = tokens;
    for _ in 0..tokens.len() {
        let Some((close, behind_pair)) = pair(rest) else {
            break;
        };
        count += 1;
        whole = join(whole, close);
        rest = behind_pair;
    }
    (count, whole, rest)
}
