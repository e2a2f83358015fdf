// Reads formal parameters and what a method throws.

ghost use Rattle.std.specs.Prelude.{◌≡◌, ◌≤◌, ◌<◌, ◌^◌, IfOk};
ghost use Rattle.je_ast.specs.Types.{formal_view, type_height};
ghost use Rattle.je_ast.specs.Height.{formals_height};
ghost use Rattle.parse_laws.specs.way.Types.{final_at, formal_at, formals_at, throws_at};
ghost use Rattle.parse_types.specs.way.Views.{seen, HasHeight, formals_view, seen_final, seen_names};

use crate::ahead::{behind, behind_word, identifier};
use crate::found::{Found, Read};
use crate::naming::{dims, names};
use crate::types::type_name;
use je_ast::{Formal, Name};
use je_base::Memory;
use je_token::{Keyword, Symbol, Token};
use std::alloc::Global;

/// `"(" [Formal {"," Formal}] ")"`, with types of at most this height.
#[tactic(auto, using(crate::proofs::Steps::formals_step, crate::proofs::Steps::formals_none, crate::proofs::Steps::formals_push, crate::proofs::Steps::formals_height_push), unfolding(parse_laws::specs::way::Types::formals_at))]
pub fn formals<'a>(alloc: Global, tokens: &'a [Token], most: u32) -> Read<'a, Vec<Formal>>
    ensures value { IfOk result (λ o. seen formals_view o ≡ formals_at most tokens.now) }
    ensures height { IfOk result (λ o. HasHeight (λ fs. formals_height (formals_view fs)) most o) }
{
    let Some(inside) = behind(tokens, Symbol::OpenParen) else {
        return Ok(None);
    };
    let mut list = Vec::new(alloc);
    if let Some(rest) = behind(inside, Symbol::CloseParen) {
        return Ok(Some(Found {
            tree: list,
            height: 0,
            rest,
        }));
    }
    let mut height = 0;
    let mut next = inside;
    for _ in 0..inside.len() {
        let Some(found) = formal(alloc, next, most)? else {
            return Ok(None);
        };
        list.push(found.tree)?;
        height = height.max(found.height);
        if let Some(behind_comma) = behind(found.rest, Symbol::Comma) {
            next = behind_comma;
            continue;
        }
        let Some(rest) = behind(found.rest, Symbol::CloseParen) else {
            return Ok(None);
        };
        return Ok(Some(Found {
            tree: list,
            height,
            rest,
        }));
    }
    Ok(None)
}

// `["final"] Ty id {"[" "]"}`
#[tactic(auto, unfolding(parse_laws::specs::way::Types::formal_at))]
fn formal<'a>(alloc: Global, tokens: &'a [Token], most: u32) -> Read<'a, Formal>
    ensures value { IfOk result (λ o. seen formal_view o ≡ formal_at most tokens.now) }
    ensures height { IfOk result (λ o. HasHeight
        (λ f. type_height (formal_view f).declared) most o) }
{
    let (is_final, typed) = final_word(tokens);
    let Some(ty) = type_name(alloc, typed, most)? else {
        return Ok(None);
    };
    let Some(named) = ty.rest.whole() else {
        return Ok(None);
    };
    let Some((name, rest)) = identifier(named) else {
        return Ok(None);
    };
    let (count, _, rest) = dims(name.span, rest);
    let tree = Formal {
        is_final,
        ty: ty.tree,
        name,
        dims: count,
    };
    Ok(Some(Found {
        tree,
        height: ty.height,
        rest,
    }))
}

/// `["final"]`: whether it stands first, and the tokens behind it.
pub fn final_word(tokens: &[Token]) -> (bool, &[Token])
    ensures { seen_final result ≡ final_at tokens.now }
{
    match behind_word(tokens, Keyword::Final) {
        Some(rest) => (true, rest),
        None => (false, tokens),
    }
}

/// `["throws" Name {"," Name}]`
#[tactic(auto, unfolding(parse_laws::specs::way::Types::throws_at))]
pub fn throws<'a>(
    alloc: Global,
    tokens: &'a [Token],
) -> Result<Option<(Vec<Name>, &'a [Token])>, Memory>
    ensures { IfOk result (λ o. seen_names o ≡ throws_at tokens.now) }
{
    match behind_word(tokens, Keyword::Throws) {
        Some(rest) => names(alloc, rest),
        None => Ok(Some((Vec::new(alloc), tokens))),
    }
}
