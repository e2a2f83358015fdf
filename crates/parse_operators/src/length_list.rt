// Reads an expression in brackets, and the lengths of an array creation.

ghost use Rattle.std.specs.Prelude.{◌≡◌, IfOk};
ghost use Rattle.parse_below.specs.way.Readers.{Reads};
ghost use Rattle.parse_below.specs.way.Views.{seen_items, HaveHeights};
ghost use Rattle.parse_operators.specs.way.Views.{seen_inside, InsideHasHeight};
ghost use Rattle.parse_operators.specs.way.Readings.{length_at, lengths_at};

use je_ast::Expr;
use je_base::{Memory, Span};
use je_token::{Symbol, Token};
use parse_below::Setting;
use parse_types::{Closed, Place, Read, ReadClosed, behind, first_span};
use std::alloc::Global;

/// An expression in brackets, its height, the closing bracket, and the tokens behind it.
#[derive(Drop)]
pub struct Inside<'a> {
    pub tree: Expr,
    pub height: u32,
    pub close: Span,
    pub rest: &'a [Token],
}

/// `"[" Expr "]"`
#[tactic(auto, unfolding(parse_laws::specs::way::Expressions::length_at))]
pub fn length<'a, E: Fn(Place<'a>) -> Read<'a, Expr>>(
    expr: E,
    setting: &Setting,
    tokens: &'a [Token],
) -> Result<Option<Inside<'a>>, Memory>
    requires callable { E.IsAlwaysCallable expr }
    requires reads { Reads setting.now (E.post expr) }
    ensures value { IfOk result (λ o. seen_inside o ≡ length_at setting.now tokens.now) }
    ensures height { IfOk result (InsideHasHeight setting.now.below) }
{
    let Some(inside) = behind(tokens, Symbol::OpenBracket) else {
        return Ok(None);
    };
    let Some(found) = expr(Place {
        tokens: inside,
        least: 1,
    })?
    else {
        return Ok(None);
    };
    let Some(rest) = behind(found.rest, Symbol::CloseBracket) else {
        return Ok(None);
    };
    Ok(Some(Inside {
        tree: found.tree,
        height: found.height,
        close: first_span(found.rest),
        rest,
    }))
}

/// `"[" Expr "]" {"[" Expr "]"}`, as far as it goes.
#[tactic(auto, using(crate::proofs::Steps::lengths_step, crate::proofs::Steps::lengths_none, crate::proofs::Steps::lists_same, crate::proofs::Steps::views_push, crate::proofs::Steps::heights_push), unfolding(parse_laws::specs::way::Expressions::lengths_at))]
pub fn lengths<'a, E: Fn(Place<'a>) -> Read<'a, Expr>>(
    expr: E,
    alloc: Global,
    setting: &Setting,
    tokens: &'a [Token],
) -> ReadClosed<'a, Expr>
    requires callable { E.IsAlwaysCallable expr }
    requires reads { Reads setting.now (E.post expr) }
    ensures value { IfOk result (λ o. seen_items o ≡ lengths_at setting.now tokens.now) }
    ensures height { IfOk result (HaveHeights setting.now.below) }
{
    let Some(first) = length(&expr, setting, tokens)? else {
        return Ok(None);
    };
    let mut items = Vec::new(alloc);
    items.push(first.tree)?;
    let mut height = first.height;
    let mut close = first.close;
    let mut rest = first.rest;
    for _ in 0..tokens.len() {
        let Some(next) = length(&expr, setting, rest)? else {
            break;
        };
        items.push(next.tree)?;
        height = height.max(next.height);
        close = next.close;
        rest = next.rest;
    }
    Ok(Some(Closed {
        items,
        height,
        close,
        rest,
    }))
}
