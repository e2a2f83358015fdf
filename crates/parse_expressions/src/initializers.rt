// Reads array initializers.

ghost use Rattle.std.specs.Prelude.{◌≡◌, ◌+◌, ◌-◌, ◌<◌, ◌^◌, [], length, IfOk};
ghost use Rattle.je_ast.specs.View.{view};
ghost use Rattle.parse_types.specs.way.Views.{seen};
ghost use Rattle.parse_below.specs.way.Readers.{ReadsInitializers};
ghost use Rattle.parse_below.specs.way.Views.{HasHeights, seen_items, HaveHeights};
ghost use Rattle.parse_operators.specs.way.Readings.{values_at, array_initializer_layer, behind_lone_comma_at};

use je_ast::{Expr, make_array_init};
use je_token::{Symbol, Token};
use parse_below::Setting;
use parse_types::{Closed, Found, Read, ReadClosed, behind, first_span, is_symbol, join};
use std::alloc::Global;

/// `"{" [Init {"," Init}] [","] "}"`, of height at most `below + 1`. `initializer` reads an initializer of height at most
/// `below`.
#[tactic(auto, using(crate::proofs::InitializerTurns::initializer_unopened, crate::proofs::InitializerTurns::initializer_unread))]
pub fn array_initializer<'a, I: Fn(&'a [Token]) -> Read<'a, Expr>>(
    initializer: I,
    alloc: Global,
    setting: &Setting,
    tokens: &'a [Token],
) -> Read<'a, Expr>
    requires callable { I.IsAlwaysCallable initializer }
    requires reads { ReadsInitializers setting.now (I.post initializer) }
    requires fits { setting.now.below < 2 ^ 32 - 1 }
    ensures value { IfOk result (λ o. seen view o
        ≡ array_initializer_layer setting.now tokens.now) }
    ensures height { IfOk result (HasHeights (setting.now.below + 1)) }
{
    let Some(inside) = behind(tokens, Symbol::OpenBrace) else {
        return Ok(None);
    };
    let Some(values) = values(&initializer, alloc, setting, inside)? else {
        return Ok(None);
    };
    Ok(Some(Found {
        tree: make_array_init(values.items, join(first_span(tokens), values.close)),
        height: values.height + 1,
        rest: values.rest,
    }))
}

// `[Init {"," Init}] [","] "}"`
#[tactic(auto, using(parse_operators::proofs::Steps::values_step, parse_operators::proofs::Steps::values_none, parse_operators::proofs::Steps::lists_same, parse_operators::proofs::Steps::views_push, parse_operators::proofs::Steps::heights_push))]
fn values<'a, I: Fn(&'a [Token]) -> Read<'a, Expr>>(
    initializer: &I,
    alloc: Global,
    setting: &Setting,
    tokens: &'a [Token],
) -> ReadClosed<'a, Expr>
    requires callable { I.IsAlwaysCallable initializer.now }
    requires reads { ReadsInitializers setting.now (I.post initializer.now) }
    ensures value { IfOk result (λ o. seen_items o ≡ values_at setting.now
        (length tokens.now) [] (behind_lone_comma_at tokens.now)) }
    ensures height { IfOk result (HaveHeights setting.now.below) }
{
    let mut items = Vec::new(alloc);
    let mut height = 0;
    let mut next = behind_lone_comma(tokens);
    for _ in 0..tokens.len() {
        if let Some(rest) = behind(next, Symbol::CloseBrace) {
            return Ok(Some(Closed {
                items,
                height,
                close: first_span(next),
                rest,
            }));
        }
        let Some(found) = initializer(next)? else {
            return Ok(None);
        };
        items.push(found.tree)?;
        height = height.max(found.height);
        if let Some(behind_comma) = behind(found.rest, Symbol::Comma) {
            next = behind_comma;
            continue;
        }
        if !is_symbol(found.rest, Symbol::CloseBrace) {
            return Ok(None);
        }
        next = found.rest;
    }
    Ok(None)
}

// Behind the comma of `"," "}"`, and else the tokens themselves.
fn behind_lone_comma(tokens: &[Token]) -> &[Token]
    ensures { result.now ≡ behind_lone_comma_at tokens.now }
{
    match behind(tokens, Symbol::Comma) {
        Some(rest) if is_symbol(rest, Symbol::CloseBrace) => rest,
        _ => tokens,
    }
}
