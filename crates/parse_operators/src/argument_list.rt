// Reads arguments.

ghost use Rattle.std.specs.Prelude.{◌≡◌, [], length, IfOk};
ghost use Rattle.parse_below.specs.way.Views.{seen_items, HaveHeights};
ghost use Rattle.parse_below.specs.way.Readers.{Reads};
ghost use Rattle.parse_operators.specs.way.Readings.{arguments_at, more_arguments_at};

use je_ast::Expr;
use je_token::{Symbol, Token};
use parse_below::Setting;
use parse_types::{Closed, Place, Read, ReadClosed, behind, first_span};
use std::alloc::Global;

/// `"(" [Expr {"," Expr}] ")"`
#[tactic(auto, unfolding(parse_laws::specs::way::Expressions::arguments_at))]
pub fn arguments<'a, E: Fn(Place<'a>) -> Read<'a, Expr>>(
    expr: E,
    alloc: Global,
    setting: &Setting,
    tokens: &'a [Token],
) -> ReadClosed<'a, Expr>
    requires callable { E.IsAlwaysCallable expr }
    requires reads { Reads setting.now (E.post expr) }
    ensures value { IfOk result (λ o. seen_items o ≡ arguments_at setting.now tokens.now) }
    ensures height { IfOk result (HaveHeights setting.now.below) }
{
    let Some(inside) = behind(tokens, Symbol::OpenParen) else {
        return Ok(None);
    };
    if let Some(rest) = behind(inside, Symbol::CloseParen) {
        return Ok(Some(Closed {
            items: Vec::new(alloc),
            height: 0,
            close: first_span(inside),
            rest,
        }));
    }
    more_arguments(&expr, alloc, setting, inside)
}

// `Expr {"," Expr} ")"`
#[tactic(auto, using(crate::proofs::Steps::arguments_step, crate::proofs::Steps::arguments_none, crate::proofs::Steps::lists_same, crate::proofs::Steps::views_push, crate::proofs::Steps::heights_push))]
fn more_arguments<'a, E: Fn(Place<'a>) -> Read<'a, Expr>>(
    expr: E,
    alloc: Global,
    setting: &Setting,
    tokens: &'a [Token],
) -> ReadClosed<'a, Expr>
    requires callable { E.IsAlwaysCallable expr }
    requires reads { Reads setting.now (E.post expr) }
    ensures value { IfOk result (λ o. seen_items o
        ≡ more_arguments_at setting.now (length tokens.now) [] tokens.now) }
    ensures height { IfOk result (HaveHeights setting.now.below) }
{
    let mut items = Vec::new(alloc);
    let mut height = 0;
    let mut next = tokens;
    for _ in 0..tokens.len() {
        let Some(found) = expr(Place {
            tokens: next,
            least: 1,
        })?
        else {
            return Ok(None);
        };
        items.push(found.tree)?;
        height = height.max(found.height);
        if let Some(behind_comma) = behind(found.rest, Symbol::Comma) {
            next = behind_comma;
            continue;
        }
        let Some(rest) = behind(found.rest, Symbol::CloseParen) else {
            return Ok(None);
        };
        return Ok(Some(Closed {
            items,
            height,
            close: first_span(found.rest),
            rest,
        }));
    }
    Ok(None)
}
