// Reads the conditional operator behind a condition.

ghost use Rattle.std.specs.Prelude.{◌≡◌, ◌+◌, ◌-◌, ◌<◌, ◌≤◌, ◌^◌, max, IfOk};
ghost use Rattle.je_ast.specs.Height.{height};
ghost use Rattle.je_ast.specs.Spans.{span_of, join as joined};
ghost use Rattle.je_ast.specs.Trees as tree;
ghost use Rattle.je_ast.specs.View.{view};
ghost use Rattle.je_grammar.specs.Tokens.{first_span as the_first_span};
ghost use Rattle.parse_below.specs.way.Readers.{Reads};
ghost use Rattle.parse_below.specs.way.Views.{seen_found, IsRight};
ghost use Rattle.parse_operators.specs.way.Readings.{choices_at, conditional_at};
ghost use Rattle.parse_operators.specs.way.Views.{IsAbove, seen_choices, ChoicesHaveHeight};

use crate::shape::span;
use je_ast::{Expr, make_expr};
use je_base::Memory;
use je_token::{Symbol, Token};
use parse_below::{Setting, boxed};
use parse_types::{Found, Place, Read, behind, first_span, join};
use std::alloc::Global;

// The two choices of a conditional expression, the height of the higher one, and the tokens behind them.
#[derive(Drop)]
struct Alternatives<'a> {
    yes: Expr,
    no: Expr,
    height: u32,
    rest: &'a [Token],
}

/// `"?" Expr ":" Expr` behind a condition, where it can be read.
#[tactic(auto, unfolding(parse_laws::specs::way::Expressions::conditional_at))]
pub fn conditional<'a, E: Fn(Place<'a>) -> Read<'a, Expr>>(
    expr: E,
    alloc: Global,
    setting: &Setting,
    condition: Found<'a, Expr>,
    least: u32,
) -> Result<Found<'a, Expr>, Memory>
    requires callable { E.IsAlwaysCallable expr }
    requires reads { Reads setting.now (E.post expr) }
    requires fits { setting.now.below < 2 ^ 32 - 1 }
    requires right { IsRight (setting.now.below + 1) condition }
    ensures value { IfOk result (λ x. seen_found x ≡ conditional_at setting.now least
        (view condition.entry.tree) condition.entry.rest.now) }
    ensures height { IfOk result (IsRight (setting.now.below + 1)) }
{
    if 2 < least || setting.below < condition.height {
        return Ok(condition);
    }
    let Some(choices) = choices(&expr, setting, condition.rest)? else {
        return Ok(condition);
    };
    choice(alloc, condition, choices)
}

// `e ? e : e`
fn choice<'a>(
    alloc: Global,
    condition: Found<'a, Expr>,
    choices: Alternatives<'a>,
) -> Result<Found<'a, Expr>, Memory>
    requires condition_right { condition.height ≡ height (view condition.tree) }
    requires choices_right { choices.height
        ≡ max (height (view choices.yes)) (height (view choices.no)) }
    requires fits { max condition.height choices.height < 2 ^ 32 - 1 }
    ensures value { IfOk result (λ x. seen_found x
        ≡ (
          tree.conditional (the_first_span condition.entry.rest.now)
              (view condition.entry.tree) (view choices.entry.yes) (view choices.entry.no)
              (joined (span_of (view condition.entry.tree)) (span_of (view choices.entry.no))),
          choices.entry.rest.now,
        )) }
    ensures height { IfOk result (IsAbove (max condition.entry.height choices.entry.height)) }
{
    let at = first_span(condition.rest);
    let span = join(span(&condition.tree), span(&choices.no));
    let test = boxed(alloc, condition.tree)?;
    let yes = boxed(alloc, choices.yes)?;
    let no = boxed(alloc, choices.no)?;
    Ok(Found {
        tree: make_expr(Expr::Conditional {
            at,
            condition: test,
            yes,
            no,
            span,
        }),
        height: condition.height.max(choices.height) + 1,
        rest: choices.rest,
    })
}

// `"?" Expr ":" Expr`, the second one no assignment
#[tactic(auto, unfolding(parse_laws::specs::way::Expressions::choices_at))]
fn choices<'a, E: Fn(Place<'a>) -> Read<'a, Expr>>(
    expr: E,
    setting: &Setting,
    tokens: &'a [Token],
) -> Result<Option<Alternatives<'a>>, Memory>
    requires callable { E.IsAlwaysCallable expr }
    requires reads { Reads setting.now (E.post expr) }
    ensures value { IfOk result (λ o. seen_choices o ≡ choices_at setting.now tokens.now) }
    ensures height { IfOk result (ChoicesHaveHeight setting.now.below) }
{
    let Some(first) = behind(tokens, Symbol::Question) else {
        return Ok(None);
    };
    let Some(yes) = expr(Place {
        tokens: first,
        least: 1,
    })?
    else {
        return Ok(None);
    };
    let Some(second) = behind(yes.rest, Symbol::Colon) else {
        return Ok(None);
    };
    let Some(no) = expr(Place {
        tokens: second,
        least: 2,
    })?
    else {
        return Ok(None);
    };
    Ok(Some(Alternatives {
        yes: yes.tree,
        no: no.tree,
        height: yes.height.max(no.height),
        rest: no.rest,
    }))
}
