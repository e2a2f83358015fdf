// Reads `break`, `continue`, `return`, `throw`, and expressions as statements.

ghost use Rattle.std.specs.Prelude.{◌≡◌, ◌+◌, ◌<◌, ◌^◌, IfOk};
ghost use Rattle.je_ast.specs.View.{statement_view};
ghost use Rattle.parse_types.specs.way.Views.{seen};
ghost use Rattle.parse_below.specs.way.Readers.{Reads};
ghost use Rattle.parse_below.specs.way.Views.{StatementHasHeight};
ghost use Rattle.parse_statements.specs.way.Views.{seen_label};
ghost use Rattle.parse_statements.specs.way.Readings.{label_at, break_at, continue_at, return_at};
ghost use Rattle.parse_statements.specs.way.Readings.{throw_at, expression_statement_at};

use je_ast::{Expr, Identifier, Stmt, make_expression_statement, make_return};
use je_base::Span;
use je_token::{Symbol, Token};
use parse_below::Setting;
use parse_branches::{break_off, go_on, throw};
use parse_operators::is_step;
use parse_types::{Found, Place, Read, behind, first_span, identifier, join};

/// `"break" [id] ";"` behind the word `break`
#[tactic(auto, unfolding(parse_laws::specs::way::Statements::break_at))]
pub fn break_statement<'a>(
    setting: &Setting,
    first: Span,
    tokens: &'a [Token],
) -> Option<Found<'a, Stmt>>
    ensures value { seen statement_view result ≡ break_at setting.now first tokens.now }
    ensures height { StatementHasHeight 1 result }
{
    let (label, end) = label(tokens);
    let rest = behind(end, Symbol::Semicolon)?;
    let span = join(first, first_span(end));
    Some(Found {
        tree: break_off(first, label, span),
        height: 1,
        rest,
    })
}

/// `"continue" [id] ";"` behind the word `continue`
#[tactic(auto, unfolding(parse_laws::specs::way::Statements::continue_at))]
pub fn continue_statement<'a>(
    setting: &Setting,
    first: Span,
    tokens: &'a [Token],
) -> Option<Found<'a, Stmt>>
    ensures value { seen statement_view result ≡ continue_at setting.now first tokens.now }
    ensures height { StatementHasHeight 1 result }
{
    let (label, end) = label(tokens);
    let rest = behind(end, Symbol::Semicolon)?;
    let span = join(first, first_span(end));
    Some(Found {
        tree: go_on(first, label, span),
        height: 1,
        rest,
    })
}

// `[id]`, and the tokens behind it
fn label(tokens: &[Token]) -> (Option<Identifier>, &[Token])
    ensures { seen_label result ≡ label_at tokens.now }
{
    match identifier(tokens) {
        Some((label, rest)) => (Some(label), rest),
        None => (None, tokens),
    }
}

/// `"return" [Expr] ";"` behind the word `return`
#[tactic(auto, unfolding(parse_laws::specs::way::Statements::return_at))]
pub fn return_statement<'a, E: Fn(Place<'a>) -> Read<'a, Expr>>(
    expr: &E,
    setting: &Setting,
    first: Span,
    tokens: &'a [Token],
) -> Read<'a, Stmt>
    requires callable { E.IsAlwaysCallable expr.now }
    requires reads { Reads setting.now (E.post expr.now) }
    requires room { setting.now.below + 1 < 2 ^ 32 }
    ensures value { IfOk result
        (λ o. seen statement_view o ≡ return_at setting.now first tokens.now) }
    ensures height { IfOk result (StatementHasHeight (setting.now.below + 1)) }
{
    if let Some(rest) = behind(tokens, Symbol::Semicolon) {
        return Ok(Some(Found {
            tree: make_return(first, None, join(first, first_span(tokens))),
            height: 1,
            rest,
        }));
    }
    let Some(value) = expr(Place { tokens, least: 1 })? else {
        return Ok(None);
    };
    let Some(rest) = behind(value.rest, Symbol::Semicolon) else {
        return Ok(None);
    };
    let span = join(first, first_span(value.rest));
    Ok(Some(Found {
        tree: make_return(first, Some(value.tree), span),
        height: value.height + 1,
        rest,
    }))
}

/// `"throw" Expr ";"` behind the word `throw`
#[tactic(auto, unfolding(parse_laws::specs::way::Statements::throw_at))]
pub fn throw_statement<'a, E: Fn(Place<'a>) -> Read<'a, Expr>>(
    expr: &E,
    setting: &Setting,
    first: Span,
    tokens: &'a [Token],
) -> Read<'a, Stmt>
    requires callable { E.IsAlwaysCallable expr.now }
    requires reads { Reads setting.now (E.post expr.now) }
    requires room { setting.now.below + 1 < 2 ^ 32 }
    ensures value { IfOk result
        (λ o. seen statement_view o ≡ throw_at setting.now first tokens.now) }
    ensures height { IfOk result (StatementHasHeight (setting.now.below + 1)) }
{
    let Some(value) = expr(Place { tokens, least: 1 })? else {
        return Ok(None);
    };
    let Some(rest) = behind(value.rest, Symbol::Semicolon) else {
        return Ok(None);
    };
    let span = join(first, first_span(value.rest));
    Ok(Some(Found {
        tree: throw(first, value.tree, span),
        height: value.height + 1,
        rest,
    }))
}

/// An assignment, `++`, `--`, call or object creation, and a `;`
#[tactic(auto, unfolding(parse_laws::specs::way::Statements::expression_statement_at))]
pub fn step_statement<'a, E: Fn(Place<'a>) -> Read<'a, Expr>>(
    expr: &E,
    setting: &Setting,
    tokens: &'a [Token],
) -> Read<'a, Stmt>
    requires callable { E.IsAlwaysCallable expr.now }
    requires reads { Reads setting.now (E.post expr.now) }
    requires room { setting.now.below + 1 < 2 ^ 32 }
    ensures value { IfOk result
        (λ o. seen statement_view o ≡ expression_statement_at setting.now tokens.now) }
    ensures height { IfOk result (StatementHasHeight (setting.now.below + 1)) }
{
    let Some(step) = expr(Place { tokens, least: 1 })? else {
        return Ok(None);
    };
    let Some(rest) = behind(step.rest, Symbol::Semicolon) else {
        return Ok(None);
    };
    if !is_step(&step.tree) {
        return Ok(None);
    }
    let first = first_span(tokens);
    let span = join(first, first_span(step.rest));
    Ok(Some(Found {
        tree: make_expression_statement(first, step.tree, span),
        height: step.height + 1,
        rest,
    }))
}
