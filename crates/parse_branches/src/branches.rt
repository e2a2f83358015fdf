// Reads `if`, `while`, `do` and labelled statements.

ghost use Rattle.std.specs.Prelude.{◌≡◌, ◌+◌, ◌<◌, ◌^◌, IfOk};
ghost use Rattle.je_ast.specs.View.{view, statement_view};
ghost use Rattle.parse_types.specs.way.Views.{seen};
ghost use Rattle.parse_below.specs.way.Readers.{Reads, ReadsStatements};
ghost use Rattle.parse_below.specs.way.Views.{HasHeights, StatementHasHeight};
ghost use Rattle.parse_branches.specs.way.Readings.{condition_at, else_at, if_at, while_at, do_at, labelled_at};

use crate::making::{do_loop, if_else, if_only, while_loop, with_label};
use crate::shape::ends_short;
use je_ast::{Expr, Identifier, Stmt};
use je_base::Span;
use je_token::{Keyword, Symbol, Token};
use parse_below::Setting;
use parse_types::{Found, Place, Read, behind, behind_word, first_span};
use std::alloc::Global;

/// `"(" Expr ")"`
#[tactic(auto, unfolding(parse_laws::specs::way::Statements::condition_at))]
pub fn condition<'a, E: Fn(Place<'a>) -> Read<'a, Expr>>(
    expr: &E,
    setting: &Setting,
    tokens: &'a [Token],
) -> Read<'a, Expr>
    requires callable { E.IsAlwaysCallable expr.now }
    requires reads { Reads setting.now (E.post expr.now) }
    ensures value { IfOk result (λ o. seen view o ≡ condition_at setting.now tokens.now) }
    ensures height { IfOk result (HasHeights setting.now.below) }
{
    let Some(inside) = behind(tokens, Symbol::OpenParen) else {
        return Ok(None);
    };
    let Some(found) = expr(Place {
        tokens: inside,
        least: 1,
    })?
    else {
        return Ok(None);
    };
    let Some(rest) = behind(found.rest, Symbol::CloseParen) else {
        return Ok(None);
    };
    Ok(Some(Found {
        tree: found.tree,
        height: found.height,
        rest,
    }))
}

/// `"if" "(" Expr ")" Stmt ["else" Stmt]` behind the word `if`, without the `else` where it belongs to an inner `if` or can't
/// be read.
#[tactic(auto, unfolding(parse_laws::specs::way::Statements::if_at))]
pub fn if_statement<'a, E: Fn(Place<'a>) -> Read<'a, Expr>, S: Fn(&'a [Token]) -> Read<'a, Stmt>>(
    expr: &E,
    stmt: &S,
    alloc: Global,
    setting: &Setting,
    first: Span,
    tokens: &'a [Token],
) -> Read<'a, Stmt>
    requires expr_callable { E.IsAlwaysCallable expr.now }
    requires expr_reads { Reads setting.now (E.post expr.now) }
    requires stmt_callable { S.IsAlwaysCallable stmt.now }
    requires stmt_reads { ReadsStatements setting.now (S.post stmt.now) }
    requires room { setting.now.below + 1 < 2 ^ 32 }
    ensures value { IfOk result
        (λ o. seen statement_view o ≡ if_at setting.now first tokens.now) }
    ensures height { IfOk result (StatementHasHeight (setting.now.below + 1)) }
{
    let Some(condition) = condition(expr, setting, tokens)? else {
        return Ok(None);
    };
    let Some(yes) = stmt(condition.rest)? else {
        return Ok(None);
    };
    let height = condition.height.max(yes.height);
    if let Some(no) = else_branch(stmt, setting, &yes)? {
        return Ok(Some(Found {
            tree: if_else(alloc, first, condition.tree, yes.tree, no.tree)?,
            height: height.max(no.height) + 1,
            rest: no.rest,
        }));
    }
    Ok(Some(Found {
        tree: if_only(alloc, first, condition.tree, yes.tree)?,
        height: height + 1,
        rest: yes.rest,
    }))
}

// The statement behind the `else` that follows a branch, where that `else` is not an inner `if`'s.
#[tactic(auto, unfolding(parse_laws::specs::way::Statements::else_at))]
fn else_branch<'a, S: Fn(&'a [Token]) -> Read<'a, Stmt>>(
    stmt: &S,
    setting: &Setting,
    yes: &Found<'a, Stmt>,
) -> Read<'a, Stmt>
    requires callable { S.IsAlwaysCallable stmt.now }
    requires reads { ReadsStatements setting.now (S.post stmt.now) }
    ensures value { IfOk result (λ o. seen statement_view o
        ≡ else_at setting.now (statement_view yes.now.tree) yes.now.rest.now) }
    ensures height { IfOk result (StatementHasHeight setting.now.below) }
{
    if ends_short(&yes.tree) {
        return Ok(None);
    }
    match behind_word(yes.rest, Keyword::Else) {
        Some(rest) => stmt(rest),
        None => Ok(None),
    }
}

/// `"while" "(" Expr ")" Stmt` behind the word `while`
#[tactic(auto, unfolding(parse_laws::specs::way::Statements::while_at))]
pub fn while_statement<
    'a,
    E: Fn(Place<'a>) -> Read<'a, Expr>,
    S: Fn(&'a [Token]) -> Read<'a, Stmt>,
>(
    expr: &E,
    stmt: &S,
    alloc: Global,
    setting: &Setting,
    first: Span,
    tokens: &'a [Token],
) -> Read<'a, Stmt>
    requires expr_callable { E.IsAlwaysCallable expr.now }
    requires expr_reads { Reads setting.now (E.post expr.now) }
    requires stmt_callable { S.IsAlwaysCallable stmt.now }
    requires stmt_reads { ReadsStatements setting.now (S.post stmt.now) }
    requires room { setting.now.below + 1 < 2 ^ 32 }
    ensures value { IfOk result
        (λ o. seen statement_view o ≡ while_at setting.now first tokens.now) }
    ensures height { IfOk result (StatementHasHeight (setting.now.below + 1)) }
{
    let Some(condition) = condition(expr, setting, tokens)? else {
        return Ok(None);
    };
    let Some(body) = stmt(condition.rest)? else {
        return Ok(None);
    };
    Ok(Some(Found {
        tree: while_loop(alloc, first, condition.tree, body.tree)?,
        height: condition.height.max(body.height) + 1,
        rest: body.rest,
    }))
}

/// `"do" Stmt "while" "(" Expr ")" ";"` behind the word `do`
#[tactic(auto, unfolding(parse_laws::specs::way::Statements::do_at))]
pub fn do_statement<'a, E: Fn(Place<'a>) -> Read<'a, Expr>, S: Fn(&'a [Token]) -> Read<'a, Stmt>>(
    expr: &E,
    stmt: &S,
    alloc: Global,
    setting: &Setting,
    first: Span,
    tokens: &'a [Token],
) -> Read<'a, Stmt>
    requires expr_callable { E.IsAlwaysCallable expr.now }
    requires expr_reads { Reads setting.now (E.post expr.now) }
    requires stmt_callable { S.IsAlwaysCallable stmt.now }
    requires stmt_reads { ReadsStatements setting.now (S.post stmt.now) }
    requires room { setting.now.below + 1 < 2 ^ 32 }
    ensures value { IfOk result (λ o. seen statement_view o ≡ do_at setting.now first tokens.now) }
    ensures height { IfOk result (StatementHasHeight (setting.now.below + 1)) }
{
    let Some(body) = stmt(tokens)? else {
        return Ok(None);
    };
    let Some(test) = behind_word(body.rest, Keyword::While) else {
        return Ok(None);
    };
    let Some(condition) = condition(expr, setting, test)? else {
        return Ok(None);
    };
    let Some(rest) = behind(condition.rest, Symbol::Semicolon) else {
        return Ok(None);
    };
    let end = first_span(condition.rest);
    Ok(Some(Found {
        tree: do_loop(alloc, first, body.tree, condition.tree, end)?,
        height: body.height.max(condition.height) + 1,
        rest,
    }))
}

/// `id ":" Stmt` behind the `:`
#[tactic(auto, unfolding(parse_laws::specs::way::Statements::labelled_at))]
pub fn labelled<'a, S: Fn(&'a [Token]) -> Read<'a, Stmt>>(
    stmt: &S,
    alloc: Global,
    setting: &Setting,
    label: Identifier,
    tokens: &'a [Token],
) -> Read<'a, Stmt>
    requires callable { S.IsAlwaysCallable stmt.now }
    requires reads { ReadsStatements setting.now (S.post stmt.now) }
    requires room { setting.now.below + 1 < 2 ^ 32 }
    ensures value { IfOk result
        (λ o. seen statement_view o ≡ labelled_at setting.now label tokens.now) }
    ensures height { IfOk result (StatementHasHeight (setting.now.below + 1)) }
{
    let Some(body) = stmt(tokens)? else {
        return Ok(None);
    };
    Ok(Some(Found {
        tree: with_label(alloc, label, body.tree)?,
        height: body.height + 1,
        rest: body.rest,
    }))
}
