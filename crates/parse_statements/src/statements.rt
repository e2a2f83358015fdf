// Reads a statement by its first token, and local variables.

ghost use Rattle.std.specs.Prelude.{◌≡◌, ◌+◌, ◌<◌, ◌^◌, IfOk};
ghost use Rattle.je_ast.specs.View.{statement_view};
ghost use Rattle.parse_types.specs.way.Views.{seen};
ghost use Rattle.parse_below.specs.way.Readers.{Reads, ReadsInitializers, ReadsStatements};
ghost use Rattle.parse_below.specs.way.Readers.{ReadsBlockStatements, ReadsBlocks};
ghost use Rattle.parse_below.specs.way.Views.{StatementHasHeight};
ghost use Rattle.parse_statements.specs.way.Readings.{statement_layer, inner_block_at, local_at};
ghost use Rattle.parse_statements.specs.way.Readings.{label_or_step_at};

use crate::blocks::block_statements;
use crate::declarators::variables;
use crate::fors::{for_statement, label_before_colon};
use crate::jumps::{
    break_statement, continue_statement, return_statement, step_statement, throw_statement,
};
use crate::switches::switch_statement;
use crate::tries::try_statement;
use je_ast::{Block, Expr, Stmt, make_block, make_local};
use je_token::{Keyword, Symbol, Token, TokenKind};
use parse_below::Setting;
use parse_branches::{do_statement, empty, if_statement, labelled, while_statement};
use parse_types::{Found, Place, Read, behind, final_word, first_span, join, type_name};
use std::alloc::Global;

/// The longest Stmt of height at most one more than what is below. `expr` reads an expression of height at most
/// `setting.below`, and the others what their names say.
#[tactic(auto, unfolding(parse_laws::specs::way::Statements::statement_layer))]
pub fn statement<
    'a,
    E: Fn(Place<'a>) -> Read<'a, Expr>,
    I: Fn(&'a [Token]) -> Read<'a, Expr>,
    S: Fn(&'a [Token]) -> Read<'a, Stmt>,
    B: Fn(&'a [Token]) -> Read<'a, Stmt>,
    K: Fn(&'a [Token]) -> Read<'a, Block>,
>(
    expr: &E,
    initializer: &I,
    stmt: &S,
    block_statement: &B,
    block: &K,
    alloc: Global,
    setting: &Setting,
    tokens: &'a [Token],
) -> Read<'a, Stmt>
    requires expr_callable { E.IsAlwaysCallable expr.now }
    requires expr_reads { Reads setting.now (E.post expr.now) }
    requires initializer_callable { I.IsAlwaysCallable initializer.now }
    requires initializer_reads { ReadsInitializers setting.now (I.post initializer.now) }
    requires stmt_callable { S.IsAlwaysCallable stmt.now }
    requires stmt_reads { ReadsStatements setting.now (S.post stmt.now) }
    requires block_statement_callable { B.IsAlwaysCallable block_statement.now }
    requires block_statement_reads { ReadsBlockStatements setting.now (B.post block_statement.now) }
    requires block_callable { K.IsAlwaysCallable block.now }
    requires block_reads { ReadsBlocks setting.now (K.post block.now) }
    requires room { setting.now.below + 1 < 2 ^ 32 }
    ensures value { IfOk result (λ o. seen statement_view o
        ≡ statement_layer setting.now tokens.now) }
    ensures height { IfOk result (StatementHasHeight (setting.now.below + 1)) }
{
    let Some((token, rest)) = tokens.split_first() else {
        return Ok(None);
    };
    let first = token.span;
    match token.kind {
        TokenKind::Symbol(Symbol::OpenBrace) => {
            inner_block(block_statement, alloc, setting, tokens)
        }
        TokenKind::Symbol(Symbol::Semicolon) => Ok(Some(Found {
            tree: empty(first),
            height: 1,
            rest,
        })),
        TokenKind::Keyword(Keyword::If) => { if_statement(expr, stmt, alloc, setting, first, rest) }
        TokenKind::Keyword(Keyword::While) => {
            while_statement(expr, stmt, alloc, setting, first, rest)
        }
        TokenKind::Keyword(Keyword::Do) => { do_statement(expr, stmt, alloc, setting, first, rest) }
        TokenKind::Keyword(Keyword::For) => {
            for_statement(expr, initializer, stmt, alloc, setting, first, rest)
        }
        TokenKind::Keyword(Keyword::Switch) => {
            switch_statement(expr, block_statement, alloc, setting, first, rest)
        }
        TokenKind::Keyword(Keyword::Break) => Ok(break_statement(setting, first, rest)),
        TokenKind::Keyword(Keyword::Continue) => Ok(continue_statement(setting, first, rest)),
        TokenKind::Keyword(Keyword::Return) => return_statement(expr, setting, first, rest),
        TokenKind::Keyword(Keyword::Throw) => throw_statement(expr, setting, first, rest),
        TokenKind::Keyword(Keyword::Try) => try_statement(block, alloc, setting, first, rest),
        _ => label_or_step(expr, stmt, alloc, setting, tokens),
    }
}

// A labelled statement, or an expression as a statement.
fn label_or_step<'a, E: Fn(Place<'a>) -> Read<'a, Expr>, S: Fn(&'a [Token]) -> Read<'a, Stmt>>(
    expr: &E,
    stmt: &S,
    alloc: Global,
    setting: &Setting,
    tokens: &'a [Token],
) -> Read<'a, Stmt>
    requires expr_callable { E.IsAlwaysCallable expr.now }
    requires expr_reads { Reads setting.now (E.post expr.now) }
    requires stmt_callable { S.IsAlwaysCallable stmt.now }
    requires stmt_reads { ReadsStatements setting.now (S.post stmt.now) }
    requires room { setting.now.below + 1 < 2 ^ 32 }
    ensures value { IfOk result
        (λ o. seen statement_view o ≡ label_or_step_at setting.now tokens.now) }
    ensures height { IfOk result (StatementHasHeight (setting.now.below + 1)) }
{
    match label_before_colon(tokens) {
        Some((label, body)) => labelled(stmt, alloc, setting, label, body),
        None => step_statement(expr, setting, tokens),
    }
}

// `"{" {BlockStmt} "}"`
#[tactic(auto, unfolding(parse_laws::specs::way::Statements::inner_block_at))]
fn inner_block<'a, B: Fn(&'a [Token]) -> Read<'a, Stmt>>(
    block_statement: &B,
    alloc: Global,
    setting: &Setting,
    tokens: &'a [Token],
) -> Read<'a, Stmt>
    requires callable { B.IsAlwaysCallable block_statement.now }
    requires reads { ReadsBlockStatements setting.now (B.post block_statement.now) }
    requires room { setting.now.below + 1 < 2 ^ 32 }
    ensures value { IfOk result (λ o. seen statement_view o
        ≡ inner_block_at setting.now tokens.now) }
    ensures height { IfOk result (StatementHasHeight (setting.now.below + 1)) }
{
    let Some(inside) = behind(tokens, Symbol::OpenBrace) else {
        return Ok(None);
    };
    let Some(found) = block_statements(block_statement, alloc, setting, inside)? else {
        return Ok(None);
    };
    Ok(Some(Found {
        tree: make_block(first_span(tokens), found.items, found.close),
        height: found.height + 1,
        rest: found.rest,
    }))
}

/// `["final"] Ty Var {"," Var} ";"`, of height at most one more than what is below.
#[tactic(auto, using(crate::proofs::Steps::no_variables_behind), unfolding(parse_laws::specs::way::Statements::local_at))]
pub fn local<'a, I: Fn(&'a [Token]) -> Read<'a, Expr>>(
    initializer: I,
    alloc: Global,
    setting: &Setting,
    tokens: &'a [Token],
) -> Read<'a, Stmt>
    requires callable { I.IsAlwaysCallable initializer }
    requires reads { ReadsInitializers setting.now (I.post initializer) }
    requires room { setting.now.below + 1 < 2 ^ 32 }
    ensures value { IfOk result (λ o. seen statement_view o ≡ local_at setting.now tokens.now) }
    ensures height { IfOk result (StatementHasHeight (setting.now.below + 1)) }
{
    let (is_final, typed) = final_word(tokens);
    let Some(ty) = type_name(alloc, typed, setting.below)? else {
        return Ok(None);
    };
    let Some(named) = ty.rest.whole() else {
        return Ok(None);
    };
    let Some(vars) = variables(&initializer, alloc, setting, named)? else {
        return Ok(None);
    };
    let Some(rest) = behind(vars.rest, Symbol::Semicolon) else {
        return Ok(None);
    };
    let first = first_span(tokens);
    let span = join(first, first_span(vars.rest));
    Ok(Some(Found {
        tree: make_local(first, is_final, ty.tree, vars.tree, span),
        height: ty.height.max(vars.height) + 1,
        rest,
    }))
}
