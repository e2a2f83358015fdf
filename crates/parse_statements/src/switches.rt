// Reads `switch`.

ghost use Rattle.std.specs.Prelude.{◌≡◌, ◌+◌, ◌<◌, ◌≤◌, ◌^◌, IfOk, length, []};
ghost use Rattle.je_ast.specs.View.{statement_view, statement_views_of};
ghost use Rattle.je_ast.specs.Height.{labels_height, statements_height};
ghost use Rattle.parse_laws.specs.way.Statements.{begins_label as label_begins};
ghost use Rattle.parse_types.specs.way.Views.{seen, HasHeight};
ghost use Rattle.parse_below.specs.way.Readers.{Reads, ReadsBlockStatements};
ghost use Rattle.parse_below.specs.way.Views.{StatementHasHeight};
ghost use Rattle.parse_statements.specs.way.Views.{label_tree, label_height, labels_view};
ghost use Rattle.parse_statements.specs.way.Views.{group_tree, group_height, seen_groups};
ghost use Rattle.parse_statements.specs.way.Views.{GroupsHaveHeights, statements_view};
ghost use Rattle.parse_statements.specs.way.Readings.{switch_at, groups_at, group_at, labels_at};
ghost use Rattle.parse_statements.specs.way.Readings.{switch_label_at, group_statements_at};

use je_ast::{Expr, Group, Label, Stmt, make_switch};
use je_base::Span;
use je_token::{Keyword, Symbol, Token};
use parse_below::Setting;
use parse_branches::condition;
use parse_types::{
    Closed, Found, Place, Read, ReadClosed, behind, behind_word, first_span, is_symbol, is_word,
    join,
};
use std::alloc::Global;

/// `"switch" "(" Expr ")" "{" {Group} {Label} "}"` behind the word `switch`
#[tactic(auto, unfolding(parse_laws::specs::way::Statements::switch_at))]
pub fn switch_statement<
    'a,
    E: Fn(Place<'a>) -> Read<'a, Expr>,
    B: Fn(&'a [Token]) -> Read<'a, Stmt>,
>(
    expr: &E,
    block_statement: &B,
    alloc: Global,
    setting: &Setting,
    first: Span,
    tokens: &'a [Token],
) -> Read<'a, Stmt>
    requires expr_callable { E.IsAlwaysCallable expr.now }
    requires expr_reads { Reads setting.now (E.post expr.now) }
    requires block_statement_callable { B.IsAlwaysCallable block_statement.now }
    requires block_statement_reads { ReadsBlockStatements setting.now (B.post block_statement.now) }
    requires room { setting.now.below + 1 < 2 ^ 32 }
    ensures value { IfOk result
        (λ o. seen statement_view o ≡ switch_at setting.now first tokens.now) }
    ensures height { IfOk result (StatementHasHeight (setting.now.below + 1)) }
{
    let Some(selector) = condition(expr, setting, tokens)? else {
        return Ok(None);
    };
    let Some(inside) = behind(selector.rest, Symbol::OpenBrace) else {
        return Ok(None);
    };
    let Some(groups) = groups(expr, block_statement, alloc, setting, inside)? else {
        return Ok(None);
    };
    let span = join(first, groups.close);
    Ok(Some(Found {
        tree: make_switch(first, selector.tree, groups.items, span),
        height: selector.height.max(groups.height) + 1,
        rest: groups.rest,
    }))
}

// `{Group} {Label} "}"`
#[tactic(auto, using(crate::proofs::Steps::groups_step, crate::proofs::Steps::groups_none, crate::proofs::Lists::groups_same, crate::proofs::Lists::groups_push, crate::proofs::Lists::groups_height_push))]
fn groups<'a, E: Fn(Place<'a>) -> Read<'a, Expr>, B: Fn(&'a [Token]) -> Read<'a, Stmt>>(
    expr: &E,
    block_statement: &B,
    alloc: Global,
    setting: &Setting,
    tokens: &'a [Token],
) -> ReadClosed<'a, Group>
    requires expr_callable { E.IsAlwaysCallable expr.now }
    requires expr_reads { Reads setting.now (E.post expr.now) }
    requires block_statement_callable { B.IsAlwaysCallable block_statement.now }
    requires block_statement_reads { ReadsBlockStatements setting.now (B.post block_statement.now) }
    ensures value { IfOk result
        (λ o. seen_groups o ≡ groups_at setting.now (length tokens.now) [] tokens.now) }
    ensures height { IfOk result (GroupsHaveHeights setting.now.below) }
{
    let mut items = Vec::new(alloc);
    let mut height = 0;
    let mut next = tokens;
    for _ in 0..tokens.len() {
        if let Some(rest) = behind(next, Symbol::CloseBrace) {
            return Ok(Some(Closed {
                items,
                height,
                close: first_span(next),
                rest,
            }));
        }
        let Some(found) = group(expr, block_statement, alloc, setting, next)? else {
            return Ok(None);
        };
        items.push(found.tree)?;
        height = height.max(found.height);
        next = found.rest;
    }
    Ok(None)
}

// `Label {Label} BlockStmt {BlockStmt}`, or labels alone before the `}`
#[tactic(auto, unfolding(parse_laws::specs::way::Statements::group_at))]
fn group<'a, E: Fn(Place<'a>) -> Read<'a, Expr>, B: Fn(&'a [Token]) -> Read<'a, Stmt>>(
    expr: &E,
    block_statement: &B,
    alloc: Global,
    setting: &Setting,
    tokens: &'a [Token],
) -> Read<'a, Group>
    requires expr_callable { E.IsAlwaysCallable expr.now }
    requires expr_reads { Reads setting.now (E.post expr.now) }
    requires block_statement_callable { B.IsAlwaysCallable block_statement.now }
    requires block_statement_reads { ReadsBlockStatements setting.now (B.post block_statement.now) }
    ensures value { IfOk result (λ o. seen group_tree o ≡ group_at setting.now tokens.now) }
    ensures height { IfOk result (HasHeight group_height setting.now.below) }
{
    let Some(labels) = labels(expr, alloc, setting, tokens)? else {
        return Ok(None);
    };
    let Some(stmts) = group_statements(block_statement, alloc, setting, labels.rest)? else {
        return Ok(None);
    };
    Ok(Some(Found {
        tree: Group {
            labels: labels.tree,
            stmts: stmts.tree,
        },
        height: labels.height.max(stmts.height),
        rest: stmts.rest,
    }))
}

// `Label {Label}`
#[tactic(auto, using(crate::proofs::Steps::labels_step, crate::proofs::Steps::labels_none, crate::proofs::Lists::labels_same, crate::proofs::Lists::labels_push, crate::proofs::Lists::labels_height_push))]
fn labels<'a, E: Fn(Place<'a>) -> Read<'a, Expr>>(
    expr: &E,
    alloc: Global,
    setting: &Setting,
    tokens: &'a [Token],
) -> Read<'a, Vec<Label>>
    requires callable { E.IsAlwaysCallable expr.now }
    requires reads { Reads setting.now (E.post expr.now) }
    ensures value { IfOk result
        (λ o. seen labels_view o ≡ labels_at setting.now (length tokens.now) [] tokens.now) }
    ensures height { IfOk result
        (HasHeight (λ ls. labels_height (labels_view ls)) setting.now.below) }
{
    let mut list = Vec::new(alloc);
    let mut height = 0;
    let mut next = tokens;
    for _ in 0..tokens.len() {
        let Some(found) = label(expr, setting, next)? else {
            return Ok(None);
        };
        list.push(found.tree)?;
        height = height.max(found.height);
        next = found.rest;
        if !begins_label(next) {
            return Ok(Some(Found {
                tree: list,
                height,
                rest: next,
            }));
        }
    }
    Ok(None)
}

// Whether `case` or `default` stands here.
fn begins_label(tokens: &[Token]) -> bool
    ensures { result ≡ label_begins tokens.now }
{
    is_word(tokens, Keyword::Case) || is_word(tokens, Keyword::Default)
}

// `"case" Expr ":" | "default" ":"`
#[tactic(auto, unfolding(parse_laws::specs::way::Statements::switch_label_at, crate::specs::way::Views::label_height))]
fn label<'a, E: Fn(Place<'a>) -> Read<'a, Expr>>(
    expr: &E,
    setting: &Setting,
    tokens: &'a [Token],
) -> Read<'a, Label>
    requires callable { E.IsAlwaysCallable expr.now }
    requires reads { Reads setting.now (E.post expr.now) }
    ensures value { IfOk result (λ o. seen label_tree o ≡ switch_label_at setting.now tokens.now) }
    ensures height { IfOk result (HasHeight label_height setting.now.below) }
{
    if let Some(end) = behind_word(tokens, Keyword::Default) {
        let Some(rest) = behind(end, Symbol::Colon) else {
            return Ok(None);
        };
        let word = first_span(tokens);
        return Ok(Some(Found {
            tree: Label::Default { word },
            height: 0,
            rest,
        }));
    }
    let Some(case) = behind_word(tokens, Keyword::Case) else {
        return Ok(None);
    };
    let Some(value) = expr(Place {
        tokens: case,
        least: 1,
    })?
    else {
        return Ok(None);
    };
    let Some(rest) = behind(value.rest, Symbol::Colon) else {
        return Ok(None);
    };
    Ok(Some(Found {
        tree: Label::Case { value: value.tree },
        height: value.height,
        rest,
    }))
}

// `{BlockStmt}` up to a label or `}`
#[tactic(auto, using(crate::proofs::Steps::group_statements_step, crate::proofs::Steps::group_statements_none, crate::proofs::Lists::statements_same, crate::proofs::Lists::statements_push, crate::proofs::Lists::statements_height_push))]
fn group_statements<'a, B: Fn(&'a [Token]) -> Read<'a, Stmt>>(
    block_statement: &B,
    alloc: Global,
    setting: &Setting,
    tokens: &'a [Token],
) -> Read<'a, Vec<Stmt>>
    requires callable { B.IsAlwaysCallable block_statement.now }
    requires reads { ReadsBlockStatements setting.now (B.post block_statement.now) }
    ensures value { IfOk result (λ o. seen statements_view o
        ≡ group_statements_at setting.now (length tokens.now) [] tokens.now) }
    ensures height { IfOk result
        (HasHeight (λ bs. statements_height (statements_view bs)) setting.now.below) }
{
    let mut list = Vec::new(alloc);
    let mut height = 0;
    let mut next = tokens;
    for _ in 0..tokens.len() {
        if begins_label(next) || is_symbol(next, Symbol::CloseBrace) {
            return Ok(Some(Found {
                tree: list,
                height,
                rest: next,
            }));
        }
        let Some(found) = block_statement(next)? else {
            return Ok(None);
        };
        list.push(found.tree)?;
        height = height.max(found.height);
        next = found.rest;
    }
    Ok(None)
}
