// Reads `for` statements.

ghost use Rattle.std.specs.Prelude.{◌≡◌, ◌+◌, ◌<◌, ◌≤◌, ◌^◌, IfOk, map};
ghost use Rattle.je_ast.specs.View.{statement_view, for_initializer_view, view_of_option};
ghost use Rattle.je_ast.specs.Height.{height_if, heights, for_initializer_height};
ghost use Rattle.parse_laws.specs.way.Statements.{label_before, is_for_each_at};
ghost use Rattle.parse_types.specs.way.Views.{seen, read_of, HasHeight};
ghost use Rattle.parse_below.specs.way.Readers.{Reads, ReadsInitializers, ReadsStatements};
ghost use Rattle.parse_below.specs.way.Views.{StatementHasHeight};
ghost use Rattle.parse_statements.specs.way.Views.{expressions_view};
ghost use Rattle.parse_statements.specs.way.Readings.{for_at, for_each_at, plain_for_at, start_at};
ghost use Rattle.parse_statements.specs.way.Readings.{start_locals_at, ended_condition_at};
ghost use Rattle.parse_statements.specs.way.Readings.{steps_before_at};

use crate::declarators::{begins_local, variables};
use je_ast::{Expr, ForInit, Identifier, Stmt, make_locals, make_steps};
use je_base::Span;
use je_token::{Keyword, Symbol, Token};
use parse_below::Setting;
use parse_branches::{each_loop, for_loop};
use parse_operators::is_step;
use parse_types::{
    Found, Place, Read, behind, final_word, identifier, is_word, past_type, type_name,
};
use std::alloc::Global;

/// Both forms of `for`, behind the word.
#[tactic(auto, unfolding(parse_laws::specs::way::Statements::for_at))]
pub fn for_statement<
    'a,
    E: Fn(Place<'a>) -> Read<'a, Expr>,
    I: Fn(&'a [Token]) -> Read<'a, Expr>,
    S: Fn(&'a [Token]) -> Read<'a, Stmt>,
>(
    expr: &E,
    initializer: &I,
    stmt: &S,
    alloc: Global,
    setting: &Setting,
    first: Span,
    tokens: &'a [Token],
) -> Read<'a, Stmt>
    requires expr_callable { E.IsAlwaysCallable expr.now }
    requires expr_reads { Reads setting.now (E.post expr.now) }
    requires initializer_callable { I.IsAlwaysCallable initializer.now }
    requires initializer_reads { ReadsInitializers setting.now (I.post initializer.now) }
    requires stmt_callable { S.IsAlwaysCallable stmt.now }
    requires stmt_reads { ReadsStatements setting.now (S.post stmt.now) }
    requires room { setting.now.below + 1 < 2 ^ 32 }
    ensures value { IfOk result (λ o. seen statement_view o ≡ for_at setting.now first tokens.now) }
    ensures height { IfOk result (StatementHasHeight (setting.now.below + 1)) }
{
    let Some(inside) = behind(tokens, Symbol::OpenParen) else {
        return Ok(None);
    };
    if is_for_each(inside, setting.below) {
        for_each(expr, stmt, alloc, setting, first, inside)
    } else {
        plain_for(expr, initializer, stmt, alloc, setting, first, inside)
    }
}

/// `id ":"`: the identifier, and the tokens behind the `:`.
pub fn label_before_colon(tokens: &[Token]) -> Option<(Identifier, &[Token])>
    ensures { read_of result ≡ label_before tokens.now }
{
    let (label, rest) = identifier(tokens)?;
    Some((label, behind(rest, Symbol::Colon)?))
}

// Whether `["final"] Ty id ":"` stands here, with a type of at most this height.
#[tactic(auto, unfolding(parse_laws::specs::way::Statements::is_for_each_at))]
fn is_for_each(tokens: &[Token], most: u32) -> bool
    ensures { result ≡ is_for_each_at most tokens.now }
{
    let (_, typed) = final_word(tokens);
    let Some(rest) = past_type(typed, most) else {
        return false;
    };
    match rest.whole() {
        Some(named) => label_before_colon(named).is_some(),
        None => false,
    }
}

// `["final"] Ty id ":" Expr ")" Stmt`
#[tactic(auto, unfolding(parse_laws::specs::way::Statements::for_each_at))]
fn for_each<'a, E: Fn(Place<'a>) -> Read<'a, Expr>, S: Fn(&'a [Token]) -> Read<'a, Stmt>>(
    expr: &E,
    stmt: &S,
    alloc: Global,
    setting: &Setting,
    first: Span,
    tokens: &'a [Token],
) -> Read<'a, Stmt>
    requires expr_callable { E.IsAlwaysCallable expr.now }
    requires expr_reads { Reads setting.now (E.post expr.now) }
    requires stmt_callable { S.IsAlwaysCallable stmt.now }
    requires stmt_reads { ReadsStatements setting.now (S.post stmt.now) }
    requires room { setting.now.below + 1 < 2 ^ 32 }
    ensures value { IfOk result
        (λ o. seen statement_view o ≡ for_each_at setting.now first tokens.now) }
    ensures height { IfOk result (StatementHasHeight (setting.now.below + 1)) }
{
    let (is_final, typed) = final_word(tokens);
    let Some(ty) = type_name(alloc, typed, setting.below)? else {
        return Ok(None);
    };
    let Some(named) = ty.rest.whole() else {
        return Ok(None);
    };
    let Some((name, value)) = label_before_colon(named) else {
        return Ok(None);
    };
    let Some(array) = expr(Place {
        tokens: value,
        least: 1,
    })?
    else {
        return Ok(None);
    };
    let Some(rest) = behind(array.rest, Symbol::CloseParen) else {
        return Ok(None);
    };
    let Some(body) = stmt(rest)? else {
        return Ok(None);
    };
    Ok(Some(Found {
        tree: each_loop(alloc, first, is_final, ty.tree, name, array.tree, body.tree)?,
        height: ty.height.max(array.height.max(body.height)) + 1,
        rest: body.rest,
    }))
}

// `[ForInit] ";" [Expr] ";" [Steps] ")" Stmt`
#[tactic(auto, unfolding(parse_laws::specs::way::Statements::plain_for_at))]
fn plain_for<
    'a,
    E: Fn(Place<'a>) -> Read<'a, Expr>,
    I: Fn(&'a [Token]) -> Read<'a, Expr>,
    S: Fn(&'a [Token]) -> Read<'a, Stmt>,
>(
    expr: &E,
    initializer: &I,
    stmt: &S,
    alloc: Global,
    setting: &Setting,
    first: Span,
    tokens: &'a [Token],
) -> Read<'a, Stmt>
    requires expr_callable { E.IsAlwaysCallable expr.now }
    requires expr_reads { Reads setting.now (E.post expr.now) }
    requires initializer_callable { I.IsAlwaysCallable initializer.now }
    requires initializer_reads { ReadsInitializers setting.now (I.post initializer.now) }
    requires stmt_callable { S.IsAlwaysCallable stmt.now }
    requires stmt_reads { ReadsStatements setting.now (S.post stmt.now) }
    requires room { setting.now.below + 1 < 2 ^ 32 }
    ensures value { IfOk result
        (λ o. seen statement_view o ≡ plain_for_at setting.now first tokens.now) }
    ensures height { IfOk result (StatementHasHeight (setting.now.below + 1)) }
{
    let Some(init) = start(expr, initializer, alloc, setting, tokens)? else {
        return Ok(None);
    };
    let Some(condition) = ended_condition(expr, setting, init.rest)? else {
        return Ok(None);
    };
    let Some(steps) = steps_before(expr, alloc, setting, Symbol::CloseParen, condition.rest)? else {
        return Ok(None);
    };
    let Some(body) = stmt(steps.rest)? else {
        return Ok(None);
    };
    let height = init
        .height
        .max(condition.height.max(steps.height.max(body.height)));
    Ok(Some(Found {
        tree: for_loop(
            alloc,
            first,
            init.tree,
            condition.tree,
            steps.tree,
            body.tree,
        )?,
        height: height + 1,
        rest: body.rest,
    }))
}

// `[ForInit] ";"`
#[tactic(auto, unfolding(parse_laws::specs::way::Statements::start_at))]
fn start<'a, E: Fn(Place<'a>) -> Read<'a, Expr>, I: Fn(&'a [Token]) -> Read<'a, Expr>>(
    expr: &E,
    initializer: &I,
    alloc: Global,
    setting: &Setting,
    tokens: &'a [Token],
) -> Read<'a, ForInit>
    requires expr_callable { E.IsAlwaysCallable expr.now }
    requires expr_reads { Reads setting.now (E.post expr.now) }
    requires initializer_callable { I.IsAlwaysCallable initializer.now }
    requires initializer_reads { ReadsInitializers setting.now (I.post initializer.now) }
    ensures value { IfOk result
        (λ o. seen for_initializer_view o ≡ start_at setting.now tokens.now) }
    ensures height { IfOk result
        (HasHeight (λ i. for_initializer_height (for_initializer_view i)) setting.now.below) }
{
    if is_word(tokens, Keyword::Final) || begins_local(tokens, setting.below) {
        return start_locals(initializer, alloc, setting, tokens);
    }
    let Some(steps) = steps_before(expr, alloc, setting, Symbol::Semicolon, tokens)? else {
        return Ok(None);
    };
    Ok(Some(Found {
        tree: make_steps(steps.tree),
        height: steps.height,
        rest: steps.rest,
    }))
}

// `["final"] Ty Var {"," Var} ";"`
#[tactic(auto, using(crate::proofs::Steps::no_variables_behind), unfolding(parse_laws::specs::way::Statements::start_locals_at))]
fn start_locals<'a, I: Fn(&'a [Token]) -> Read<'a, Expr>>(
    initializer: &I,
    alloc: Global,
    setting: &Setting,
    tokens: &'a [Token],
) -> Read<'a, ForInit>
    requires callable { I.IsAlwaysCallable initializer.now }
    requires reads { ReadsInitializers setting.now (I.post initializer.now) }
    ensures value { IfOk result
        (λ o. seen for_initializer_view o ≡ start_locals_at setting.now tokens.now) }
    ensures height { IfOk result
        (HasHeight (λ i. for_initializer_height (for_initializer_view i)) setting.now.below) }
{
    let (is_final, typed) = final_word(tokens);
    let Some(ty) = type_name(alloc, typed, setting.below)? else {
        return Ok(None);
    };
    let Some(named) = ty.rest.whole() else {
        return Ok(None);
    };
    let Some(vars) = variables(initializer, alloc, setting, named)? else {
        return Ok(None);
    };
    let Some(rest) = behind(vars.rest, Symbol::Semicolon) else {
        return Ok(None);
    };
    Ok(Some(Found {
        tree: make_locals(is_final, ty.tree, vars.tree),
        height: ty.height.max(vars.height),
        rest,
    }))
}

// `[Expr] ";"`
#[tactic(auto, unfolding(parse_laws::specs::way::Statements::ended_condition_at))]
fn ended_condition<'a, E: Fn(Place<'a>) -> Read<'a, Expr>>(
    expr: &E,
    setting: &Setting,
    tokens: &'a [Token],
) -> Read<'a, Option<Expr>>
    requires callable { E.IsAlwaysCallable expr.now }
    requires reads { Reads setting.now (E.post expr.now) }
    ensures value { IfOk result
        (λ o. seen view_of_option o ≡ ended_condition_at setting.now tokens.now) }
    ensures height { IfOk result
        (HasHeight (λ e. height_if (view_of_option e)) setting.now.below) }
{
    if let Some(rest) = behind(tokens, Symbol::Semicolon) {
        return Ok(Some(Found {
            tree: None,
            height: 0,
            rest,
        }));
    }
    let Some(found) = expr(Place { tokens, least: 1 })? else {
        return Ok(None);
    };
    let Some(rest) = behind(found.rest, Symbol::Semicolon) else {
        return Ok(None);
    };
    Ok(Some(Found {
        tree: Some(found.tree),
        height: found.height,
        rest,
    }))
}

// `[Step {"," Step}]` and this symbol
#[tactic(auto, using(crate::proofs::Steps::steps_step, crate::proofs::Steps::steps_none, crate::proofs::Lists::expressions_same, crate::proofs::Lists::expressions_push, crate::proofs::Lists::expressions_height_push), unfolding(parse_laws::specs::way::Statements::steps_before_at))]
fn steps_before<'a, E: Fn(Place<'a>) -> Read<'a, Expr>>(
    expr: &E,
    alloc: Global,
    setting: &Setting,
    end: Symbol,
    tokens: &'a [Token],
) -> Read<'a, Vec<Expr>>
    requires callable { E.IsAlwaysCallable expr.now }
    requires reads { Reads setting.now (E.post expr.now) }
    ensures value { IfOk result
        (λ o. seen expressions_view o ≡ steps_before_at setting.now end tokens.now) }
    ensures height { IfOk result
        (HasHeight (λ es. heights (expressions_view es)) setting.now.below) }
{
    let mut list = Vec::new(alloc);
    if let Some(rest) = behind(tokens, end) {
        return Ok(Some(Found {
            tree: list,
            height: 0,
            rest,
        }));
    }
    let mut height = 0;
    let mut next = tokens;
    for _ in 0..tokens.len() {
        let Some(step) = expr(Place {
            tokens: next,
            least: 1,
        })?
        else {
            return Ok(None);
        };
        if !is_step(&step.tree) {
            return Ok(None);
        }
        list.push(step.tree)?;
        height = height.max(step.height);
        if let Some(behind_comma) = behind(step.rest, Symbol::Comma) {
            next = behind_comma;
            continue;
        }
        let Some(rest) = behind(step.rest, end) else {
            return Ok(None);
        };
        return Ok(Some(Found {
            tree: list,
            height,
            rest,
        }));
    }
    Ok(None)
}
