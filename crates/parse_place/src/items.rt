// Reads what may stand in each context.

ghost use Rattle.std.specs.Prelude.{◌≡◌, ℕ, List, IfOk};
ghost use Rattle.parse_laws.specs.way.Knot.{import_at};
ghost use Rattle.parse_types.specs.way.Views.{seen_name};
ghost use Rattle.parse_below.specs.way.Readers.{Reads, ReadsMembers, ReadsBlockStatements};
ghost use Rattle.parse_place.specs.way.Readers.{ReadsDeclarations};
ghost use Rattle.parse_place.specs.way.Readings.{declared_item_at, member_item_at};
ghost use Rattle.parse_place.specs.way.Readings.{statement_item_at, first_item_at, item_at};
ghost use Rattle.parse_place.specs.way.Views.{context_view, seen_step};

use crate::contexts::{Context, Step};
use je_ast::{Decl, Expr, Member, Name, Stmt};
use je_base::Memory;
use je_token::{Keyword, Symbol, Token};
use parse_below::Setting;
use parse_members::first_call;
use parse_types::{Place, Read, behind, behind_word, name};
use std::alloc::Global;

/// The item that is read in this context, or none.
#[tactic(auto, unfolding(parse_laws::specs::way::Place::item_at))]
pub fn item<
    'a,
    E: Fn(Place<'a>) -> Read<'a, Expr>,
    D: Fn(&'a [Token]) -> Read<'a, Decl>,
    M: Fn(&'a [Token]) -> Read<'a, Member>,
    B: Fn(&'a [Token]) -> Read<'a, Stmt>,
>(
    expr: &E,
    declaration: &D,
    member: &M,
    block_statement: &B,
    alloc: Global,
    setting: &Setting,
    context: Context,
    tokens: &'a [Token],
) -> Result<Option<Step<'a>>, Memory>
    requires callable { E.IsAlwaysCallable expr.now }
    requires reads { Reads setting.now (E.post expr.now) }
    requires callable_declarations { D.IsAlwaysCallable declaration.now }
    requires reads_declarations { ReadsDeclarations setting.now (D.post declaration.now) }
    requires callable_members { M.IsAlwaysCallable member.now }
    requires reads_members { ReadsMembers setting.now (M.post member.now) }
    requires callable_statements { B.IsAlwaysCallable block_statement.now }
    requires reads_statements { ReadsBlockStatements setting.now (B.post block_statement.now) }
    ensures { IfOk result
        (λ o. seen_step o ≡ item_at setting.now (context_view context) tokens.now) }
{
    match context {
        Context::Imports => match import(alloc, tokens)? {
            Some((_, rest)) => Ok(Some(Step { context, rest })),
            None => declared_item(declaration, setting, tokens),
        },
        Context::Declarations => declared_item(declaration, setting, tokens),
        Context::Members => member_item(member, setting, tokens),
        Context::ConstructorBody => first_item(expr, block_statement, alloc, setting, tokens),
        Context::Statements => statement_item(block_statement, setting, tokens),
    }
}

/// `"import" Name ";"`
#[tactic(auto, unfolding(parse_laws::specs::way::Knot::import_at))]
pub fn import<'a>(alloc: Global, tokens: &'a [Token]) -> Result<Option<(Name, &'a [Token])>, Memory>
    ensures { (names texts : List (List ℕ))
        → IfOk result (λ o. seen_name o ≡ import_at names texts tokens.now) }
{
    let Some(named) = behind_word(tokens, Keyword::Import) else {
        return Ok(None);
    };
    let Some((name, rest)) = name(alloc, named)? else {
        return Ok(None);
    };
    let Some(rest) = behind(rest, Symbol::Semicolon) else {
        return Ok(None);
    };
    Ok(Some((name, rest)))
}

// A type declaration or a lone `;`.
#[tactic(auto, unfolding(parse_laws::specs::way::Place::declared_item_at))]
fn declared_item<'a, D: Fn(&'a [Token]) -> Read<'a, Decl>>(
    declaration: &D,
    setting: &Setting,
    tokens: &'a [Token],
) -> Result<Option<Step<'a>>, Memory>
    requires callable { D.IsAlwaysCallable declaration.now }
    requires reads { ReadsDeclarations setting.now (D.post declaration.now) }
    ensures { IfOk result (λ o. seen_step o ≡ declared_item_at setting.now tokens.now) }
{
    let context = Context::Declarations;
    if let Some(rest) = behind(tokens, Symbol::Semicolon) {
        return Ok(Some(Step { context, rest }));
    }
    let Some(found) = declaration(tokens)? else {
        return Ok(None);
    };
    Ok(Some(Step {
        context,
        rest: found.rest,
    }))
}

// A member or a lone `;`.
#[tactic(auto, unfolding(parse_laws::specs::way::Place::member_item_at))]
fn member_item<'a, M: Fn(&'a [Token]) -> Read<'a, Member>>(
    member: &M,
    setting: &Setting,
    tokens: &'a [Token],
) -> Result<Option<Step<'a>>, Memory>
    requires callable { M.IsAlwaysCallable member.now }
    requires reads { ReadsMembers setting.now (M.post member.now) }
    ensures { IfOk result (λ o. seen_step o ≡ member_item_at setting.now tokens.now) }
{
    let context = Context::Members;
    if let Some(rest) = behind(tokens, Symbol::Semicolon) {
        return Ok(Some(Step { context, rest }));
    }
    let Some(found) = member(tokens)? else {
        return Ok(None);
    };
    Ok(Some(Step {
        context,
        rest: found.rest,
    }))
}

// A call of another constructor, or a statement.
#[tactic(auto, unfolding(crate::specs::way::Readings::first_item_at))]
fn first_item<'a, E: Fn(Place<'a>) -> Read<'a, Expr>, B: Fn(&'a [Token]) -> Read<'a, Stmt>>(
    expr: &E,
    block_statement: &B,
    alloc: Global,
    setting: &Setting,
    tokens: &'a [Token],
) -> Result<Option<Step<'a>>, Memory>
    requires callable { E.IsAlwaysCallable expr.now }
    requires reads { Reads setting.now (E.post expr.now) }
    requires callable_statements { B.IsAlwaysCallable block_statement.now }
    requires reads_statements { ReadsBlockStatements setting.now (B.post block_statement.now) }
    ensures { IfOk result (λ o. seen_step o ≡ first_item_at setting.now tokens.now) }
{
    match first_call(expr, alloc, setting, tokens)? {
        Some(found) => Ok(Some(Step {
            context: Context::Statements,
            rest: found.rest,
        })),
        None => statement_item(block_statement, setting, tokens),
    }
}

// A statement.
#[tactic(auto, unfolding(parse_laws::specs::way::Place::statement_item_at))]
fn statement_item<'a, B: Fn(&'a [Token]) -> Read<'a, Stmt>>(
    block_statement: &B,
    setting: &Setting,
    tokens: &'a [Token],
) -> Result<Option<Step<'a>>, Memory>
    requires callable { B.IsAlwaysCallable block_statement.now }
    requires reads { ReadsBlockStatements setting.now (B.post block_statement.now) }
    ensures { IfOk result (λ o. seen_step o ≡ statement_item_at setting.now tokens.now) }
{
    let Some(found) = block_statement(tokens)? else {
        return Ok(None);
    };
    Ok(Some(Step {
        context: Context::Statements,
        rest: found.rest,
    }))
}
