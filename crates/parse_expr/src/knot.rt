// The recursion: each function reads what its name says, of at most the height that the setting
// gives, by a production over what reads the height below.

ghost use Rattle.std.specs.Prelude.{◌≡◌, ◌+◌, ◌-◌, ◌<◌, ◌^◌, ◌||◌};
ghost use Rattle.std.specs.Prelude.{ℕ, true, false, length, IfOk};
ghost use Rattle.je_ast.specs.View.{statement_view, declaration_view};
ghost use Rattle.je_token.specs.declared.keyword.Keyword.TheVariants as word;
ghost use Rattle.parse_laws.specs.way.Tokens.{is_word};
ghost use Rattle.parse_laws.specs.way.Types.{begins_local_at};
ghost use Rattle.parse_laws.specs.way.Members.{begins_local_class_at};
ghost use Rattle.parse_types.specs.way.Views.{seen};
ghost use Rattle.parse_below.specs.way.Views.{StatementHasHeight, DeclarationHasHeight};
ghost use Rattle.parse_expr.specs.way.Readings.{IsExpression, IsInitializer, IsBody, IsStatement};
ghost use Rattle.parse_expr.specs.way.Readings.{IsBlockStatement, IsBlock, IsMember};
ghost use Rattle.parse_expr.specs.way.Readings.{IsDeclaration, as_statements};

use je_ast::{Block, Decl, Expr, Member, Stmt, make_stmt};
use je_token::{Keyword, Symbol, Token};
use parse_below::Setting;
use parse_expressions::{array_initializer, expression};
use parse_members::{begins_local_class, class_body, declaration, local_class};
use parse_statements::{begins_local, local, statement};
use parse_types::{Found, Place, Read, ReadClosed, is_symbol, is_word};
use std::alloc::Global;

// The setting of the height below.
fn lower<'t>(setting: &Setting<'t>) -> Setting<'t>
    requires { 0 < setting.now.below }
    ensures names { result.names.now ≡ setting.now.names.now }
    ensures texts { result.texts.now ≡ setting.now.texts.now }
    ensures below { result.below ≡ setting.now.below - 1 }
    ensures room { result.below + 1 < 2 ^ 32 }
{
    Setting {
        names: setting.names,
        texts: setting.texts,
        below: setting.below - 1,
    }
}

/// An expression of at least the place's level.
#[cycle(knot)]
#[tactic(auto, using(crate::proofs::Steps::expression_zero, crate::proofs::Steps::expression_step))]
pub fn expr<'a>(alloc: Global, setting: &Setting, place: Place<'a>) -> Read<'a, Expr>
    ensures { IfOk result (IsExpression setting.now place.entry) }
{
    if setting.below == 0 {
        return Ok(None);
    }
    let below = lower(setting);
    let inner = |place| -> Read<Expr>
        ensures { IfOk result (IsExpression below.entry place.entry) }
    { expr(alloc, &below, place) };
    let values = |tokens| -> Read<Expr>
        ensures { IfOk result (IsInitializer below.entry tokens.now) }
    { initializer(alloc, &below, tokens) };
    let members = |tokens| -> ReadClosed<Member>
        ensures { IfOk result (IsBody below.entry tokens.now) }
    { body(alloc, &below, tokens) };
    let read = expression(&inner, &values, &members, alloc, &below, place);
    read
}

/// An expression or an array initializer.
#[cycle(knot)]
#[tactic(auto, using(crate::proofs::Steps::initializer_zero, crate::proofs::Steps::array_step, crate::proofs::Steps::value_step))]
pub fn initializer<'a>(alloc: Global, setting: &Setting, tokens: &'a [Token]) -> Read<'a, Expr>
    ensures { IfOk result (IsInitializer setting.now tokens.now) }
{
    if !is_symbol(tokens, Symbol::OpenBrace) {
        return expr(alloc, setting, Place { tokens, least: 1 });
    }
    if setting.below == 0 {
        return Ok(None);
    }
    let below = lower(setting);
    let values = |tokens| -> Read<Expr>
        ensures { IfOk result (IsInitializer below.entry tokens.now) }
    { initializer(alloc, &below, tokens) };
    let read = array_initializer(values, alloc, &below, tokens);
    read
}

/// A class body, whose members are of at most this height.
#[cycle(knot)]
pub fn body<'a>(alloc: Global, setting: &Setting, tokens: &'a [Token]) -> ReadClosed<'a, Member>
    ensures { IfOk result (IsBody setting.now tokens.now) }
{
    let members = |tokens| -> Read<Member>
        ensures { IfOk result (IsMember setting.entry.now tokens.now) }
    { member(alloc, setting, tokens) };
    class_body(members, alloc, setting, tokens)
}

/// A statement.
#[cycle(knot)]
#[tactic(auto, using(crate::proofs::Steps::statement_zero, crate::proofs::Steps::statement_step))]
pub fn stmt<'a>(alloc: Global, setting: &Setting, tokens: &'a [Token]) -> Read<'a, Stmt>
    ensures { IfOk result (IsStatement setting.now tokens.now) }
{
    if setting.below == 0 {
        return Ok(None);
    }
    let below = lower(setting);
    let inner = |place| -> Read<Expr>
        ensures { IfOk result (IsExpression below.entry place.entry) }
    { expr(alloc, &below, place) };
    let values = |tokens| -> Read<Expr>
        ensures { IfOk result (IsInitializer below.entry tokens.now) }
    { initializer(alloc, &below, tokens) };
    let stmts = |tokens| -> Read<Stmt>
        ensures { IfOk result (IsStatement below.entry tokens.now) }
    { stmt(alloc, &below, tokens) };
    let items = |tokens| -> Read<Stmt>
        ensures { IfOk result (IsBlockStatement below.entry tokens.now) }
    { block_stmt(alloc, &below, tokens) };
    let blocks = |tokens| -> Read<Block>
        ensures { IfOk result (IsBlock below.entry tokens.now) }
    { block(alloc, &below, tokens) };
    let read = statement(
        &inner, &values, &stmts, &items, &blocks, alloc, &below, tokens,
    );
    read
}

/// A statement, a local class or local variables.
#[cycle(knot)]
#[tactic(auto, using(crate::proofs::Steps::block_statement_zero, crate::proofs::Steps::other_step))]
pub fn block_stmt<'a>(alloc: Global, setting: &Setting, tokens: &'a [Token]) -> Read<'a, Stmt>
    ensures { IfOk result (IsBlockStatement setting.now tokens.now) }
{
    if setting.below == 0 {
        return Ok(None);
    }
    if begins_local_class(tokens) {
        return class_statement(alloc, setting, tokens);
    }
    if begins_variables(tokens, setting.below - 1) {
        return local_variables(alloc, setting, tokens);
    }
    stmt(alloc, setting, tokens)
}

// A local class.
#[cycle(knot)]
#[tactic(auto, using(crate::proofs::Steps::local_class_step))]
fn class_statement<'a>(alloc: Global, setting: &Setting, tokens: &'a [Token]) -> Read<'a, Stmt>
    requires high { 0 < setting.now.below }
    requires begins { begins_local_class_at (length tokens.now) tokens.now ≡ true }
    ensures { IfOk result (IsBlockStatement setting.now tokens.now) }
{
    let below = lower(setting);
    let members = |tokens| -> Read<Member>
        ensures { IfOk result (IsMember below.entry tokens.now) }
    { member(alloc, &below, tokens) };
    let read = local_class(members, alloc, &below, tokens);
    Ok(as_statement(read?))
}

// Local variables.
#[cycle(knot)]
#[tactic(auto, using(crate::proofs::Steps::local_step))]
fn local_variables<'a>(alloc: Global, setting: &Setting, tokens: &'a [Token]) -> Read<'a, Stmt>
    requires high { 0 < setting.now.below }
    requires class { begins_local_class_at (length tokens.now) tokens.now ≡ false }
    requires begins { (is_word word.Final tokens.now
        || begins_local_at (setting.now.below - 1) tokens.now) ≡ true }
    ensures { IfOk result (IsBlockStatement setting.now tokens.now) }
{
    let below = lower(setting);
    let values = |tokens| -> Read<Expr>
        ensures { IfOk result (IsInitializer below.entry tokens.now) }
    { initializer(alloc, &below, tokens) };
    let read = local(values, alloc, &below, tokens);
    read
}

// Whether local variables begin here.
fn begins_variables(tokens: &[Token], below: u32) -> bool
    ensures { result ≡ (is_word word.Final tokens.now || begins_local_at below tokens.now) }
{
    is_word(tokens, Keyword::Final) || begins_local(tokens, below)
}

// A local class as a statement.
fn as_statement(found: Option<Found<Decl>>) -> Option<Found<Stmt>>
    ensures value { seen statement_view result ≡ as_statements (seen declaration_view found.entry) }
    ensures height { (most : ℕ) → DeclarationHasHeight most found.entry
        → StatementHasHeight most result }
{
    let found = found?;
    Some(Found {
        tree: make_stmt(Stmt::Class { decl: found.tree }),
        height: found.height,
        rest: found.rest,
    })
}

/// A block.
#[cycle(knot)]
#[tactic(auto, using(crate::proofs::Steps::block_zero, crate::proofs::Steps::block_step))]
pub fn block<'a>(alloc: Global, setting: &Setting, tokens: &'a [Token]) -> Read<'a, Block>
    ensures { IfOk result (IsBlock setting.now tokens.now) }
{
    if setting.below == 0 {
        return Ok(None);
    }
    let below = lower(setting);
    let items = |tokens| -> Read<Stmt>
        ensures { IfOk result (IsBlockStatement below.entry tokens.now) }
    { block_stmt(alloc, &below, tokens) };
    let read = parse_statements::block(items, alloc, &below, tokens);
    read
}

/// A member.
#[cycle(knot)]
#[tactic(auto, using(crate::proofs::Steps::member_zero, crate::proofs::Steps::member_step))]
pub fn member<'a>(alloc: Global, setting: &Setting, tokens: &'a [Token]) -> Read<'a, Member>
    ensures { IfOk result (IsMember setting.now tokens.now) }
{
    if setting.below == 0 {
        return Ok(None);
    }
    let below = lower(setting);
    let inner = |place| -> Read<Expr>
        ensures { IfOk result (IsExpression below.entry place.entry) }
    { expr(alloc, &below, place) };
    let values = |tokens| -> Read<Expr>
        ensures { IfOk result (IsInitializer below.entry tokens.now) }
    { initializer(alloc, &below, tokens) };
    let items = |tokens| -> Read<Stmt>
        ensures { IfOk result (IsBlockStatement below.entry tokens.now) }
    { block_stmt(alloc, &below, tokens) };
    let blocks = |tokens| -> Read<Block>
        ensures { IfOk result (IsBlock below.entry tokens.now) }
    { block(alloc, &below, tokens) };
    let members = |tokens| -> Read<Member>
        ensures { IfOk result (IsMember below.entry tokens.now) }
    { member(alloc, &below, tokens) };
    let read = parse_members::member(
        &inner, &values, &items, &blocks, &members, alloc, &below, tokens,
    );
    read
}

/// A type declaration.
#[tactic(auto, using(crate::proofs::Steps::declaration_zero, crate::proofs::Steps::declaration_step))]
pub fn decl<'a>(alloc: Global, setting: &Setting, tokens: &'a [Token]) -> Read<'a, Decl>
    ensures { IfOk result (IsDeclaration setting.now tokens.now) }
{
    if setting.below == 0 {
        return Ok(None);
    }
    let below = lower(setting);
    let members = |tokens| -> Read<Member>
        ensures { IfOk result (IsMember below.entry tokens.now) }
    { member(alloc, &below, tokens) };
    let read = declaration(members, alloc, &below, tokens);
    read
}
