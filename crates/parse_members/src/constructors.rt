// Reads constructors.

ghost use Rattle.std.specs.Prelude.{◌≡◌, ◌+◌, ◌<◌, ◌^◌, IfOk};
ghost use Rattle.je_ast.specs.View.{member_view, constructor_invocation_view};
ghost use Rattle.parse_laws.specs.way.Members.{constructor_head_at, call_word_at};
ghost use Rattle.parse_members.specs.way.Views.{begins_first_call_at};
ghost use Rattle.parse_types.specs.way.Views.{seen, read_of};
ghost use Rattle.parse_below.specs.way.Readers.{Reads, ReadsBlockStatements};
ghost use Rattle.parse_below.specs.way.Views.{MemberHasHeight};
ghost use Rattle.parse_members.specs.way.Views.{seen_constructor_head, ConstructorHeadHeight};
ghost use Rattle.parse_members.specs.way.Views.{CallHeight};
ghost use Rattle.parse_members.specs.way.Readings.{constructor_at, explicit_or_implicit_at};
ghost use Rattle.parse_members.specs.way.Readings.{first_call_at};

use je_ast::{
    Block, ConstructorCall, Expr, Formal, Identifier, Member, Modifier, Name, Stmt,
    make_constructor, make_constructor_call, make_explicit_call,
};
use je_base::{Memory, Span};
use je_token::{Keyword, Symbol, Token};
use parse_below::Setting;
use parse_operators::arguments;
use parse_statements::block_statements;
use parse_types::{
    Found, Place, Read, behind, behind_word, first_span, formals, identifier, is_symbol, join,
    throws,
};
use std::alloc::Global;

/// What a constructor has before its `{`, the height of its highest type, and the tokens from the
/// `{` on.
#[derive(Drop)]
pub struct ConstructorHead<'a> {
    pub name: Identifier,
    pub formals: Vec<Formal>,
    pub throws: Vec<Name>,
    pub height: u32,
    pub rest: &'a [Token],
}

/// `id Formals [Throws]` before a `{`, with types of at most this height.
#[tactic(auto, unfolding(parse_laws::specs::way::Members::constructor_head_at))]
pub fn constructor_head<'a>(
    alloc: Global,
    tokens: &'a [Token],
    most: u32,
) -> Result<Option<ConstructorHead<'a>>, Memory>
    ensures value { IfOk result
        (λ o. seen_constructor_head o ≡ constructor_head_at most tokens.now) }
    ensures height { IfOk result (ConstructorHeadHeight most) }
{
    let Some((name, rest)) = identifier(tokens) else {
        return Ok(None);
    };
    let Some(formals) = formals(alloc, rest, most)? else {
        return Ok(None);
    };
    let Some((throws, rest)) = throws(alloc, formals.rest)? else {
        return Ok(None);
    };
    if !is_symbol(rest, Symbol::OpenBrace) {
        return Ok(None);
    }
    Ok(Some(ConstructorHead {
        name,
        formals: formals.tree,
        throws,
        height: formals.height,
        rest,
    }))
}

/// A constructor behind these modifiers. `first` is the span of the first token of both.
#[tactic(auto, unfolding(parse_laws::specs::way::Members::constructor_at))]
pub fn constructor<'a, E: Fn(Place<'a>) -> Read<'a, Expr>, B: Fn(&'a [Token]) -> Read<'a, Stmt>>(
    expr: &E,
    block_statement: &B,
    alloc: Global,
    setting: &Setting,
    modifiers: Vec<Modifier>,
    first: Span,
    tokens: &'a [Token],
) -> Read<'a, Member>
    requires callable { E.IsAlwaysCallable expr.now }
    requires reads { Reads setting.now (E.post expr.now) }
    requires callable_statements { B.IsAlwaysCallable block_statement.now }
    requires reads_statements { ReadsBlockStatements setting.now (B.post block_statement.now) }
    requires room { setting.now.below + 1 < 2 ^ 32 }
    ensures value { IfOk result
        (λ o. seen member_view o ≡ constructor_at setting.now modifiers.items first tokens.now) }
    ensures height { IfOk result (MemberHasHeight (setting.now.below + 1)) }
{
    let Some(head) = constructor_head(alloc, tokens, setting.below)? else {
        return Ok(None);
    };
    let Some(inside) = behind(head.rest, Symbol::OpenBrace) else {
        return Ok(None);
    };
    let Some(call) = explicit_or_implicit(expr, alloc, setting, inside)? else {
        return Ok(None);
    };
    let Some(stmts) = block_statements(block_statement, alloc, setting, call.rest)? else {
        return Ok(None);
    };
    let body = Block {
        opening: first_span(head.rest),
        stmts: stmts.items,
        closing: stmts.close,
    };
    Ok(Some(Found {
        tree: make_constructor(
            modifiers,
            head.name,
            head.formals,
            head.throws,
            call.tree,
            body,
            join(first, stmts.close),
        ),
        height: head.height.max(call.height).max(stmts.height) + 1,
        rest: stmts.rest,
    }))
}

// `[("this" | "super") Args ";"]`, which has to be read where `this` or `super` stands before a
// `(`.
#[tactic(auto, unfolding(parse_laws::specs::way::Members::explicit_or_implicit_at))]
fn explicit_or_implicit<'a, E: Fn(Place<'a>) -> Read<'a, Expr>>(
    expr: &E,
    alloc: Global,
    setting: &Setting,
    tokens: &'a [Token],
) -> Read<'a, ConstructorCall>
    requires callable { E.IsAlwaysCallable expr.now }
    requires reads { Reads setting.now (E.post expr.now) }
    ensures value { IfOk result (λ o. seen constructor_invocation_view o
        ≡ explicit_or_implicit_at setting.now tokens.now) }
    ensures height { IfOk result (CallHeight setting.now.below) }
{
    if begins_first_call(tokens) {
        return first_call(expr, alloc, setting, tokens);
    }
    Ok(Some(Found {
        tree: make_constructor_call(ConstructorCall::Implicit),
        height: 0,
        rest: tokens,
    }))
}

// Whether `this` or `super` stands before a `(`.
fn begins_first_call(tokens: &[Token]) -> bool
    ensures { result ≡ begins_first_call_at tokens.now }
{
    match call_word(tokens) {
        Some((_, rest)) => is_symbol(rest, Symbol::OpenParen),
        None => false,
    }
}

// Whether it is `super`, and the tokens behind `this` or `super`.
fn call_word(tokens: &[Token]) -> Option<(bool, &[Token])>
    ensures { read_of result ≡ call_word_at tokens.now }
{
    if let Some(rest) = behind_word(tokens, Keyword::This) {
        return Some((false, rest));
    }
    Some((true, behind_word(tokens, Keyword::Super)?))
}

/// `("this" | "super") Args ";"`
#[tactic(auto, unfolding(parse_laws::specs::way::Members::first_call_at))]
pub fn first_call<'a, E: Fn(Place<'a>) -> Read<'a, Expr>>(
    expr: &E,
    alloc: Global,
    setting: &Setting,
    tokens: &'a [Token],
) -> Read<'a, ConstructorCall>
    requires callable { E.IsAlwaysCallable expr.now }
    requires reads { Reads setting.now (E.post expr.now) }
    ensures value { IfOk result
        (λ o. seen constructor_invocation_view o ≡ first_call_at setting.now tokens.now) }
    ensures height { IfOk result (CallHeight setting.now.below) }
{
    let Some((is_super, rest)) = call_word(tokens) else {
        return Ok(None);
    };
    let Some(args) = arguments(expr, alloc, setting, rest)? else {
        return Ok(None);
    };
    let Some(rest) = behind(args.rest, Symbol::Semicolon) else {
        return Ok(None);
    };
    Ok(Some(Found {
        tree: make_explicit_call(is_super, first_span(tokens), args.items),
        height: args.height,
        rest,
    }))
}
