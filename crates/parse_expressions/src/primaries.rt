// Reads primaries, up to what is selected from them.

ghost use Rattle.std.specs.Prelude.{◌≡◌, ◌+◌, ◌-◌, ◌<◌, ◌^◌, IfOk};
ghost use Rattle.je_ast.specs.Height.{heights};
ghost use Rattle.je_ast.specs.Spans.{join as joined};
ghost use Rattle.je_ast.specs.Trees as tree;
ghost use Rattle.je_ast.specs.View.{view, views_of};
ghost use Rattle.je_grammar.specs.Tokens.{first_span as the_first_span};
ghost use Rattle.parse_laws.specs.way.Expressions.{outer_this_at};
ghost use Rattle.parse_types.specs.way.Views.{seen, read_of};
ghost use Rattle.parse_below.specs.way.Readers.{Reads, ReadsInitializers, ReadsBodies};
ghost use Rattle.parse_below.specs.way.Views.{HasHeights, seen_found, IsRight};
ghost use Rattle.parse_operators.specs.way.Readings.{primary_at, named_at, super_member_at};
ghost use Rattle.parse_operators.specs.way.Readings.{parens_at, behind_super_at};
ghost use Rattle.parse_operators.specs.way.Views.{IsAbove};

use crate::creations::creation;
use je_ast::{Expr, Identifier, Member, make_call, make_expr, make_super_call};
use je_base::Span;
use je_token::{Keyword, Symbol, Token};
use parse_below::{Setting, boxed};
use parse_operators::{arguments, is_outer_this, literal};
use parse_types::{
    Closed, Found, Place, Read, ReadClosed, behind, behind_word, first_span, identifier,
    is_identifier, is_symbol, is_word, join, name,
};
use std::alloc::Global;

/// A literal, `this`, `Name "." "this"`, an expression in parens, `"super" "." id [Args]`, a
/// creation, or `id [Args]`.
#[tactic(auto, unfolding(parse_laws::specs::way::Expressions::primary_at))]
pub fn primary<
    'a,
    E: Fn(Place<'a>) -> Read<'a, Expr>,
    I: Fn(&'a [Token]) -> Read<'a, Expr>,
    B: Fn(&'a [Token]) -> ReadClosed<'a, Member>,
>(
    expr: &E,
    initializer: &I,
    body: &B,
    alloc: Global,
    setting: &Setting,
    tokens: &'a [Token],
) -> Read<'a, Expr>
    requires callable { E.IsAlwaysCallable expr.now }
    requires reads { Reads setting.now (E.post expr.now) }
    requires initializer_callable { I.IsAlwaysCallable initializer.now }
    requires initializer_reads { ReadsInitializers setting.now (I.post initializer.now) }
    requires body_callable { B.IsAlwaysCallable body.now }
    requires body_reads { ReadsBodies setting.now (B.post body.now) }
    requires fits { setting.now.below < 2 ^ 32 - 1 }
    ensures value { IfOk result (λ o. seen view o ≡ primary_at setting.now tokens.now) }
    ensures height { IfOk result (HasHeights (setting.now.below + 1)) }
{
    if is_identifier(tokens) {
        return named(expr, alloc, setting, tokens);
    }
    if is_symbol(tokens, Symbol::OpenParen) {
        return parens(expr, alloc, setting, tokens);
    }
    if let Some(rest) = behind_word(tokens, Keyword::This) {
        return Ok(Some(this(tokens, rest)));
    }
    if is_word(tokens, Keyword::Super) {
        return super_member(expr, alloc, setting, tokens);
    }
    if is_word(tokens, Keyword::New) {
        return creation(expr, initializer, body, alloc, setting, tokens);
    }
    literal(alloc, setting.texts, tokens)
}

// `this`, which stands first.
fn this<'a>(tokens: &[Token], rest: &'a [Token]) -> Found<'a, Expr>
    ensures value { seen_found result ≡ (tree.this (the_first_span tokens.now), rest.now) }
    ensures height { IsRight 1 result }
{
    Found {
        tree: make_expr(Expr::This {
            span: first_span(tokens),
        }),
        height: 1,
        rest,
    }
}

// An identifier alone.
fn name_alone(name: Identifier, rest: &[Token]) -> Found<Expr>
    ensures value { seen_found result ≡ (tree.name name, rest.now) }
    ensures height { IsRight 1 result }
{
    Found {
        tree: make_expr(Expr::Name { name }),
        height: 1,
        rest,
    }
}

// `Name "." "this" | id [Args]`; `id` alone where the arguments can't be read.
#[tactic(auto, unfolding(parse_laws::specs::way::Expressions::named_at))]
fn named<'a, E: Fn(Place<'a>) -> Read<'a, Expr>>(
    expr: &E,
    alloc: Global,
    setting: &Setting,
    tokens: &'a [Token],
) -> Read<'a, Expr>
    requires callable { E.IsAlwaysCallable expr.now }
    requires reads { Reads setting.now (E.post expr.now) }
    requires fits { setting.now.below < 2 ^ 32 - 1 }
    ensures value { IfOk result (λ o. seen view o ≡ named_at setting.now tokens.now) }
    ensures height { IfOk result (HasHeights (setting.now.below + 1)) }
{
    if is_outer_this(tokens) {
        return outer_this(alloc, tokens);
    }
    let Some((method, rest)) = identifier(tokens) else {
        return Ok(None);
    };
    let Some(args) = arguments(expr, alloc, setting, rest)? else {
        return Ok(Some(name_alone(method, rest)));
    };
    Ok(Some(call(method, args)))
}

// `f(e, ..)`
fn call<'a>(method: Identifier, args: Closed<'a, Expr>) -> Found<'a, Expr>
    requires args_right { args.height ≡ heights (views_of args.items.items) }
    requires fits { args.height < 2 ^ 32 - 1 }
    ensures value { seen_found result ≡ (
      tree.call method (views_of args.entry.items.items)
          (joined method.span args.entry.close),
      args.entry.rest.now,
    ) }
    ensures height { IsAbove args.entry.height result }
{
    Found {
        tree: make_call(method, args.items, join(method.span, args.close)),
        height: args.height + 1,
        rest: args.rest,
    }
}

// `Name "." "this"`
#[tactic(auto, unfolding(parse_laws::specs::way::Expressions::outer_this_at))]
fn outer_this(alloc: Global, tokens: &[Token]) -> Read<Expr>
    ensures value { IfOk result (λ o. seen view o ≡ outer_this_at tokens.now) }
    ensures height { IfOk result (HasHeights 1) }
{
    let Some((class, rest)) = name(alloc, tokens)? else {
        return Ok(None);
    };
    let Some(word) = behind(rest, Symbol::Dot) else {
        return Ok(None);
    };
    let Some(rest) = behind_word(word, Keyword::This) else {
        return Ok(None);
    };
    let this = first_span(word);
    let span = join(class.span, this);
    Ok(Some(Found {
        tree: make_expr(Expr::OuterThis { class, this, span }),
        height: 1,
        rest,
    }))
}

// `"super" "." id [Args]`, without the arguments where they can't be read.
#[tactic(auto, unfolding(parse_laws::specs::way::Expressions::super_member_at))]
fn super_member<'a, E: Fn(Place<'a>) -> Read<'a, Expr>>(
    expr: &E,
    alloc: Global,
    setting: &Setting,
    tokens: &'a [Token],
) -> Read<'a, Expr>
    requires callable { E.IsAlwaysCallable expr.now }
    requires reads { Reads setting.now (E.post expr.now) }
    requires fits { setting.now.below < 2 ^ 32 - 1 }
    ensures value { IfOk result (λ o. seen view o ≡ super_member_at setting.now tokens.now) }
    ensures height { IfOk result (HasHeights (setting.now.below + 1)) }
{
    let Some((member, rest)) = behind_super(tokens) else {
        return Ok(None);
    };
    let word = first_span(tokens);
    let Some(args) = arguments(expr, alloc, setting, rest)? else {
        return Ok(Some(super_select(word, member, rest)));
    };
    Ok(Some(super_call(word, member, args)))
}

// `super.f(e, ..)`, where the word has this span.
fn super_call<'a>(word: Span, method: Identifier, args: Closed<'a, Expr>) -> Found<'a, Expr>
    requires args_right { args.height ≡ heights (views_of args.items.items) }
    requires fits { args.height < 2 ^ 32 - 1 }
    ensures value { seen_found result
        ≡ (
          tree.super_call word method (views_of args.entry.items.items)
              (joined word args.entry.close),
          args.entry.rest.now,
        ) }
    ensures height { IsAbove args.entry.height result }
{
    Found {
        tree: make_super_call(word, method, args.items, join(word, args.close)),
        height: args.height + 1,
        rest: args.rest,
    }
}

// `super.x`, where the word has this span.
fn super_select(word: Span, field: Identifier, rest: &[Token]) -> Found<Expr>
    ensures value { seen_found result
        ≡ (tree.super_select word field (joined word field.span), rest.now) }
    ensures height { IsRight 1 result }
{
    let span = join(word, field.span);
    Found {
        tree: make_expr(Expr::SuperSelect { word, field, span }),
        height: 1,
        rest,
    }
}

// The identifier in `"super" "." id`, and the tokens behind it.
fn behind_super(tokens: &[Token]) -> Option<(Identifier, &[Token])>
    ensures { read_of result ≡ behind_super_at tokens.now }
{
    identifier(behind(behind_word(tokens, Keyword::Super)?, Symbol::Dot)?)
}

// `"(" Expr ")"`
#[tactic(auto, unfolding(parse_laws::specs::way::Expressions::parens_at))]
fn parens<'a, E: Fn(Place<'a>) -> Read<'a, Expr>>(
    expr: &E,
    alloc: Global,
    setting: &Setting,
    tokens: &'a [Token],
) -> Read<'a, Expr>
    requires callable { E.IsAlwaysCallable expr.now }
    requires reads { Reads setting.now (E.post expr.now) }
    requires fits { setting.now.below < 2 ^ 32 - 1 }
    ensures value { IfOk result (λ o. seen view o ≡ parens_at setting.now tokens.now) }
    ensures height { IfOk result (HasHeights (setting.now.below + 1)) }
{
    let Some(inside) = behind(tokens, Symbol::OpenParen) else {
        return Ok(None);
    };
    let Some(found) = expr(Place {
        tokens: inside,
        least: 1,
    })?
    else {
        return Ok(None);
    };
    let Some(rest) = behind(found.rest, Symbol::CloseParen) else {
        return Ok(None);
    };
    let span = join(first_span(tokens), first_span(found.rest));
    let inner = boxed(alloc, found.tree)?;
    Ok(Some(Found {
        tree: make_expr(Expr::Parens { inner, span }),
        height: found.height + 1,
        rest,
    }))
}
