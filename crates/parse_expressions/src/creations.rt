// Reads creations of objects and arrays.

ghost use Rattle.std.specs.Prelude.{◌≡◌, ◌+◌, ◌-◌, ◌<◌, ◌^◌, max, IfOk};
ghost use Rattle.je_ast.specs.Types.{type_view, type_height};
ghost use Rattle.je_ast.specs.View.{view, views_of, member_views_of};
ghost use Rattle.je_ast.specs.Height.{heights, members_height};
ghost use Rattle.je_ast.specs.Spans.{join as joined};
ghost use Rattle.je_ast.specs.Trees as tree;
ghost use Rattle.parse_types.specs.way.Views.{seen};
ghost use Rattle.parse_below.specs.way.Readers.{Reads, ReadsInitializers, ReadsBodies};
ghost use Rattle.parse_below.specs.way.Views.{HasHeights, seen_found};
ghost use Rattle.parse_operators.specs.way.Readings.{creation_at, created_at, array_at, sized_at};
ghost use Rattle.parse_operators.specs.way.Readings.{with_lengths_at, empty_array_at, object_at};
ghost use Rattle.parse_operators.specs.way.Readings.{filled_at};
ghost use Rattle.parse_operators.specs.way.Views.{IsAbove};
ghost use Rattle.parse_expressions.specs.way.Views.{IsMadeRight};

use je_ast::{Expr, Member, TyName, make_expr, make_new, make_new_anonymous, make_new_array};
use je_base::Span;
use je_token::{Keyword, Symbol, Token};
use parse_below::{Setting, boxed};
use parse_operators::{arguments, lengths, makes_array, span};
use parse_types::{
    Closed, Found, Place, Read, ReadClosed, behind_word, dims, element, first_span, is_symbol,
    join, reference,
};
use std::alloc::Global;

/// `"new" Ref Args [Body]`, or `"new" (Prim | Name)` with brackets; no creation is of height 1.
#[tactic(auto, unfolding(parse_laws::specs::way::Expressions::creation_at))]
pub fn creation<
    'a,
    E: Fn(Place<'a>) -> Read<'a, Expr>,
    I: Fn(&'a [Token]) -> Read<'a, Expr>,
    B: Fn(&'a [Token]) -> ReadClosed<'a, Member>,
>(
    expr: &E,
    initializer: &I,
    body: &B,
    alloc: Global,
    setting: &Setting,
    tokens: &'a [Token],
) -> Read<'a, Expr>
    requires callable { E.IsAlwaysCallable expr.now }
    requires reads { Reads setting.now (E.post expr.now) }
    requires initializer_callable { I.IsAlwaysCallable initializer.now }
    requires initializer_reads { ReadsInitializers setting.now (I.post initializer.now) }
    requires body_callable { B.IsAlwaysCallable body.now }
    requires body_reads { ReadsBodies setting.now (B.post body.now) }
    requires fits { setting.now.below < 2 ^ 32 - 1 }
    ensures value { IfOk result (λ o. seen view o ≡ creation_at setting.now tokens.now) }
    ensures height { IfOk result (HasHeights (setting.now.below + 1)) }
{
    let Some(made) = behind_word(tokens, Keyword::New) else {
        return Ok(None);
    };
    if 0 < setting.below {
        return created(
            expr,
            initializer,
            body,
            alloc,
            setting,
            first_span(tokens),
            made,
        );
    }
    Ok(None)
}

// What is created behind the word `new`, which has this span.
fn created<
    'a,
    E: Fn(Place<'a>) -> Read<'a, Expr>,
    I: Fn(&'a [Token]) -> Read<'a, Expr>,
    B: Fn(&'a [Token]) -> ReadClosed<'a, Member>,
>(
    expr: &E,
    initializer: &I,
    body: &B,
    alloc: Global,
    setting: &Setting,
    word: Span,
    tokens: &'a [Token],
) -> Read<'a, Expr>
    requires callable { E.IsAlwaysCallable expr.now }
    requires reads { Reads setting.now (E.post expr.now) }
    requires initializer_callable { I.IsAlwaysCallable initializer.now }
    requires initializer_reads { ReadsInitializers setting.now (I.post initializer.now) }
    requires body_callable { B.IsAlwaysCallable body.now }
    requires body_reads { ReadsBodies setting.now (B.post body.now) }
    requires fits { setting.now.below < 2 ^ 32 - 1 }
    requires room { 0 < setting.now.below }
    ensures value { IfOk result (λ o. seen view o ≡ created_at setting.now word tokens.now) }
    ensures height { IfOk result (HasHeights (setting.now.below + 1)) }
{
    if makes_array(tokens) {
        array(expr, initializer, alloc, setting, word, tokens)
    } else {
        object(expr, body, alloc, setting, word, tokens)
    }
}

// `Ref Args [Body]` behind the word `new`, without the body where it can't be read.
#[tactic(auto, using(parse_operators::proofs::Steps::arguments_absent), unfolding(parse_laws::specs::way::Expressions::object_at))]
fn object<'a, E: Fn(Place<'a>) -> Read<'a, Expr>, B: Fn(&'a [Token]) -> ReadClosed<'a, Member>>(
    expr: &E,
    body: &B,
    alloc: Global,
    setting: &Setting,
    word: Span,
    tokens: &'a [Token],
) -> Read<'a, Expr>
    requires callable { E.IsAlwaysCallable expr.now }
    requires reads { Reads setting.now (E.post expr.now) }
    requires body_callable { B.IsAlwaysCallable body.now }
    requires body_reads { ReadsBodies setting.now (B.post body.now) }
    requires fits { setting.now.below < 2 ^ 32 - 1 }
    ensures value { IfOk result (λ o. seen view o ≡ object_at setting.now word tokens.now) }
    ensures height { IfOk result (HasHeights (setting.now.below + 1)) }
{
    let Some(class) = reference(alloc, tokens, setting.below)? else {
        return Ok(None);
    };
    let Some(behind_class) = class.rest.whole() else {
        return Ok(None);
    };
    let Some(args) = arguments(expr, alloc, setting, behind_class)? else {
        return Ok(None);
    };
    let made = Made {
        word,
        class: class.tree,
        args: args.items,
        height: class.height.max(args.height),
    };
    match body(args.rest)? {
        Some(members) => Ok(Some(anonymous(made, members))),
        None => Ok(Some(plain(made, args.close, args.rest))),
    }
}

// The word `new`, a class and arguments, with the height of the highest of them.
#[derive(Drop)]
struct Made {
    word: Span,
    class: TyName,
    args: Vec<Expr>,
    height: u32,
}

// `new A(e, ..)`, of which the closing bracket has this span.
fn plain(made: Made, close: Span, rest: &[Token]) -> Found<Expr>
    requires right { IsMadeRight made }
    requires fits { made.height < 2 ^ 32 - 1 }
    ensures value { seen_found result ≡ (
      tree.new_object made.word (type_view made.class)
          (views_of made.args.items) (joined made.word close),
      rest.now,
    ) }
    ensures height { IsAbove made.height result }
{
    let span = join(made.word, close);
    Found {
        tree: make_new(made.word, made.class, made.args, span),
        height: made.height + 1,
        rest,
    }
}

// `new A(e, ..) { .. }`
fn anonymous<'a>(made: Made, members: Closed<'a, Member>) -> Found<'a, Expr>
    requires right { IsMadeRight made }
    requires members_right { members.height ≡ members_height (member_views_of members.items.items) }
    requires fits { max made.height members.height < 2 ^ 32 - 1 }
    ensures value { seen_found result ≡ (
      tree.new_anonymous made.word (type_view made.class)
          (views_of made.args.items) (member_views_of members.entry.items.items)
          (joined made.word members.entry.close),
      members.entry.rest.now,
    ) }
    ensures height { IsAbove (max made.height members.entry.height) result }
{
    let span = join(made.word, members.close);
    Found {
        tree: make_new_anonymous(made.word, made.class, made.args, members.items, span),
        height: made.height.max(members.height) + 1,
        rest: members.rest,
    }
}

// `(Prim | Name) "[" ..` behind the word `new`.
#[tactic(auto, unfolding(parse_laws::specs::way::Expressions::array_at))]
fn array<'a, E: Fn(Place<'a>) -> Read<'a, Expr>, I: Fn(&'a [Token]) -> Read<'a, Expr>>(
    expr: &E,
    initializer: &I,
    alloc: Global,
    setting: &Setting,
    word: Span,
    tokens: &'a [Token],
) -> Read<'a, Expr>
    requires callable { E.IsAlwaysCallable expr.now }
    requires reads { Reads setting.now (E.post expr.now) }
    requires initializer_callable { I.IsAlwaysCallable initializer.now }
    requires initializer_reads { ReadsInitializers setting.now (I.post initializer.now) }
    requires fits { setting.now.below < 2 ^ 32 - 1 }
    requires room { 0 < setting.now.below }
    ensures value { IfOk result (λ o. seen view o ≡ array_at setting.now word tokens.now) }
    ensures height { IfOk result (HasHeights (setting.now.below + 1)) }
{
    let Some((element, rest)) = element(alloc, tokens)? else {
        return Ok(None);
    };
    sized(expr, initializer, alloc, setting, word, element, rest)
}

// What is behind the element type of an array creation: brackets with an initializer, or lengths.
fn sized<'a, E: Fn(Place<'a>) -> Read<'a, Expr>, I: Fn(&'a [Token]) -> Read<'a, Expr>>(
    expr: &E,
    initializer: &I,
    alloc: Global,
    setting: &Setting,
    word: Span,
    element: TyName,
    tokens: &'a [Token],
) -> Read<'a, Expr>
    requires callable { E.IsAlwaysCallable expr.now }
    requires reads { Reads setting.now (E.post expr.now) }
    requires initializer_callable { I.IsAlwaysCallable initializer.now }
    requires initializer_reads { ReadsInitializers setting.now (I.post initializer.now) }
    requires fits { setting.now.below < 2 ^ 32 - 1 }
    requires room { 0 < setting.now.below }
    requires low { type_height (type_view element) ≡ 1 }
    ensures value { IfOk result (λ o. seen view o
        ≡ sized_at setting.now word (type_view element) tokens.now) }
    ensures height { IfOk result (HasHeights (setting.now.below + 1)) }
{
    let (count, _, behind_dims) = dims(word, tokens);
    if 0 < count {
        return filled(
            initializer,
            alloc,
            setting,
            word,
            element,
            count,
            behind_dims,
        );
    }
    with_lengths(expr, alloc, setting, word, element, tokens)
}

// The lengths behind the element type of an array creation, and the brackets behind them.
fn with_lengths<'a, E: Fn(Place<'a>) -> Read<'a, Expr>>(
    expr: &E,
    alloc: Global,
    setting: &Setting,
    word: Span,
    element: TyName,
    tokens: &'a [Token],
) -> Read<'a, Expr>
    requires callable { E.IsAlwaysCallable expr.now }
    requires reads { Reads setting.now (E.post expr.now) }
    requires fits { setting.now.below < 2 ^ 32 - 1 }
    requires room { 0 < setting.now.below }
    requires low { type_height (type_view element) ≡ 1 }
    ensures value { IfOk result (λ o. seen view o
        ≡ with_lengths_at setting.now word (type_view element) tokens.now) }
    ensures height { IfOk result (HasHeights (setting.now.below + 1)) }
{
    let Some(lengths) = lengths(expr, alloc, setting, tokens)? else {
        return Ok(None);
    };
    Ok(Some(empty_array(word, element, lengths)))
}

// An array creation with these lengths, and the brackets behind them.
fn empty_array<'a>(word: Span, element: TyName, lengths: Closed<'a, Expr>) -> Found<'a, Expr>
    requires low { type_height (type_view element) ≡ 1 }
    requires lengths_right { lengths.height ≡ heights (views_of lengths.items.items) }
    requires fits { lengths.height < 2 ^ 32 - 1 }
    ensures value { seen_found result ≡ empty_array_at word (type_view element)
        (views_of lengths.entry.items.items) lengths.entry.close lengths.entry.rest.now }
    ensures height { IsAbove (max 1 lengths.entry.height) result }
{
    let (count, span, rest) = dims(join(word, lengths.close), lengths.rest);
    Found {
        tree: make_new_array(element, lengths.items, count, span),
        height: lengths.height.max(1) + 1,
        rest,
    }
}

// The initializer behind the brackets of an array creation.
#[tactic(auto, unfolding(parse_laws::specs::way::Expressions::filled_at))]
fn filled<'a, I: Fn(&'a [Token]) -> Read<'a, Expr>>(
    initializer: &I,
    alloc: Global,
    setting: &Setting,
    word: Span,
    element: TyName,
    dims: usize,
    tokens: &'a [Token],
) -> Read<'a, Expr>
    requires initializer_callable { I.IsAlwaysCallable initializer.now }
    requires initializer_reads { ReadsInitializers setting.now (I.post initializer.now) }
    requires fits { setting.now.below < 2 ^ 32 - 1 }
    requires room { 0 < setting.now.below }
    requires low { type_height (type_view element) ≡ 1 }
    ensures value { IfOk result (λ o. seen view o
        ≡ filled_at setting.now word (type_view element) dims tokens.now) }
    ensures height { IfOk result (HasHeights (setting.now.below + 1)) }
{
    if !is_symbol(tokens, Symbol::OpenBrace) {
        return Ok(None);
    }
    let Some(found) = initializer(tokens)? else {
        return Ok(None);
    };
    let span = join(word, span(&found.tree));
    let init = boxed(alloc, found.tree)?;
    Ok(Some(Found {
        tree: make_expr(Expr::NewArrayOf {
            element,
            dims,
            init,
            span,
        }),
        height: found.height.max(1) + 1,
        rest: found.rest,
    }))
}
