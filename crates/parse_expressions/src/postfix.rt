// Reads what is selected from a primary, and the operators behind it.

ghost use Rattle.std.specs.Prelude.{◌≡◌, ◌+◌, ◌-◌, ◌<◌, ◌^◌, suc, max, IfOk};
ghost use Rattle.je_ast.specs.Height.{height, heights};
ghost use Rattle.je_ast.specs.Spans.{span_of, join as joined};
ghost use Rattle.je_ast.specs.Trees as tree;
ghost use Rattle.je_ast.specs.View.{view, views_of};
ghost use Rattle.je_grammar.specs.Tokens.{first_span as the_first_span};
ghost use Rattle.parse_types.specs.way.Views.{seen, read_of};
ghost use Rattle.parse_below.specs.way.Readers.{Reads, ReadsInitializers, ReadsBodies};
ghost use Rattle.parse_below.specs.way.Views.{HasHeights, seen_found, IsRight};
ghost use Rattle.parse_operators.specs.way.Readings.{postfix_at, selections_at, increments_at};
ghost use Rattle.parse_operators.specs.way.Readings.{behind_primary_at, member_of_at, selected_at};
ghost use Rattle.parse_operators.specs.way.Views.{IsAbove};

use crate::primaries::primary;
use je_ast::{Expr, Identifier, Member, PostfixOp, make_call_on, make_expr};
use je_base::Memory;
use je_token::{Symbol, Token};
use parse_below::{Setting, boxed};
use parse_operators::{Inside, arguments, is_bare_creation, length, postfix_operator, span};
use parse_types::{Closed, Found, Place, Read, ReadClosed, behind, first_span, identifier, join};
use std::alloc::Global;

/// A primary with its selections, and `++` and `--` behind it.
#[tactic(auto, unfolding(parse_laws::specs::way::Expressions::postfix_at))]
pub fn postfix<
    'a,
    E: Fn(Place<'a>) -> Read<'a, Expr>,
    I: Fn(&'a [Token]) -> Read<'a, Expr>,
    B: Fn(&'a [Token]) -> ReadClosed<'a, Member>,
>(
    expr: &E,
    initializer: &I,
    body: &B,
    alloc: Global,
    setting: &Setting,
    tokens: &'a [Token],
) -> Read<'a, Expr>
    requires callable { E.IsAlwaysCallable expr.now }
    requires reads { Reads setting.now (E.post expr.now) }
    requires initializer_callable { I.IsAlwaysCallable initializer.now }
    requires initializer_reads { ReadsInitializers setting.now (I.post initializer.now) }
    requires body_callable { B.IsAlwaysCallable body.now }
    requires body_reads { ReadsBodies setting.now (B.post body.now) }
    requires fits { setting.now.below < 2 ^ 32 - 1 }
    ensures value { IfOk result (λ o. seen view o ≡ postfix_at setting.now tokens.now) }
    ensures height { IfOk result (HasHeights (setting.now.below + 1)) }
{
    let Some(first) = primary(expr, initializer, body, alloc, setting, tokens)? else {
        return Ok(None);
    };
    Ok(Some(behind_primary(expr, alloc, setting, first)?))
}

// The selections behind a primary, and `++` and `--` behind them.
fn behind_primary<'a, E: Fn(Place<'a>) -> Read<'a, Expr>>(
    expr: &E,
    alloc: Global,
    setting: &Setting,
    primary: Found<'a, Expr>,
) -> Result<Found<'a, Expr>, Memory>
    requires callable { E.IsAlwaysCallable expr.now }
    requires reads { Reads setting.now (E.post expr.now) }
    requires fits { setting.now.below < 2 ^ 32 - 1 }
    requires right { IsRight (setting.now.below + 1) primary }
    ensures value { IfOk result (λ x. seen_found x
        ≡ behind_primary_at setting.now (view primary.entry.tree) primary.entry.rest.now) }
    ensures height { IfOk result (IsRight (setting.now.below + 1)) }
{
    let selected = selections(expr, alloc, setting, primary)?;
    increments(alloc, setting, selected)
}

// `"." id [Args]` and `"[" Expr "]"` behind a primary, as far as they go.
#[tactic(auto, using(crate::proofs::SelectionTurns::selections_ends))]
fn selections<'a, E: Fn(Place<'a>) -> Read<'a, Expr>>(
    expr: &E,
    alloc: Global,
    setting: &Setting,
    primary: Found<'a, Expr>,
) -> Result<Found<'a, Expr>, Memory>
    requires callable { E.IsAlwaysCallable expr.now }
    requires reads { Reads setting.now (E.post expr.now) }
    requires fits { setting.now.below < 2 ^ 32 - 1 }
    requires right { IsRight (setting.now.below + 1) primary }
    ensures value { IfOk result (λ x. seen_found x ≡ selections_at setting.now
        (suc setting.now.below) (view primary.entry.tree) primary.entry.rest.now) }
    ensures height { IfOk result (IsRight (setting.now.below + 1)) }
{
    let mut left = primary;
    for _ in 0..setting.below + 1 {
        if setting.below < left.height {
            return Ok(left);
        }
        if let Some((member, rest)) = selected(left.rest) {
            left = member_of(expr, alloc, setting, left, member, rest)?;
            continue;
        }
        if is_bare_creation(&left.tree) {
            return Ok(left);
        }
        let Some(inside) = length(expr, setting, left.rest)? else {
            return Ok(left);
        };
        left = index(alloc, left, inside)?;
    }
    Ok(left)
}

// The identifier in `"." id`, and the tokens behind it.
fn selected(tokens: &[Token]) -> Option<(Identifier, &[Token])>
    ensures { read_of result ≡ selected_at tokens.now }
{
    identifier(behind(tokens, Symbol::Dot)?)
}

// A call of the member where its arguments can be read, and else its selection.
fn member_of<'a, E: Fn(Place<'a>) -> Read<'a, Expr>>(
    expr: &E,
    alloc: Global,
    setting: &Setting,
    left: Found<'a, Expr>,
    member: Identifier,
    tokens: &'a [Token],
) -> Result<Found<'a, Expr>, Memory>
    requires callable { E.IsAlwaysCallable expr.now }
    requires reads { Reads setting.now (E.post expr.now) }
    requires fits { setting.now.below < 2 ^ 32 - 1 }
    requires right { IsRight setting.now.below left }
    ensures value { IfOk result (λ x. seen_found x
        ≡ member_of_at setting.now (view left.entry.tree) member tokens.now) }
    ensures height { IfOk result (IsRight (setting.now.below + 1)) }
{
    match arguments(expr, alloc, setting, tokens)? {
        Some(args) => call_on(alloc, left, member, args),
        None => select(alloc, left, member, tokens),
    }
}

// `e.f(e, ..)`
fn call_on<'a>(
    alloc: Global,
    left: Found<'a, Expr>,
    method: Identifier,
    args: Closed<'a, Expr>,
) -> Result<Found<'a, Expr>, Memory>
    requires left_right { left.height ≡ height (view left.tree) }
    requires args_right { args.height ≡ heights (views_of args.items.items) }
    requires fits { max left.height args.height < 2 ^ 32 - 1 }
    ensures value { IfOk result (λ x. seen_found x
        ≡ (
          tree.call_on (view left.entry.tree) method (views_of args.entry.items.items)
              (joined (span_of (view left.entry.tree)) args.entry.close),
          args.entry.rest.now,
        )) }
    ensures height { IfOk result (IsAbove (max left.entry.height args.entry.height)) }
{
    let span = join(span(&left.tree), args.close);
    let object = boxed(alloc, left.tree)?;
    Ok(Found {
        tree: make_call_on(object, method, args.items, span),
        height: left.height.max(args.height) + 1,
        rest: args.rest,
    })
}

// `e.x`
fn select<'a>(
    alloc: Global,
    left: Found<'a, Expr>,
    field: Identifier,
    rest: &'a [Token],
) -> Result<Found<'a, Expr>, Memory>
    requires left_right { left.height ≡ height (view left.tree) }
    requires fits { left.height < 2 ^ 32 - 1 }
    ensures value { IfOk result (λ x. seen_found x ≡ (
      tree.select (view left.entry.tree) field
          (joined (span_of (view left.entry.tree)) field.span),
      rest.now,
    )) }
    ensures height { IfOk result (IsAbove left.entry.height) }
{
    let span = join(span(&left.tree), field.span);
    let object = boxed(alloc, left.tree)?;
    Ok(Found {
        tree: make_expr(Expr::Select {
            object,
            field,
            span,
        }),
        height: left.height + 1,
        rest,
    })
}

// `e[e]`
fn index<'a>(
    alloc: Global,
    left: Found<'a, Expr>,
    inside: Inside<'a>,
) -> Result<Found<'a, Expr>, Memory>
    requires left_right { left.height ≡ height (view left.tree) }
    requires inside_right { inside.height ≡ height (view inside.tree) }
    requires fits { max left.height inside.height < 2 ^ 32 - 1 }
    ensures value { IfOk result (λ x. seen_found x
        ≡ (
          tree.index (view left.entry.tree) (view inside.entry.tree)
              (joined (span_of (view left.entry.tree)) inside.entry.close),
          inside.entry.rest.now,
        )) }
    ensures height { IfOk result (IsAbove (max left.entry.height inside.entry.height)) }
{
    let span = join(span(&left.tree), inside.close);
    let array = boxed(alloc, left.tree)?;
    let index = boxed(alloc, inside.tree)?;
    Ok(Found {
        tree: make_expr(Expr::Index { array, index, span }),
        height: left.height.max(inside.height) + 1,
        rest: inside.rest,
    })
}

// `++` and `--` behind an operand, as far as they go.
#[tactic(auto, using(crate::proofs::SelectionTurns::increments_ends))]
fn increments<'a>(
    alloc: Global,
    setting: &Setting,
    operand: Found<'a, Expr>,
) -> Result<Found<'a, Expr>, Memory>
    requires fits { setting.now.below < 2 ^ 32 - 1 }
    requires right { IsRight (setting.now.below + 1) operand }
    ensures value { IfOk result (λ x. seen_found x ≡ increments_at setting.now
        (suc setting.now.below) (view operand.entry.tree) operand.entry.rest.now) }
    ensures height { IfOk result (IsRight (setting.now.below + 1)) }
{
    let mut left = operand;
    for _ in 0..setting.below + 1 {
        if setting.below < left.height {
            return Ok(left);
        }
        let Some((op, rest)) = postfix_operator(left.rest) else {
            return Ok(left);
        };
        left = increment(alloc, left, op, rest)?;
    }
    Ok(left)
}

// `e++` or `e--`
fn increment<'a>(
    alloc: Global,
    left: Found<'a, Expr>,
    op: PostfixOp,
    rest: &'a [Token],
) -> Result<Found<'a, Expr>, Memory>
    requires left_right { left.height ≡ height (view left.tree) }
    requires fits { left.height < 2 ^ 32 - 1 }
    ensures value { IfOk result (λ x. seen_found x ≡ (
      tree.postfix op
          (the_first_span left.entry.rest.now) (view left.entry.tree)
          (joined (span_of (view left.entry.tree)) (the_first_span left.entry.rest.now)),
      rest.now,
    )) }
    ensures height { IfOk result (IsAbove left.entry.height) }
{
    let at = first_span(left.rest);
    let span = join(span(&left.tree), at);
    let operand = boxed(alloc, left.tree)?;
    Ok(Found {
        tree: make_expr(Expr::Postfix {
            op,
            at,
            operand,
            span,
        }),
        height: left.height + 1,
        rest,
    })
}
