// Reads prefix operators and casts.

ghost use Rattle.std.specs.Prelude.{◌≡◌, ◌+◌, ◌-◌, ◌<◌, ◌^◌, IfOk};
ghost use Rattle.je_ast.specs.View.{view};
ghost use Rattle.je_ast.specs.Types.{type_view};
ghost use Rattle.parse_types.specs.way.Views.{seen};
ghost use Rattle.parse_below.specs.way.Views.{HasHeights};
ghost use Rattle.parse_below.specs.way.Readers.{Reads};
ghost use Rattle.parse_operators.specs.way.Readings.{cast_at, prefix_at, may_be_cast_at};

use crate::shape::span;
use je_ast::{Expr, PrefixOp, TyName, make_expr};
use je_base::Span;
use je_token::{Symbol, Token};
use parse_below::{Setting, boxed};
use parse_types::{Found, Place, Read, begins_operand, behind, first_span, join, plain_type};
use std::alloc::Global;

/// `"(" Prim {"[" "]"} ")" Unary | "(" Name {"[" "]"} ")" UnaryNotPlusMinus`
#[tactic(auto, using(crate::proofs::Heights::height_positive), unfolding(parse_laws::specs::way::Expressions::cast_at))]
pub fn cast<'a, E: Fn(Place<'a>) -> Read<'a, Expr>>(
    expr: E,
    alloc: Global,
    setting: &Setting,
    tokens: &'a [Token],
) -> Read<'a, Expr>
    requires callable { E.IsAlwaysCallable expr }
    requires reads { Reads setting.now (E.post expr) }
    requires fits { setting.now.below < 2 ^ 32 - 1 }
    ensures value { IfOk result (λ o. seen view o ≡ cast_at setting.now tokens.now) }
    ensures height { IfOk result (HasHeights (setting.now.below + 1)) }
{
    let Some(inside) = behind(tokens, Symbol::OpenParen) else {
        return Ok(None);
    };
    let Some((ty, rest)) = plain_type(alloc, inside)? else {
        return Ok(None);
    };
    let Some(rest) = behind(rest, Symbol::CloseParen) else {
        return Ok(None);
    };
    if !may_be_cast(&ty, rest) {
        return Ok(None);
    }
    let Some(found) = expr(Place {
        tokens: rest,
        least: 13,
    })?
    else {
        return Ok(None);
    };
    let span = join(first_span(tokens), span(&found.tree));
    let operand = boxed(alloc, found.tree)?;
    Ok(Some(Found {
        tree: make_expr(Expr::Cast { ty, operand, span }),
        height: found.height + 1,
        rest: found.rest,
    }))
}

// Whether a cast to this type may stand before these tokens: to a primitive type always, to a class before an operand.
#[tactic(auto, using(je_ast::proofs::Views::type_is))]
fn may_be_cast(ty: &TyName, tokens: &[Token]) -> bool
    ensures { result ≡ may_be_cast_at (type_view ty.now) tokens.now }
{
    match ty {
        TyName::Primitive { .. } => true,
        TyName::Class { .. } => begins_operand(tokens),
    }
}

/// The operand of a prefix operator, whose token has this span.
#[tactic(auto, unfolding(parse_laws::specs::way::Expressions::prefix_at))]
pub fn prefix<'a, E: Fn(Place<'a>) -> Read<'a, Expr>>(
    expr: E,
    alloc: Global,
    setting: &Setting,
    op: PrefixOp,
    at: Span,
    tokens: &'a [Token],
) -> Read<'a, Expr>
    requires callable { E.IsAlwaysCallable expr }
    requires reads { Reads setting.now (E.post expr) }
    requires fits { setting.now.below < 2 ^ 32 - 1 }
    ensures value { IfOk result (λ o. seen view o ≡ prefix_at setting.now op at tokens.now) }
    ensures height { IfOk result (HasHeights (setting.now.below + 1)) }
{
    let Some(found) = expr(Place { tokens, least: 13 })? else {
        return Ok(None);
    };
    let span = join(at, span(&found.tree));
    let operand = boxed(alloc, found.tree)?;
    Ok(Some(Found {
        tree: make_expr(Expr::Prefix {
            op,
            at,
            operand,
            span,
        }),
        height: found.height + 1,
        rest: found.rest,
    }))
}
