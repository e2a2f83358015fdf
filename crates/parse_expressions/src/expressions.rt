// Reads whole expressions.

ghost use Rattle.std.specs.Prelude.{◌≡◌, ◌+◌, ◌-◌, ◌<◌, ◌^◌, IfOk};
ghost use Rattle.je_ast.specs.View.{view};
ghost use Rattle.parse_types.specs.way.Views.{seen};
ghost use Rattle.parse_below.specs.way.Readers.{Reads, ReadsInitializers, ReadsBodies};
ghost use Rattle.parse_below.specs.way.Views.{HasHeights, seen_found, IsRight};
ghost use Rattle.parse_operators.specs.way.Readings.{expression_layer, behind_operand_at};

use crate::operations::operations;
use crate::unary::unary;
use je_ast::{Expr, Member};
use je_base::Memory;
use je_token::Token;
use parse_below::Setting;
use parse_operators::{assignment, conditional};
use parse_types::{Found, Place, Read, ReadClosed};
use std::alloc::Global;

/// The longest expression of at least the place's level, of height at most `below + 1`. `expr`
/// reads an expression of height at most `below`, `initializer` an initializer, and `body` a class
/// body with members so high.
#[tactic(auto, unfolding(parse_laws::specs::way::Expressions::expression_layer))]
pub fn expression<
    'a,
    E: Fn(Place<'a>) -> Read<'a, Expr>,
    I: Fn(&'a [Token]) -> Read<'a, Expr>,
    B: Fn(&'a [Token]) -> ReadClosed<'a, Member>,
>(
    expr: &E,
    initializer: &I,
    body: &B,
    alloc: Global,
    setting: &Setting,
    place: Place<'a>,
) -> Read<'a, Expr>
    requires callable { E.IsAlwaysCallable expr.now }
    requires reads { Reads setting.now (E.post expr.now) }
    requires initializer_callable { I.IsAlwaysCallable initializer.now }
    requires initializer_reads { ReadsInitializers setting.now (I.post initializer.now) }
    requires body_callable { B.IsAlwaysCallable body.now }
    requires body_reads { ReadsBodies setting.now (B.post body.now) }
    requires fits { setting.now.below < 2 ^ 32 - 1 }
    ensures value { IfOk result (λ o. seen view o
        ≡ expression_layer setting.now place.entry.least place.entry.tokens.now) }
    ensures height { IfOk result (HasHeights (setting.now.below + 1)) }
{
    let Some(first) = unary(expr, initializer, body, alloc, setting, place.tokens)? else {
        return Ok(None);
    };
    Ok(Some(behind_operand(expr, alloc, setting, first, place.least)?))
}

// The operators behind an operand.
fn behind_operand<'a, E: Fn(Place<'a>) -> Read<'a, Expr>>(
    expr: &E,
    alloc: Global,
    setting: &Setting,
    first: Found<'a, Expr>,
    least: u32,
) -> Result<Found<'a, Expr>, Memory>
    requires callable { E.IsAlwaysCallable expr.now }
    requires reads { Reads setting.now (E.post expr.now) }
    requires fits { setting.now.below < 2 ^ 32 - 1 }
    requires right { IsRight (setting.now.below + 1) first }
    ensures value { IfOk result (λ x. seen_found x
        ≡ behind_operand_at setting.now least (view first.entry.tree) first.entry.rest.now) }
    ensures height { IfOk result (IsRight (setting.now.below + 1)) }
{
    let joined = operations(expr, alloc, setting, first, least)?;
    let chosen = conditional(expr, alloc, setting, joined, least)?;
    assignment(expr, alloc, setting, chosen, least)
}
