// Reads operands of binary operators.

ghost use Rattle.std.specs.Prelude.{◌≡◌, ◌+◌, ◌-◌, ◌<◌, ◌^◌, IfOk};
ghost use Rattle.je_ast.specs.View.{view};
ghost use Rattle.parse_types.specs.way.Views.{seen};
ghost use Rattle.parse_below.specs.way.Readers.{Reads, ReadsInitializers, ReadsBodies};
ghost use Rattle.parse_below.specs.way.Views.{HasHeights};
ghost use Rattle.parse_operators.specs.way.Readings.{unary_at};

use crate::postfix::postfix;
use je_ast::{Expr, Member};
use je_token::Token;
use parse_below::Setting;
use parse_operators::{cast, prefix, prefix_operator};
use parse_types::{Place, Read, ReadClosed, first_span, is_cast};
use std::alloc::Global;

/// A prefix operator with its operand, a cast, or a postfix expression.
pub fn unary<
    'a,
    E: Fn(Place<'a>) -> Read<'a, Expr>,
    I: Fn(&'a [Token]) -> Read<'a, Expr>,
    B: Fn(&'a [Token]) -> ReadClosed<'a, Member>,
>(
    expr: &E,
    initializer: &I,
    body: &B,
    alloc: Global,
    setting: &Setting,
    tokens: &'a [Token],
) -> Read<'a, Expr>
    requires callable { E.IsAlwaysCallable expr.now }
    requires reads { Reads setting.now (E.post expr.now) }
    requires initializer_callable { I.IsAlwaysCallable initializer.now }
    requires initializer_reads { ReadsInitializers setting.now (I.post initializer.now) }
    requires body_callable { B.IsAlwaysCallable body.now }
    requires body_reads { ReadsBodies setting.now (B.post body.now) }
    requires fits { setting.now.below < 2 ^ 32 - 1 }
    ensures value { IfOk result (λ o. seen view o ≡ unary_at setting.now tokens.now) }
    ensures height { IfOk result (HasHeights (setting.now.below + 1)) }
{
    if let Some((op, rest)) = prefix_operator(tokens) {
        return prefix(expr, alloc, setting, op, first_span(tokens), rest);
    }
    if is_cast(tokens) {
        return cast(expr, alloc, setting, tokens);
    }
    postfix(expr, initializer, body, alloc, setting, tokens)
}
