// Operators on one operand (JLS 15.15, 15.16).

ghost use Rattle.std.specs.Prelude.{◌≡◌, IfOk};
ghost use Rattle.je_core.specs.View.{view};
ghost use Rattle.je_typing.specs.Constants.{folded_unary as the_folded_unary};
ghost use Rattle.je_typing.specs.Operators.{plus_node as the_plus_node, unary_node as the_unary_node};

use crate::constants::{constant_value, mark_of, uses_of, value_in};
use crate::convert::converted;
use je_arith::try_unary;
use je_base::Span;
use je_core::{Base, Expr, Memory, UnOp, Value, make_const, make_unary};
use std::alloc::Global;

/// An operand in a primitive type, by unary plus or by a cast.
pub fn conversion_node(
    alloc: Global,
    base: Base,
    at: Span,
    span: Span,
    operand: Expr,
) -> Result<Expr, Memory>
    ensures { IfOk result (λ made. view made ≡ the_plus_node base at span (view operand)) }
{
    match value_in(base, constant_value(&operand)) {
        Some(value) => {
            let uses = uses_of(alloc, &operand)?;
            Ok(make_const(mark_of(base, at, span), value, uses))
        }
        None => converted(alloc, base, operand),
    }
}

fn folded_unary(op: UnOp, value: Option<Value>) -> Option<Value>
    ensures { result ≡ the_folded_unary op value }
{
    try_unary(op, value?)
}

/// An operator on an operand that is converted to a primitive type, which is that of the result.
pub fn unary_node(
    alloc: Global,
    op: UnOp,
    base: Base,
    at: Span,
    span: Span,
    operand: Expr,
) -> Result<Expr, Memory>
    ensures { IfOk result (λ made. view made ≡ the_unary_node op base at span (view operand)) }
{
    match folded_unary(op, value_in(base, constant_value(&operand))) {
        Some(value) => {
            let uses = uses_of(alloc, &operand)?;
            Ok(make_const(mark_of(base, at, span), value, uses))
        }
        None => {
            let operand = converted(alloc, base, operand)?;
            make_unary(alloc, mark_of(base, at, span), op, operand)
        }
    }
}
