// Operators on numbers and booleans (JLS 15.17 to 15.22).

ghost use Rattle.std.specs.Prelude.{◌≡◌, IfOk};
ghost use Rattle.je_core.specs.View.{view};
ghost use Rattle.je_core.specs.Core.{node};
ghost use Rattle.je_fitting.specs.Types.{of as the_of};
ghost use Rattle.je_typing.specs.Constants.{folded_binary as the_folded_binary};
ghost use Rattle.je_typing.specs.Operators.{binary_form, binary_node as the_binary_node, folded as the_folded};

use crate::constants::{constant_value, joined_uses, mark_of, value_in};
use crate::convert::converted;
use je_arith::{Outcome, try_binary};
use je_base::Span;
use je_core::{Base, BinOp, Expr, Memory, Value, make_binary, make_const};
use je_typing::Operands;
use std::alloc::Global;

fn folded_binary(op: BinOp, left: Option<Value>, right: Option<Value>) -> Option<Value>
    ensures { result ≡ the_folded_binary op left right }
{
    match try_binary(op, left?, right?) {
        Outcome::Gives(value) => Some(value),
        Outcome::ByZero | Outcome::Unfit => None,
    }
}

fn folded(op: BinOp, to: Operands, left: &Expr, right: &Expr) -> Option<Value>
    ensures { result ≡ the_folded op to (view left.now) (view right.now) }
{
    let left = value_in(to.left, constant_value(left));
    let right = value_in(to.right, constant_value(right));
    folded_binary(op, left, right)
}

fn unfolded(
    alloc: Global,
    op: BinOp,
    to: Operands,
    base: Base,
    at: Span,
    span: Span,
    left: Expr,
    right: Expr,
) -> Result<Expr, Memory>
    ensures { IfOk result (λ made. view made ≡
        node (binary_form op to (view left) (view right)) (the_of base) span at) }
{
    let left = converted(alloc, to.left, left)?;
    let right = converted(alloc, to.right, right)?;
    make_binary(alloc, mark_of(base, at, span), op, left, right)
}

/// An operator on two operands, each converted to its primitive type; `base` is that of the result.
pub fn binary_node(
    alloc: Global,
    op: BinOp,
    to: Operands,
    base: Base,
    at: Span,
    span: Span,
    left: Expr,
    right: Expr,
) -> Result<Expr, Memory>
    ensures { IfOk result (λ made. view made ≡
        the_binary_node op to base at span (view left) (view right)) }
{
    match folded(op, to, &left, &right) {
        Some(value) => {
            let uses = joined_uses(alloc, &left, &right)?;
            Ok(make_const(mark_of(base, at, span), value, uses))
        }
        None => unfolded(alloc, op, to, base, at, span, left, right),
    }
}
