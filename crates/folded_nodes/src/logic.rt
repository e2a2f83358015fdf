// Equality of references, and the logical operators (JLS 15.21.3, 15.23, 15.24).

ghost use Rattle.std.specs.Prelude.{◌≡◌, IfOk, Option, List, ℕ, option_map};
ghost use Rattle.std.specs.Str.{bytes_eq};
ghost use Rattle.je_core.specs.View.{view};
ghost use Rattle.je_typing.specs.Constants.{constant_text as the_constant_text};
ghost use Rattle.je_typing.specs.Operators.{same_texts as the_same_texts, reference_node as the_reference_node, logical_value as the_logical_value, logical_form, logical_node as the_logical_node};
ghost use Rattle.je_core.specs.Core.{node};
ghost use Rattle.je_core.specs.declared.types.Base.TheVariants.{Bool};
ghost use Rattle.je_fitting.specs.Types.{of as the_of};

use crate::constants::{constant_text, constant_value, joined_uses, mark_of};
use je_base::Span;
use je_core::{
    Base, BinOp, Expr, Memory, Units, Value, make_and, make_binary, make_const, make_or,
};
use std::alloc::Global;

fn equals(op: BinOp, left: &Units, right: &Units) -> Value
    ensures { Some result ≡ the_same_texts op (Some left.now) (Some right.now) }
{
    let same = left.as_slice() == right.as_slice();
    match op {
        BinOp::Eq => Value::Bool(same),
        _ => Value::Bool(!same),
    }
}

fn same_texts(op: BinOp, left: &Expr, right: &Expr) -> Option<Value>
    ensures { result ≡ the_same_texts op
        (the_constant_text (view left.now)) (the_constant_text (view right.now)) }
{
    let left = constant_text(left)?;
    let right = constant_text(right)?;
    Some(equals(op, left, right))
}

/// `==` or `!=` between references; between constant strings it is a constant.
pub fn reference_node(
    alloc: Global,
    op: BinOp,
    at: Span,
    span: Span,
    left: Expr,
    right: Expr,
) -> Result<Expr, Memory>
    ensures { IfOk result (λ made. view made ≡
        the_reference_node op at span (view left) (view right)) }
{
    match same_texts(op, &left, &right) {
        Some(value) => {
            let uses = joined_uses(alloc, &left, &right)?;
            Ok(make_const(mark_of(Base::Bool, at, span), value, uses))
        }
        None => make_binary(alloc, mark_of(Base::Bool, at, span), op, left, right),
    }
}

fn logical_value(is_and: bool, left: Option<Value>, right: Option<Value>) -> Option<Value>
    ensures { result ≡ the_logical_value is_and left right }
{
    match left? {
        Value::Bool(a) => match right? {
            Value::Bool(b) => Some(Value::Bool(if is_and { a && b } else { a || b })),
            _ => None,
        },
        _ => None,
    }
}

/// `&&`, or `||`.
pub fn logical_node(
    alloc: Global,
    is_and: bool,
    at: Span,
    span: Span,
    left: Expr,
    right: Expr,
) -> Result<Expr, Memory>
    ensures { IfOk result (λ made. view made ≡
        the_logical_node is_and at span (view left) (view right)) }
{
    match logical_value(is_and, constant_value(&left), constant_value(&right)) {
        Some(value) => {
            let uses = joined_uses(alloc, &left, &right)?;
            Ok(make_const(mark_of(Base::Bool, at, span), value, uses))
        }
        None => unfolded(alloc, is_and, at, span, left, right),
    }
}

fn unfolded(
    alloc: Global,
    is_and: bool,
    at: Span,
    span: Span,
    left: Expr,
    right: Expr,
) -> Result<Expr, Memory>
    ensures { IfOk result (λ made. view made ≡
        node (logical_form is_and (view left) (view right)) (the_of Bool) span at) }
{
    let mark = mark_of(Base::Bool, at, span);
    if is_and {
        return make_and(alloc, mark, left, right);
    }
    make_or(alloc, mark, left, right)
}
