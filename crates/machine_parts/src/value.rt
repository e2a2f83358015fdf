// Operators on values.

ghost use Rattle.std.specs.Prelude.{◌≡◌, ◌≤◌, ◌+◌, IfOk, true, false};
ghost use Rattle.machine_parts.specs.way.Clauses.{IsValue, GoesToValue};
ghost use Rattle.machine_parts.specs.Ways.{height, gives};
ghost use Rattle.je_core.specs.View.{view};
ghost use Rattle.je_core.specs.declared.value.Value.TheVariants.{Bool as Truth};
ghost use Rattle.je_java.specs.Equality.{equality as the_equality, operated as the_operated};
ghost use Rattle.je_java.specs.Steps.{binary as the_binary, unary as the_unary, convert as the_convert, branch as the_branch, ret, constant as the_constant};

use crate::frame::{Context, Control};
use crate::make::raise_arithmetic;
use je_arith::{Outcome, try_binary, try_convert, try_unary};
use je_core::{BinOp, Expr, Memory, Program, Ty, UnOp, Value};
use je_heap::Heap;
use object_parts::values::same_reference;
use std::rc::Rc;

fn equality(op: BinOp, same: bool) -> Outcome
    ensures { result ≡ the_equality op same }
{
    match op {
        BinOp::Eq => Outcome::Gives(Value::Bool(same)),
        BinOp::Ne => Outcome::Gives(Value::Bool(!same)),
        _ => Outcome::Unfit,
    }
}

// What an operator on two values of any type comes to.
fn operated(op: BinOp, a: Value, b: Value) -> Outcome
    ensures { result ≡ the_operated op a b }
{
    match same_reference(a, b) {
        Some(same) => equality(op, same),
        None => try_binary(op, a, b),
    }
}

/// An operator on two values.
pub fn binary(
    context: &mut Context,
    heap: &mut Heap,
    program: &Program,
    op: BinOp,
    left: Value,
    right: Value,
) -> Result<Control, Memory>
    ensures goes { IfOk result (GoesToValue program.now context.old heap.old context.new heap.new
        (λ p m. the_binary p op left right)) }
    ensures short { IfOk result (λ c. height context.new + gives c ≤ height context.old + 1) }
    ensures begun { context.new.begun ≡ context.old.begun }
{
    match operated(op, left, right) {
        Outcome::Gives(value) => Ok(Control::Give(value)),
        Outcome::ByZero => raise_arithmetic(context, heap, program),
        Outcome::Unfit => Ok(Control::Wrong),
    }
}

/// An operator on one value.
pub fn unary(op: UnOp, operand: Value) -> Control
    ensures goes { IsValue result (λ p m. the_unary op operand) }
    ensures short { gives result ≤ 1 }
{
    match try_unary(op, operand) {
        Some(value) => Control::Give(value),
        None => Control::Wrong,
    }
}

/// A number as one of another type; an array type has none.
pub fn convert(ty: Ty, operand: Value) -> Control
    ensures goes { IsValue result (λ p m. the_convert ty operand) }
    ensures short { gives result ≤ 1 }
{
    if ty.dims > 0 {
        return Control::Wrong;
    }
    match try_convert(operand, ty.base) {
        Some(value) => Control::Give(value),
        None => Control::Wrong,
    }
}

/// `&&`, once its left operand has a value.
pub fn and(held: Value, right: Rc<Expr>) -> Control
    ensures goes { IsValue result
        (λ p m. the_branch held (m.eval (view right.value)) (ret (Truth false))) }
    ensures short { gives result ≤ 1 }
{
    match held {
        Value::Bool(true) => Control::Eval(right),
        Value::Bool(false) => Control::Give(Value::Bool(false)),
        _ => Control::Wrong,
    }
}

/// `||`, once its left operand has a value.
pub fn or(held: Value, right: Rc<Expr>) -> Control
    ensures goes { IsValue result
        (λ p m. the_branch held (ret (Truth true)) (m.eval (view right.value))) }
    ensures short { gives result ≤ 1 }
{
    match held {
        Value::Bool(true) => Control::Give(Value::Bool(true)),
        Value::Bool(false) => Control::Eval(right),
        _ => Control::Wrong,
    }
}

/// The operand of `condition ? yes : no` that the condition's value chooses.
pub fn choose(held: Value, yes: Rc<Expr>, no: Rc<Expr>) -> Control
    ensures goes { IsValue result
        (λ p m. the_branch held (m.eval (view yes.value)) (m.eval (view no.value))) }
    ensures short { gives result ≤ 1 }
{
    match held {
        Value::Bool(true) => Control::Eval(yes),
        Value::Bool(false) => Control::Eval(no),
        _ => Control::Wrong,
    }
}

/// A constant, which is no reference.
pub fn constant(value: Value) -> Control
    ensures goes { IsValue result (λ p m. the_constant value) }
    ensures short { gives result ≤ 1 }
{
    match value {
        Value::Ref(_) => Control::Wrong,
        _ => Control::Give(value),
    }
}
