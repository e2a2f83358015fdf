// Operators on values of any type.

ghost use Rattle.std.specs.Prelude.{◌≡◌, ◌≢◌, Some, IsSome};
ghost use Rattle.je_core.specs.declared.value.Value.TheVariants.{Int as AnInt, Long as ALong};
ghost use Rattle.std.specs.Int.{w32, w64};
ghost use Rattle.je_arith.specs.Operators.{on_truths, shifted, value_of, binary as the_binary, unary as the_unary};
ghost use Rattle.je_arith.specs.declared.outcome.Outcome.TheVariants.{Unfit};

use crate::numbers::{
    int_distance, int_left_shift, int_negation, int_unsigned_shift, long_distance, long_left_shift,
    long_negation, long_unsigned_shift, on_ints, on_longs,
};
use crate::outcome::Outcome;
use je_core::{BinOp, UnOp, Value};

fn on_booleans(op: BinOp, a: bool, b: bool) -> Outcome
    ensures { result ≡ on_truths op a b }
{
    match op {
        BinOp::Eq => Outcome::Gives(Value::Bool(a == b)),
        BinOp::Ne => Outcome::Gives(Value::Bool(a != b)),
        BinOp::BitAnd => Outcome::Gives(Value::Bool(a && b)),
        BinOp::BitXor => Outcome::Gives(Value::Bool(a != b)),
        BinOp::BitOr => Outcome::Gives(Value::Bool(a || b)),
        _ => Outcome::Unfit,
    }
}

fn shift_int(op: BinOp, x: i32, s: i64) -> Outcome
    ensures { result ≡ shifted w32 AnInt op x s }
{
    match op {
        BinOp::Shl => Outcome::Gives(Value::Int(int_left_shift(x, s))),
        BinOp::Shr => Outcome::Gives(Value::Int(x >> int_distance(s))),
        BinOp::Ushr => Outcome::Gives(Value::Int(int_unsigned_shift(x, s))),
        _ => Outcome::Unfit,
    }
}

fn shift_long(op: BinOp, x: i64, s: i64) -> Outcome
    ensures { result ≡ shifted w64 ALong op x s }
{
    match op {
        BinOp::Shl => Outcome::Gives(Value::Long(long_left_shift(x, s))),
        BinOp::Shr => Outcome::Gives(Value::Long(x >> long_distance(s))),
        BinOp::Ushr => Outcome::Gives(Value::Long(long_unsigned_shift(x, s))),
        _ => Outcome::Unfit,
    }
}

/// What an operator on two values comes to (JLS 15.17 to 15.22); it takes booleans together, and ints and longs that
/// binary promotion has made of one type, or a shift's, each promoted alone.
pub fn try_binary(op: BinOp, a: Value, b: Value) -> Outcome
    ensures { result ≡ the_binary op a b }
{
    match (a, b) {
        (Value::Int(x), Value::Int(y)) => on_ints(op, x, y),
        (Value::Int(x), Value::Long(y)) => shift_int(op, x, y),
        (Value::Long(x), Value::Int(y)) => shift_long(op, x, y as i64),
        (Value::Long(x), Value::Long(y)) => on_longs(op, x, y),
        (Value::Bool(a), Value::Bool(b)) => on_booleans(op, a, b),
        _ => Outcome::Unfit,
    }
}

/// What an operator on one value gives (JLS 15.15); None exactly where it takes no value of this type.
pub fn try_unary(op: UnOp, a: Value) -> Option<Value>
    ensures { result ≡ the_unary op a }
{
    match (op, a) {
        (UnOp::Minus, Value::Int(x)) => Some(Value::Int(int_negation(x))),
        (UnOp::Minus, Value::Long(x)) => Some(Value::Long(long_negation(x))),
        (UnOp::Tilde, Value::Int(x)) => Some(Value::Int(!x)),
        (UnOp::Tilde, Value::Long(x)) => Some(Value::Long(!x)),
        (UnOp::Not, Value::Bool(b)) => Some(Value::Bool(!b)),
        _ => None,
    }
}

/// An operator on two values of promoted types that it takes together; None where it divides by zero.
pub fn binary(op: BinOp, a: Value, b: Value) -> Option<Value>
    requires { the_binary op a b ≢ Unfit }
    ensures { result ≡ value_of (the_binary op a b) }
{
    match try_binary(op, a, b) {
        Outcome::Gives(value) => Some(value),
        Outcome::ByZero => None,
        Outcome::Unfit => unreachable!(),
    }
}

/// An operator on a value of a promoted type that it takes.
pub fn unary(op: UnOp, a: Value) -> Value
    requires { IsSome (the_unary op a) }
    ensures { Some result ≡ the_unary op a }
{
    match try_unary(op, a) {
        Some(value) => value,
        None => unreachable!(),
    }
}
