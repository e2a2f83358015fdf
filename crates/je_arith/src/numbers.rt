// Operators on ints and longs: one body for both.

ghost use Rattle.std.specs.Prelude.{◌≡◌, ◌<◌};
ghost use Rattle.std.specs.Int.{IsNonZero, w32, w64};
ghost use Rattle.je_core.specs.declared.value.Value.TheVariants.{Int as AnInt, Long as ALong};
ghost use Rattle.je_arith.specs.Arithmetic.{negation, quotient, remainder};
ghost use Rattle.je_arith.specs.Operators.{on_numbers, unless_zero};
ghost use Rattle.je_arith.specs.Shifts.{distance, left_shift, unsigned_right_shift};

use crate::outcome::Outcome;
use je_core::{BinOp, Value};

pub fn int_distance(s: i64) -> u32
    ensures value { result ≡ distance w32 s }
    ensures small { result < 32 }
{
    s.rem_euclid(32) as u32
}

pub fn long_distance(s: i64) -> u32
    ensures value { result ≡ distance w64 s }
    ensures small { result < 64 }
{
    s.rem_euclid(64) as u32
}

#[tactic(auto, using(crate::proofs::Wraps::int_div_is))]
fn int_divided(x: i32, y: i32) -> i32
    requires { IsNonZero w32 y }
    ensures { result ≡ quotient w32 x y }
{
    x.wrapping_div(y)
}

fn int_quotient(x: i32, y: i32) -> Outcome
    ensures { result ≡ unless_zero y (AnInt (quotient w32 x y)) }
{
    if y == 0 {
        return Outcome::ByZero;
    }
    Outcome::Gives(Value::Int(int_divided(x, y)))
}

fn int_remainder(x: i32, y: i32) -> Outcome
    ensures { result ≡ unless_zero y (AnInt (remainder x y)) }
{
    if y == 0 {
        return Outcome::ByZero;
    }
    Outcome::Gives(Value::Int(x.wrapping_rem(y)))
}

#[tactic(auto, using(crate::proofs::Wraps::int_shl_is))]
pub fn int_left_shift(x: i32, s: i64) -> i32
    ensures { result ≡ left_shift w32 x s }
{
    x.wrapping_shl(int_distance(s))
}

pub fn int_unsigned_shift(x: i32, s: i64) -> i32
    ensures { result ≡ unsigned_right_shift w32 x s }
{
    (x.cast_unsigned() >> int_distance(s)).cast_signed()
}

#[tactic(auto, using(crate::proofs::Wraps::long_div_is))]
fn long_divided(x: i64, y: i64) -> i64
    requires { IsNonZero w64 y }
    ensures { result ≡ quotient w64 x y }
{
    x.wrapping_div(y)
}

fn long_quotient(x: i64, y: i64) -> Outcome
    ensures { result ≡ unless_zero y (ALong (quotient w64 x y)) }
{
    if y == 0 {
        return Outcome::ByZero;
    }
    Outcome::Gives(Value::Long(long_divided(x, y)))
}

fn long_remainder(x: i64, y: i64) -> Outcome
    ensures { result ≡ unless_zero y (ALong (remainder x y)) }
{
    if y == 0 {
        return Outcome::ByZero;
    }
    Outcome::Gives(Value::Long(x.wrapping_rem(y)))
}

#[tactic(auto, using(crate::proofs::Wraps::long_shl_is))]
pub fn long_left_shift(x: i64, s: i64) -> i64
    ensures { result ≡ left_shift w64 x s }
{
    x.wrapping_shl(long_distance(s))
}

pub fn long_unsigned_shift(x: i64, s: i64) -> i64
    ensures { result ≡ unsigned_right_shift w64 x s }
{
    (x.cast_unsigned() >> long_distance(s)).cast_signed()
}

#[tactic(auto, using(crate::proofs::Wraps::wrapped))]
pub fn int_negation(x: i32) -> i32
    ensures { result ≡ negation w32 x }
{
    x.wrapping_neg()
}

#[tactic(auto, using(crate::proofs::Wraps::wrapped))]
pub fn long_negation(x: i64) -> i64
    ensures { result ≡ negation w64 x }
{
    x.wrapping_neg()
}

// An operator on two numbers of one type, and a shift of one by the other.
macro_rules! on_numbers {
    ($op:expr, $x:expr, $y:expr, $of:path, $quotient:path, $remainder:path, $left:path, $unsigned:path, $distance:path) => {
        match $op {
            BinOp::Mul => Outcome::Gives($of($x.wrapping_mul($y))),
            BinOp::Div => $quotient($x, $y),
            BinOp::Rem => $remainder($x, $y),
            BinOp::Add => Outcome::Gives($of($x.wrapping_add($y))),
            BinOp::Sub => Outcome::Gives($of($x.wrapping_sub($y))),
            BinOp::Shl => Outcome::Gives($of($left($x, $y as i64))),
            BinOp::Shr => Outcome::Gives($of($x >> $distance($y as i64))),
            BinOp::Ushr => Outcome::Gives($of($unsigned($x, $y as i64))),
            BinOp::Lt => Outcome::Gives(Value::Bool($x < $y)),
            BinOp::Gt => Outcome::Gives(Value::Bool($x > $y)),
            BinOp::Le => Outcome::Gives(Value::Bool($x <= $y)),
            BinOp::Ge => Outcome::Gives(Value::Bool($x >= $y)),
            BinOp::Eq => Outcome::Gives(Value::Bool($x == $y)),
            BinOp::Ne => Outcome::Gives(Value::Bool($x != $y)),
            BinOp::BitAnd => Outcome::Gives($of($x & $y)),
            BinOp::BitXor => Outcome::Gives($of($x ^ $y)),
            BinOp::BitOr => Outcome::Gives($of($x | $y)),
        }
    };
}

/// An operator on two ints.
pub fn on_ints(op: BinOp, x: i32, y: i32) -> Outcome
    ensures { result ≡ on_numbers w32 AnInt op x y }
{
    on_numbers!(
        op,
        x,
        y,
        Value::Int,
        int_quotient,
        int_remainder,
        int_left_shift,
        int_unsigned_shift,
        int_distance
    )
}

/// An operator on two longs.
pub fn on_longs(op: BinOp, x: i64, y: i64) -> Outcome
    ensures { result ≡ on_numbers w64 ALong op x y }
{
    on_numbers!(
        op,
        x,
        y,
        Value::Long,
        long_quotient,
        long_remainder,
        long_left_shift,
        long_unsigned_shift,
        long_distance
    )
}
