// Conversions between numeric types.

ghost use Rattle.std.specs.Prelude.{◌≡◌, Some, IsSome};
ghost use Rattle.std.specs.Int.{w8, w16, w32, int_wrap};
ghost use Rattle.je_arith.specs.Conversion.{number_of, as_base, converted};

use je_core::{Base, Value};

/// The number that a value is.
pub fn number(a: Value) -> Option<i64>
    ensures { result ≡ number_of a }
{
    match a {
        Value::Byte(x) => Some(x as i64),
        Value::Short(x) => Some(x as i64),
        Value::Char(n) => Some(n as i64),
        Value::Int(x) => Some(x as i64),
        Value::Long(x) => Some(x),
        _ => None,
    }
}

#[tactic(auto, using(crate::proofs::Wraps::wrap_is))]
fn to_byte(number: i64) -> i8
    ensures { result ≡ int_wrap w8 number }
{
    (number.rem_euclid(1 << 8) as u8).cast_signed()
}

#[tactic(auto, using(crate::proofs::Wraps::wrap_is))]
fn to_short(number: i64) -> i16
    ensures { result ≡ int_wrap w16 number }
{
    (number.rem_euclid(1 << 16) as u16).cast_signed()
}

#[tactic(auto, using(crate::proofs::Wraps::wrap_is))]
fn to_int(number: i64) -> i32
    ensures { result ≡ int_wrap w32 number }
{
    (number.rem_euclid(1 << 32) as u32).cast_signed()
}

// A number as a value of a numeric type.
fn in_base(to: Base, number: i64) -> Option<Value>
    ensures { result ≡ as_base to number }
{
    match to {
        Base::Byte => Some(Value::Byte(to_byte(number))),
        Base::Short => Some(Value::Short(to_short(number))),
        Base::Char => Some(Value::Char(number.rem_euclid(1 << 16) as u16)),
        Base::Int => Some(Value::Int(to_int(number))),
        Base::Long => Some(Value::Long(number)),
        _ => None,
    }
}

/// A number or char as a value of a numeric type (JLS 5.1.2, 5.1.3); None exactly where the value is no number or the
/// type isn't numeric.
pub fn try_convert(a: Value, to: Base) -> Option<Value>
    ensures { result ≡ converted a to }
{
    in_base(to, number(a)?)
}

/// A number or char as a value of a numeric type.
pub fn convert(a: Value, to: Base) -> Value
    requires { IsSome (converted a to) }
    ensures { Some result ≡ converted a to }
{
    match try_convert(a, to) {
        Some(value) => value,
        None => unreachable!(),
    }
}
