// What Java prints, extremes included; each call once.

use je_arith::{Outcome, binary, convert, try_binary, try_convert, try_unary, unary};
use je_core::{Base, BinOp, UnOp, Value};

fn gives_int(op: BinOp, x: i32, y: i32, given: i32) -> bool {
    try_binary(op, Value::Int(x), Value::Int(y)) == Outcome::Gives(Value::Int(given))
}

#[test]
fn operators_on_ints(rt: HostRuntime) {
    let holds = gives_int(BinOp::Div, i32::MIN, -1, -2147483648)
        && gives_int(BinOp::Rem, i32::MIN, -1, 0)
        && gives_int(BinOp::Div, -7, 2, -3)
        && gives_int(BinOp::Rem, -7, 2, -1)
        && gives_int(BinOp::Rem, 7, -2, 1)
        && gives_int(BinOp::Mul, i32::MIN, i32::MIN, 0)
        && gives_int(BinOp::Sub, i32::MIN, 1, 2147483647)
        && gives_int(BinOp::Shl, 1, 33, 2)
        && gives_int(BinOp::Shl, 1, -1, -2147483648)
        && gives_int(BinOp::Shr, -8, 1, -4)
        && gives_int(BinOp::Ushr, -8, 28, 15)
        && gives_int(BinOp::Ushr, -1, 32, -1)
        && gives_int(BinOp::BitAnd, 6, 3, 2)
        && gives_int(BinOp::BitOr, 6, -8, -2)
        && gives_int(BinOp::BitXor, 6, -1, -7);
    assert!(rt; holds);
}

fn gives_long(op: BinOp, x: i64, y: i64, given: i64) -> bool {
    try_binary(op, Value::Long(x), Value::Long(y)) == Outcome::Gives(Value::Long(given))
}

#[test]
fn operators_on_longs(rt: HostRuntime) {
    let holds = gives_long(BinOp::Div, i64::MIN, -1, i64::MIN)
        && gives_long(BinOp::Rem, i64::MIN, -1, 0)
        && gives_long(BinOp::Shl, 1, 65, 2)
        && gives_long(BinOp::Ushr, -8, 60, 15)
        && gives_long(BinOp::Shr, -8, 1, -4)
        && gives_long(BinOp::Mul, i64::MIN, 3, i64::MIN)
        && gives_long(BinOp::Shl, 1, 63, i64::MIN)
        && gives_long(BinOp::Sub, i64::MIN, 1, 9223372036854775807);
    assert!(rt; holds);
}

fn is_converted(from: Value, to: Base, given: Value) -> bool {
    try_convert(from, to) == Some(given)
}

#[test]
fn conversions(rt: HostRuntime) {
    let holds = is_converted(Value::Int(200), Base::Byte, Value::Byte(-56))
        && is_converted(Value::Int(-129), Base::Byte, Value::Byte(127))
        && is_converted(Value::Int(40000), Base::Short, Value::Short(-25536))
        && is_converted(Value::Int(-1), Base::Char, Value::Char(65535))
        && is_converted(Value::Long(4294967301), Base::Int, Value::Int(5))
        && is_converted(Value::Long(4294967295), Base::Int, Value::Int(-1))
        && is_converted(Value::Byte(-1), Base::Char, Value::Char(65535))
        && is_converted(Value::Char(255), Base::Byte, Value::Byte(-1))
        && is_converted(Value::Int(i32::MIN), Base::Long, Value::Long(-2147483648))
        && is_converted(Value::Long(i64::MIN), Base::Int, Value::Int(0))
        && try_convert(Value::Null, Base::Int).is_none();
    assert!(rt; holds);
}

fn is_less_than_three() -> bool {
    binary(BinOp::Lt, Value::Int(i32::MIN), Value::Int(3)) == Some(Value::Bool(true))
}

fn has_no_quotient() -> bool {
    binary(BinOp::Div, Value::Int(3), Value::Int(0)).is_none()
}

fn is_unfit() -> bool {
    try_binary(BinOp::Add, Value::Int(3), Value::Null) == Outcome::Unfit
}

fn is_own_negative() -> bool {
    unary(UnOp::Minus, Value::Int(i32::MIN)) == Value::Int(i32::MIN)
}

fn is_turned_over() -> bool {
    try_unary(UnOp::Tilde, Value::Int(5)) == Some(Value::Int(-6))
}

fn is_number_of_a() -> bool {
    convert(Value::Char(97), Base::Int) == Value::Int(97)
}

#[test]
fn the_other_calls(rt: HostRuntime) {
    let holds = is_less_than_three()
        && has_no_quotient()
        && is_unfit()
        && is_own_negative()
        && is_turned_over()
        && is_number_of_a();
    assert!(rt; holds);
}
