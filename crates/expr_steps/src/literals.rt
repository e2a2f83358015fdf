// Literals (JLS 3.10, 15.8.1).

ghost use Rattle.std.specs.Prelude.{◌≡◌, [], IfOk, IfErr, true};
ghost use Rattle.je_core.specs.declared.types.Base.TheVariants.{Int, Long, Null};
ghost use Rattle.je_core.specs.declared.value.Value.TheVariants.{Null as NullValue};
ghost use Rattle.je_core.specs.Core.{Const as ConstForm, Text as TextForm};
ghost use Rattle.je_typing.specs.Answers.{IsFault};
ghost use Rattle.je_typing.specs.Judged.{gives};
ghost use Rattle.je_typing.specs.Literals.{char_value as the_char_value, int_value as the_int_value, literal_of, long_value as the_long_value, negative_int as the_negative_int, negative_long as the_negative_long, number_literal as the_number_literal};
ghost use Rattle.je_typing.specs.Typed.{is_primitive_base, typed_as, typed_text};
ghost use Rattle.typed_nodes.specs.Seen.{seen};

use fit_parts::string;
use folded_nodes::mark_of;
use je_arith::try_unary;
use je_ast::Literal;
use je_base::{Memory, Span, Units};
use je_core::{Base, Mark, UnOp, Value, make_const, make_text};
use je_typing::{Refusal, TypeRule, need};
use std::alloc::Global;
use text_members::copied;
use typed_nodes::{TypedExpr, null_ty, of_base, string_ty};

fn int_value(number: i128) -> Option<Value>
    ensures { result ≡ the_int_value number }
{
    if -2147483648 <= number && number <= 2147483647 {
        return Some(Value::Int(number as i32));
    }
    None
}

fn long_value(number: i128) -> Option<Value>
    ensures { result ≡ the_long_value number }
{
    if -9223372036854775808 <= number && number <= 9223372036854775807 {
        return Some(Value::Long(number as i64));
    }
    None
}

fn char_value(number: i128) -> Value
    ensures { result ≡ the_char_value number }
{
    Value::Char(number.rem_euclid(1 << 16) as u16)
}

fn negative_int(number: i128) -> Option<Value>
    ensures { result ≡ the_negative_int number }
{
    if number == 2147483648 {
        return Some(Value::Int(i32::MIN));
    }
    try_unary(UnOp::Minus, int_value(number)?)
}

fn negative_long(number: i128) -> Option<Value>
    ensures { result ≡ the_negative_long number }
{
    if number == 9223372036854775808 {
        return Some(Value::Long(i64::MIN));
    }
    try_unary(UnOp::Minus, long_value(number)?)
}

// A constant of a primitive type.
fn constant(alloc: Global, base: Base, value: Value, at: Span, span: Span) -> TypedExpr
    requires { is_primitive_base base ≡ true }
    ensures { seen result ≡ typed_as base (ConstForm value []) span at }
{
    let node = make_const(mark_of(base, at, span), value, Vec::new(alloc));
    of_base(base, node)
}

// A number that must be a value.
#[tactic(auto, unfolding(je_typing::specs::Literals::number_literal), using(je_typing::proofs::Walks::walks))]
fn number_literal(
    alloc: Global,
    base: Base,
    value: Option<Value>,
    at: Span,
    span: Span,
) -> Result<TypedExpr, Refusal>
    requires { is_primitive_base base ≡ true }
    ensures ok { IfOk result (λ t. the_number_literal base value at span ≡ gives (seen t)) }
    ensures err { IfErr result (IsFault (the_number_literal base value at span)) }
{
    let value = need(TypeRule::LiteralRange, at, value)?;
    Ok(constant(alloc, base, value, at, span))
}

fn null(alloc: Global, span: Span) -> TypedExpr
    ensures { seen result ≡ typed_as Null (ConstForm NullValue []) span span }
{
    let node = make_const(
        mark_of(Base::Null, span, span),
        Value::Null,
        Vec::new(alloc),
    );
    let ty = null_ty();
    TypedExpr { node, ty }
}

fn text(alloc: Global, units: &Units, span: Span) -> Result<TypedExpr, Memory>
    ensures { IfOk result (λ t. seen t ≡ typed_text (TextForm units.now []) span span) }
{
    let mark = Mark {
        ty: string(),
        span,
        at: span,
    };
    let node = make_text(mark, copied(alloc, units.as_slice())?, Vec::new(alloc));
    let ty = string_ty();
    Ok(TypedExpr { node, ty })
}

/// A literal.
#[tactic(auto, unfolding(je_typing::specs::Literals::literal_of), using(je_typing::proofs::Walks::walks))]
pub fn literal(alloc: Global, literal: &Literal, span: Span) -> Result<TypedExpr, Refusal>
    ensures ok { IfOk result (λ t. literal_of literal.now span ≡ gives (seen t)) }
    ensures err { IfErr result (IsFault (literal_of literal.now span)) }
{
    match literal {
        Literal::Int { value } => number_literal(alloc, Base::Int, int_value(*value), span, span),
        Literal::Long { value } => {
            number_literal(alloc, Base::Long, long_value(*value), span, span)
        }
        Literal::Char { value } => {
            Ok(constant(alloc, Base::Char, char_value(*value), span, span))
        }
        Literal::Text { units } => Ok(text(alloc, units, span)?),
        Literal::Bool { value } => Ok(constant(alloc, Base::Bool, Value::Bool(*value), span, span)),
        Literal::Null => Ok(null(alloc, span)),
    }
}

/// An int literal directly under a unary minus; `at` is the literal, `span` the whole expression.
pub fn negative_int_literal(
    alloc: Global,
    number: i128,
    at: Span,
    span: Span,
) -> Result<TypedExpr, Refusal>
    ensures ok { IfOk result (λ t. the_number_literal Int (the_negative_int number) at span
        ≡ gives (seen t)) }
    ensures err { IfErr result (IsFault
        (the_number_literal Int (the_negative_int number) at span)) }
{
    number_literal(alloc, Base::Int, negative_int(number), at, span)
}

/// A long literal directly under a unary minus.
pub fn negative_long_literal(
    alloc: Global,
    number: i128,
    at: Span,
    span: Span,
) -> Result<TypedExpr, Refusal>
    ensures ok { IfOk result (λ t. the_number_literal Long (the_negative_long number) at span
        ≡ gives (seen t)) }
    ensures err { IfErr result (IsFault
        (the_number_literal Long (the_negative_long number) at span)) }
{
    number_literal(alloc, Base::Long, negative_long(number), at, span)
}
