// Conversion in an assignment and in a call (JLS 5.2, 5.3).

ghost use Rattle.std.specs.Prelude.{◌≡◌, ◌||◌, IfOk, IfErr, Some};
ghost use Rattle.je_classes.specs.Subtypes.{same_base as the_same_base};
ghost use Rattle.je_core.specs.View.{view};
ghost use Rattle.je_typing.specs.Answers.{IsFault};
ghost use Rattle.je_typing.specs.Conversions.{assigned as the_assigned, holds as the_holds, is_assignable as the_is_assignable, narrows as the_narrows, narrows_to as the_narrows_to, passes as the_passes, passes_as as the_passes_as, small_number as the_small_number};
ghost use Rattle.je_typing.specs.Judged.{gives};
ghost use Rattle.je_typing.specs.Promotion.{is_char_base as the_is_char_base, rank as the_rank, widens as the_widens};
ghost use Rattle.name_types.specs.View.{shown};
ghost use Rattle.conversion_steps.specs.way.Narrowing.{narrows_if as the_narrows_if};
ghost use Rattle.source_subtypes.specs.View.{heads_of};
ghost use Rattle.typed_nodes.specs.Seen.{seen};

use folded_nodes::{constant_value, converted_if};
use je_base::{Memory, Span};
use je_core::{Base, Expr, Value};
use je_typing::{Refusal, TypeRule, check};
use name_types::SrcTy;
use source_subtypes::{ClassHeads, is_subtype};
use std::alloc::Global;
use typed_nodes::{TypedExpr, primitive};

/// Whether two bases are one.
pub fn is_same_base(base: Base, other: Base) -> bool
    ensures { result ≡ the_same_base base other }
{
    base == other
}

fn rank(base: Base) -> u8
    ensures { result ≡ the_rank base }
{
    match base {
        Base::Byte => 1,
        Base::Short | Base::Char => 2,
        Base::Int => 3,
        Base::Long => 4,
        _ => 0,
    }
}

fn is_char_base(base: Base) -> bool
    ensures { result ≡ the_is_char_base base }
{
    match base {
        Base::Char => true,
        _ => false,
    }
}

// Whether a number's type widens to another one (JLS 5.1.2).
fn widens(from: Base, to: Base) -> bool
    ensures { result ≡ the_widens from to }
{
    0 < rank(from) && rank(from) < rank(to) && !is_char_base(to)
}

fn passes_as_base(from: Base, to: Base) -> bool
    ensures { result ≡ (the_same_base from to || the_widens from to) }
{
    is_same_base(from, to) || widens(from, to)
}

/// Whether a value of a type is taken by a call where a parameter has another one: the same primitive type, a wider number, or a
/// subtype (JLS 5.3).
pub fn passes(alloc: Global, heads: &ClassHeads, from: &SrcTy, to: &SrcTy) -> Result<bool, Memory>
    ensures { IfOk result (λ p. p ≡ the_passes (heads_of heads.now) (shown from.now)
        (shown to.now)) }
{
    match primitive(from) {
        Some(base) => match primitive(to) {
            Some(other) => Ok(passes_as_base(base, other)),
            None => Ok(false),
        },
        None => match primitive(to) {
            Some(_) => Ok(false),
            None => is_subtype(alloc, heads, from, to),
        },
    }
}

/// The number of a value of type byte, short, char or int.
pub fn small_number(value: Value) -> Option<i32>
    ensures { result ≡ the_small_number value }
{
    match value {
        Value::Byte(number) => Some(number as i32),
        Value::Short(number) => Some(number as i32),
        Value::Char(unit) => Some(unit as i32),
        Value::Int(number) => Some(number),
        _ => None,
    }
}

fn holds(to: Base, number: i32) -> bool
    ensures { result ≡ the_holds to number }
{
    match to {
        Base::Byte => -128 <= number && number <= 127,
        Base::Short => -32768 <= number && number <= 32767,
        Base::Char => 0 <= number && number <= 65535,
        _ => false,
    }
}

fn holds_value(to: Base, value: Value) -> bool
    ensures { result ≡ the_narrows_to to (Some value) }
{
    match small_number(value) {
        Some(number) => holds(to, number),
        None => false,
    }
}

/// Whether a constant of type byte, short, char or int fits the type byte, short or char (JLS 5.2).
pub fn narrows_to(to: Base, value: Option<Value>) -> bool
    ensures { result ≡ the_narrows_to to value }
{
    match value {
        Some(value) => holds_value(to, value),
        None => false,
    }
}

fn narrows_if(value: Option<Value>, to: Option<Base>) -> bool
    ensures { result ≡ the_narrows_if value to }
{
    match to {
        Some(to) => narrows_to(to, value),
        None => false,
    }
}

#[tactic(auto, using(crate::proofs::Narrowing::narrows_by_base))]
fn narrows(value: Option<Value>, to: &SrcTy) -> bool
    ensures { result ≡ the_narrows value (shown to.now) }
{
    narrows_if(value, primitive(to))
}

/// Whether a variable of a type takes a value (JLS 5.2).
pub fn is_assignable(
    alloc: Global,
    heads: &ClassHeads,
    from: &TypedExpr,
    to: &SrcTy,
) -> Result<bool, Memory>
    ensures { IfOk result (λ a. a ≡
        the_is_assignable (heads_of heads.now) (seen from.now) (shown to.now)) }
{
    let passed = passes(alloc, heads, &from.ty, to)?;
    Ok(passed || narrows(constant_value(&from.node), to))
}

/// A value for a variable of a type; `span` is that of the whole value.
#[tactic(auto, unfolding(je_typing::specs::Conversions::assigned), using(je_typing::proofs::Walks::walks))]
pub fn assigned(
    alloc: Global,
    heads: &ClassHeads,
    to: &SrcTy,
    span: Span,
    from: TypedExpr,
) -> Result<Expr, Refusal>
    ensures ok { IfOk result (λ e. the_assigned (heads_of heads.now) (shown to.now) span (seen from)
        ≡ gives (view e)) }
    ensures err { IfErr result (IsFault
        (the_assigned (heads_of heads.now) (shown to.now) span (seen from))) }
{
    let takes = is_assignable(alloc, heads, &from, to)?;
    check(TypeRule::NotConvertible, span, takes)?;
    let TypedExpr { node, .. } = from;
    let value = converted_if(alloc, primitive(to), node)?;
    Ok(value)
}
