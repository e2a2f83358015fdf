// Members of Math and Integer that measure numbers, and look at no object.

ghost use Rattle.std.specs.Int.{w32, w64};
ghost use Rattle.je_java.specs.library.Numbers.{of_int, of_long, of_ints, of_longs, math_member as the_math_member};
ghost use Rattle.text_numbers.specs.Measures.{bit_count as the_bit_count, absolute as the_absolute, greater as the_greater, less as the_less};
ghost use Rattle.tamed_lib.specs.Outcomes.{Answers};

use crate::arguments::{int_at, is, long_at};
use crate::outcome::Rest;
use je_core::{Slots, Value};
use text_numbers::{
    bit_count, int_absolute, int_greater, int_less, long_absolute, long_greater, long_less,
};

/// A function of the one argument.
macro_rules! of_one {
    ($given:ident, $at:ident, $kind:ident, $measure:ident) => {
        match $at($given, 0) {
            Some(number) => Rest::Gives(Value::$kind($measure(number))),
            None => Rest::Wrong,
        }
    };
}

/// A function of the two arguments.
macro_rules! of_two {
    ($given:ident, $at:ident, $kind:ident, $measure:ident) => {
        match ($at($given, 0), $at($given, 1)) {
            (Some(x), Some(y)) => Rest::Gives(Value::$kind($measure(x, y))),
            _ => Rest::Wrong,
        }
    };
}

/// `Integer.bitCount(int)`.
pub fn bits_of_int(given: &Slots) -> Rest
    ensures { Answers (λ p. of_int the_bit_count given.now) result }
{
    of_one!(given, int_at, Int, bit_count)
}

fn absolute_of_int(given: &Slots) -> Rest
    ensures { Answers (λ p. of_int (the_absolute w32) given.now) result }
{
    of_one!(given, int_at, Int, int_absolute)
}

fn absolute_of_long(given: &Slots) -> Rest
    ensures { Answers (λ p. of_long (the_absolute w64) given.now) result }
{
    of_one!(given, long_at, Long, long_absolute)
}

fn greater_of_ints(given: &Slots) -> Rest
    ensures { Answers (λ p. of_ints the_greater given.now) result }
{
    of_two!(given, int_at, Int, int_greater)
}

fn greater_of_longs(given: &Slots) -> Rest
    ensures { Answers (λ p. of_longs the_greater given.now) result }
{
    of_two!(given, long_at, Long, long_greater)
}

fn less_of_ints(given: &Slots) -> Rest
    ensures { Answers (λ p. of_ints the_less given.now) result }
{
    of_two!(given, int_at, Int, int_less)
}

fn less_of_longs(given: &Slots) -> Rest
    ensures { Answers (λ p. of_longs the_less given.now) result }
{
    of_two!(given, long_at, Long, long_less)
}

/// The member of Math that has a signature.
#[tactic(auto, unfolding(je_java::specs::library::Numbers::math_member))]
pub fn math_member(signature: &str, given: &Slots) -> Rest
    ensures { Answers (λ p. the_math_member signature.now given.now) result }
{
    if is("abs(int)", signature) {
        absolute_of_int(given)
    } else if is("abs(long)", signature) {
        absolute_of_long(given)
    } else if is("max(int,int)", signature) {
        greater_of_ints(given)
    } else if is("max(long,long)", signature) {
        greater_of_longs(given)
    } else if is("min(int,int)", signature) {
        less_of_ints(given)
    } else if is("min(long,long)", signature) {
        less_of_longs(given)
    } else {
        Rest::Wrong
    }
}
