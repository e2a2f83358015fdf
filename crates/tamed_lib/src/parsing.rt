// Members of Integer and Long that read numbers, and these classes' members by their signatures.

ghost use Rattle.std.specs.Prelude.{IfOk};
ghost use Rattle.je_java.specs.library.Numbers.{parse_int as the_parse_int, parse_long as the_parse_long, integer_member as the_integer_member, long_member as the_long_member};
ghost use Rattle.tamed_lib.specs.Outcomes.{Plans};

use crate::arguments::{is, with_text};
use crate::numbers::bits_of_int;
use crate::outcome::Rest;
use crate::raised::number_format_class;
use crate::texts::{hex_of_int, text_of_int, text_of_long};
use je_core::{Memory, Slots, Value};
use je_heap::Heap;
use std::alloc::Global;
use text_numbers::{parsed_int, parsed_long};

/// The number that the String argument writes; null writes none.
macro_rules! parsed {
    ($heap:ident, $given:ident, $kind:ident, $parse:ident) => {
        with_text!($heap, $given, 0,
            units => match $parse(units) {
                Some(number) => Rest::Gives(Value::$kind(number)),
                None => Rest::Raises(number_format_class()),
            },
            null => Rest::Raises(number_format_class()),
            else => Rest::Wrong)
    };
}

fn parse_int(heap: &Heap, left: u64, given: &Slots) -> Rest
    ensures { Plans left heap.now.world (λ p. the_parse_int p given.now) result }
{
    parsed!(heap, given, Int, parsed_int)
}

fn parse_long(heap: &Heap, left: u64, given: &Slots) -> Rest
    ensures { Plans left heap.now.world (λ p. the_parse_long p given.now) result }
{
    parsed!(heap, given, Long, parsed_long)
}

/// The member of Integer that has a signature.
#[tactic(auto, unfolding(je_java::specs::library::Numbers::integer_member))]
pub fn integer_member(
    alloc: Global,
    heap: &Heap,
    left: u64,
    signature: &str,
    given: &Slots,
) -> Result<Rest, Memory>
    ensures { IfOk result (Plans left heap.now.world
        (λ p. the_integer_member p signature.now given.now)) }
{
    if is("bitCount(int)", signature) {
        Ok(bits_of_int(given))
    } else if is("parseInt(String)", signature) {
        Ok(parse_int(heap, left, given))
    } else if is("toHexString(int)", signature) {
        hex_of_int(alloc, given)
    } else if is("toString(int)", signature) {
        text_of_int(alloc, given)
    } else {
        Ok(Rest::Wrong)
    }
}

/// The member of Long that has a signature.
#[tactic(auto, unfolding(je_java::specs::library::Numbers::long_member))]
pub fn long_member(
    alloc: Global,
    heap: &Heap,
    left: u64,
    signature: &str,
    given: &Slots,
) -> Result<Rest, Memory>
    ensures { IfOk result (Plans left heap.now.world
        (λ p. the_long_member p signature.now given.now)) }
{
    if is("parseLong(String)", signature) {
        Ok(parse_long(heap, left, given))
    } else if is("toString(long)", signature) {
        text_of_long(alloc, given)
    } else {
        Ok(Rest::Wrong)
    }
}
