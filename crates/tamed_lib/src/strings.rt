// Members of String on a receiver with these units.

ghost use Rattle.std.specs.Prelude.{◌≡◌, ◌++◌, IfOk};
ghost use Rattle.je_java.specs.World.{World};
ghost use Rattle.je_java.specs.library.Strings.{new_text, char_at as the_char_at, comparison as the_comparison, joined as the_joined, tested_by, place_of_text as the_place_of_text, place_of_unit as the_place_of_unit, place_as_int as the_place_as_int, replacement as the_replacement, part_from as the_part_from, part_between as the_part_between};
ghost use Rattle.text_members.specs.Finding.{is_prefix as the_is_prefix, is_suffix as the_is_suffix};
ghost use Rattle.tamed_lib.specs.Outcomes.{Answers, Plans};

use crate::arguments::{char_at, int_at, with_text};
use crate::outcome::Rest;
use crate::raised::{null_pointer_class, string_index_class};
use crate::texts::new_part;
use je_core::{Memory, Slots, Value};
use je_heap::Heap;
use std::alloc::Global;
use text_members::{
    compared, count_as_int, index_of, index_of_unit, is_prefix, is_suffix, joined, replaced,
    substring, substring_from, unit_at,
};

/// What is done with the units of the String argument; one that is null throws.
macro_rules! of_text {
    ($heap:ident, $given:ident, $units:ident => $then:expr) => {
        with_text!($heap, $given, 0,
            $units => $then,
            null => Rest::Raises(null_pointer_class()),
            else => Rest::Wrong)
    };
}

/// `charAt`.
pub fn unit_of(units: &[u16], given: &Slots) -> Rest
    ensures { Answers (λ p. the_char_at p units.now given.now) result }
{
    match int_at(given, 0) {
        Some(place) => match unit_at(units, place) {
            Some(unit) => Rest::Gives(Value::Char(unit)),
            None => Rest::Raises(string_index_class()),
        },
        None => Rest::Wrong,
    }
}

/// `compareTo`.
pub fn comparison(heap: &Heap, left: u64, units: &[u16], given: &Slots) -> Rest
    ensures { Plans left heap.now.world (λ p. the_comparison p units.now given.now) result }
{
    of_text!(heap, given, other => Rest::Gives(Value::Int(compared(units, other))))
}

/// `startsWith`.
pub fn prefix_test(heap: &Heap, left: u64, units: &[u16], given: &Slots) -> Rest
    ensures { Plans left heap.now.world
        (λ p. tested_by the_is_prefix p units.now given.now) result }
{
    of_text!(heap, given, part => Rest::Gives(Value::Bool(is_prefix(part, units))))
}

/// `endsWith`.
pub fn suffix_test(heap: &Heap, left: u64, units: &[u16], given: &Slots) -> Rest
    ensures { Plans left heap.now.world
        (λ p. tested_by the_is_suffix p units.now given.now) result }
{
    of_text!(heap, given, part => Rest::Gives(Value::Bool(is_suffix(part, units))))
}

// A place as an int, and -1 for none.
fn place_as_int(place: Option<usize>) -> i32
    ensures { result ≡ the_place_as_int place }
{
    match place {
        Some(at) => count_as_int(at),
        None => -1,
    }
}

/// `indexOf(String)`.
pub fn place_of_text(heap: &Heap, left: u64, units: &[u16], given: &Slots) -> Rest
    ensures { Plans left heap.now.world (λ p. the_place_of_text p units.now given.now) result }
{
    of_text!(heap, given, part => Rest::Gives(Value::Int(place_as_int(index_of(units, part)))))
}

/// `indexOf(int)`.
pub fn place_of_unit(units: &[u16], given: &Slots) -> Rest
    ensures { Answers (λ p. the_place_of_unit units.now given.now) result }
{
    match int_at(given, 0) {
        Some(unit) => Rest::Gives(Value::Int(place_as_int(index_of_unit(units, unit)))),
        None => Rest::Wrong,
    }
}

// ---- new strings

// A text behind another as a new string.
fn joined_text(alloc: Global, left: u64, units: &[u16], other: &[u16]) -> Result<Rest, Memory>
    ensures { IfOk result (λ r. (world : World) → Plans left world
        (λ p. new_text (units.now ++ other.now)) r) }
{
    if units.len() as u128 + other.len() as u128 > left as u128 {
        return Ok(Rest::Spent);
    }
    Ok(Rest::NewText(joined(alloc, units, other)?))
}

/// `concat`.
pub fn concatenation(
    alloc: Global,
    heap: &Heap,
    left: u64,
    units: &[u16],
    given: &Slots,
) -> Result<Rest, Memory>
    ensures { IfOk result (Plans left heap.now.world (λ p. the_joined p units.now given.now)) }
{
    with_text!(heap, given, 0,
        other => joined_text(alloc, left, units, other),
        null => Ok(Rest::Raises(null_pointer_class())),
        else => Ok(Rest::Wrong))
}

/// `replace`.
pub fn replacement(alloc: Global, left: u64, units: &[u16], given: &Slots) -> Result<Rest, Memory>
    ensures { IfOk result (λ r. (world : World) → Plans left world
        (λ p. the_replacement units.now given.now) r) }
{
    match (char_at(given, 0), char_at(given, 1)) {
        (Some(old), Some(new)) => {
            if units.len() as u64 > left {
                return Ok(Rest::Spent);
            }
            Ok(Rest::NewText(replaced(alloc, units, old, new)?))
        }
        _ => Ok(Rest::Wrong),
    }
}

/// `substring(int)`.
pub fn part_from(alloc: Global, left: u64, units: &[u16], given: &Slots) -> Result<Rest, Memory>
    ensures { IfOk result (λ r. (world : World) → Plans left world
        (λ p. the_part_from p units.now given.now) r) }
{
    match int_at(given, 0) {
        Some(begin) => new_part(alloc, left, substring_from(units, begin)),
        None => Ok(Rest::Wrong),
    }
}

/// `substring(int,int)`.
pub fn part_between(alloc: Global, left: u64, units: &[u16], given: &Slots) -> Result<Rest, Memory>
    ensures { IfOk result (λ r. (world : World) → Plans left world
        (λ p. the_part_between p units.now given.now) r) }
{
    match (int_at(given, 0), int_at(given, 1)) {
        (Some(begin), Some(end)) => new_part(alloc, left, substring(units, begin, end)),
        _ => Ok(Rest::Wrong),
    }
}
