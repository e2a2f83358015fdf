// New strings: of parts of texts, and of what `valueOf`, `toString` and `toHexString` write.

ghost use Rattle.std.specs.Prelude.{IfOk, option_map};
ghost use Rattle.je_java.specs.World.{World};
ghost use Rattle.je_java.specs.library.Numbers.{hex_of_int as the_hex_of_int};
ghost use Rattle.je_java.specs.library.Strings.{new_text, new_part as the_new_part, text_of_truth, text_of_char as the_text_of_char, text_of_int as the_text_of_int, text_of_long as the_text_of_long};
ghost use Rattle.tamed_lib.specs.Outcomes.{Answers, Plans};

use crate::arguments::{char_at, int_at, long_at, truth_at};
use crate::outcome::Rest;
use crate::raised::string_index_class;
use je_core::{Memory, Slots};
use std::alloc::Global;
use text_members::copied;
use text_numbers::{hex_text, int_text, long_text, truth_text, unit_text};

/// A new string of these units, which aren't copied where they can't be paid for.
pub fn text_of(alloc: Global, left: u64, units: &[u16]) -> Result<Rest, Memory>
    ensures { IfOk result (λ r. (world : World) → Plans left world (λ p. new_text units.now) r) }
{
    if units.len() as u64 > left {
        return Ok(Rest::Spent);
    }
    Ok(Rest::NewText(copied(alloc, units)?))
}

/// A new string of a part, or a place is out of range.
pub fn new_part(alloc: Global, left: u64, part: Option<&[u16]>) -> Result<Rest, Memory>
    ensures { IfOk result (λ r. (world : World) → Plans left world
        (λ p. the_new_part p (option_map (λ units. units.now) part.entry)) r) }
{
    match part {
        Some(units) => text_of(alloc, left, units),
        None => Ok(Rest::Raises(string_index_class())),
    }
}

/// A new string of what is written of the one argument.
macro_rules! written {
    ($alloc:ident, $given:ident, $at:ident, $write:ident) => {
        match $at($given, 0) {
            Some(value) => Ok(Rest::NewText($write($alloc, value)?)),
            None => Ok(Rest::Wrong),
        }
    };
}

/// `valueOf(boolean)`.
pub fn text_of_bool(alloc: Global, given: &Slots) -> Result<Rest, Memory>
    ensures { IfOk result (Answers (λ p. text_of_truth given.now)) }
{
    written!(alloc, given, truth_at, truth_text)
}

/// `valueOf(char)`.
pub fn text_of_char(alloc: Global, given: &Slots) -> Result<Rest, Memory>
    ensures { IfOk result (Answers (λ p. the_text_of_char given.now)) }
{
    written!(alloc, given, char_at, unit_text)
}

/// `valueOf(int)`, and `toString(int)` of Integer.
pub fn text_of_int(alloc: Global, given: &Slots) -> Result<Rest, Memory>
    ensures { IfOk result (Answers (λ p. the_text_of_int given.now)) }
{
    written!(alloc, given, int_at, int_text)
}

/// `valueOf(long)`, and `toString(long)` of Long.
pub fn text_of_long(alloc: Global, given: &Slots) -> Result<Rest, Memory>
    ensures { IfOk result (Answers (λ p. the_text_of_long given.now)) }
{
    written!(alloc, given, long_at, long_text)
}

/// `toHexString(int)`.
pub fn hex_of_int(alloc: Global, given: &Slots) -> Result<Rest, Memory>
    ensures { IfOk result (Answers (λ p. the_hex_of_int given.now)) }
{
    written!(alloc, given, int_at, hex_text)
}
