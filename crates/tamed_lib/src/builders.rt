// Members of StringBuilder.

ghost use Rattle.std.specs.Prelude.{◌≡◌, IfOk, Some};
ghost use Rattle.je_core.specs.declared.value.Value.TheVariants.{Null};
ghost use Rattle.text_members.specs.Changes.{with_unit as the_with_unit};
ghost use Rattle.je_java.specs.Texts.{null_text as the_null_text};
ghost use Rattle.je_java.specs.World.{World, units_of};
ghost use Rattle.je_java.specs.library.Builders.{new_builder as the_new_builder, builder_of_text as the_builder_of_text, append as the_append, append_text as the_append_text, append_truth as the_append_truth, append_char as the_append_char, append_int as the_append_int, append_long as the_append_long, rewritten, delete_char_at as the_delete_char_at, set_char_at as the_set_char_at};
ghost use Rattle.tamed_lib.specs.Outcomes.{Answers, Plans};

use crate::arguments::{char_at, int_at, long_at, truth_at, with_text};
use crate::outcome::Rest;
use crate::raised::{illegal_state_class, null_pointer_class, string_index_class};
use je_core::{Memory, ObjId, Slots, Units, Value};
use je_heap::Heap;
use std::alloc::Global;
use text_members::{copied, has_room, with_unit, without_unit};
use text_numbers::{int_text, long_text, truth_text, unit_text};

/// A new builder of these units, which aren't copied where they can't be paid for.
pub fn new_builder(alloc: Global, left: u64, units: &[u16]) -> Result<Rest, Memory>
    ensures { IfOk result (λ r. (world : World) →
        Plans left world (λ p. the_new_builder units.now) r) }
{
    if units.len() as u64 > left {
        return Ok(Rest::Spent);
    }
    Ok(Rest::NewBuilder(copied(alloc, units)?))
}

/// `new(String)`.
pub fn builder_of_text(alloc: Global, heap: &Heap, left: u64, given: &Slots) -> Result<Rest, Memory>
    ensures { IfOk result (Plans left heap.now.world (λ p. the_builder_of_text p given.now)) }
{
    with_text!(heap, given, 0,
        units => new_builder(alloc, left, units),
        null => Ok(Rest::Raises(null_pointer_class())),
        else => Ok(Rest::Wrong))
}

// ---- on a receiver that holds these units

// A text behind the units of a builder; where there is no room for it, an exception.
fn append(left: u64, object: ObjId, units: &[u16], text: Units) -> Rest
    ensures { (world : World) → units_of world.objects object.0 ≡ Some units.now →
        Plans left world (λ p. the_append p object units.now text) result }
{
    if has_room(units.len(), text.len()) {
        Rest::Append(object, text)
    } else {
        Rest::Raises(illegal_state_class())
    }
}

// The same of a text that isn't copied where it can't be paid for.
fn append_copy(
    alloc: Global,
    left: u64,
    object: ObjId,
    units: &[u16],
    text: &[u16],
) -> Result<Rest, Memory>
    ensures { (world : World) → units_of world.objects object.0 ≡ Some units.now →
        IfOk result (Plans left world (λ p. the_append p object units.now text.now)) }
{
    if !has_room(units.len(), text.len()) {
        return Ok(Rest::Raises(illegal_state_class()));
    }
    if text.len() as u64 > left {
        return Ok(Rest::Spent);
    }
    Ok(Rest::Append(object, copied(alloc, text)?))
}

/// What is written of the one argument, behind the units of a builder.
macro_rules! appended {
    ($alloc:ident, $left:ident, $object:ident, $units:ident, $given:ident, $at:ident, $write:ident) => {
        match $at($given, 0) {
            Some(value) => Ok(append($left, $object, $units, $write($alloc, value)?)),
            None => Ok(Rest::Wrong),
        }
    };
}

// `null` is what is written of no text.
fn null_text(alloc: Global) -> Result<Units, Memory>
    ensures { IfOk result (λ units. units ≡ the_null_text) }
{
    let mut units = Units::new(alloc);
    units.push(b'n' as u16)?;
    units.push(b'u' as u16)?;
    units.push(b'l' as u16)?;
    units.push(b'l' as u16)?;
    Ok(units)
}

/// `append(String)`.
pub fn append_text(
    alloc: Global,
    heap: &Heap,
    left: u64,
    object: ObjId,
    units: &[u16],
    given: &Slots,
) -> Result<Rest, Memory>
    requires { units_of heap.now.world.objects object.0 ≡ Some units.now }
    ensures { IfOk result (Plans left heap.now.world
        (λ p. the_append_text p object units.now given.now)) }
{
    with_text!(heap, given, 0,
        text => append_copy(alloc, left, object, units, text),
        null => Ok(append(left, object, units, null_text(alloc)?)),
        else => Ok(Rest::Wrong))
}

/// `append(boolean)`.
pub fn append_truth(
    alloc: Global,
    left: u64,
    object: ObjId,
    units: &[u16],
    given: &Slots,
) -> Result<Rest, Memory>
    ensures { (world : World) → units_of world.objects object.0 ≡ Some units.now →
        IfOk result (Plans left world (λ p. the_append_truth p object units.now given.now)) }
{
    appended!(alloc, left, object, units, given, truth_at, truth_text)
}

/// `append(char)`.
pub fn append_char(
    alloc: Global,
    left: u64,
    object: ObjId,
    units: &[u16],
    given: &Slots,
) -> Result<Rest, Memory>
    ensures { (world : World) → units_of world.objects object.0 ≡ Some units.now →
        IfOk result (Plans left world (λ p. the_append_char p object units.now given.now)) }
{
    appended!(alloc, left, object, units, given, char_at, unit_text)
}

/// `append(int)`.
pub fn append_int(
    alloc: Global,
    left: u64,
    object: ObjId,
    units: &[u16],
    given: &Slots,
) -> Result<Rest, Memory>
    ensures { (world : World) → units_of world.objects object.0 ≡ Some units.now →
        IfOk result (Plans left world (λ p. the_append_int p object units.now given.now)) }
{
    appended!(alloc, left, object, units, given, int_at, int_text)
}

/// `append(long)`.
pub fn append_long(
    alloc: Global,
    left: u64,
    object: ObjId,
    units: &[u16],
    given: &Slots,
) -> Result<Rest, Memory>
    ensures { (world : World) → units_of world.objects object.0 ≡ Some units.now →
        IfOk result (Plans left world (λ p. the_append_long p object units.now given.now)) }
{
    appended!(alloc, left, object, units, given, long_at, long_text)
}

/// `deleteCharAt`.
pub fn delete_char_at(
    alloc: Global,
    object: ObjId,
    units: &[u16],
    given: &Slots,
) -> Result<Rest, Memory>
    ensures { IfOk result (Answers (λ p. the_delete_char_at p object units.now given.now)) }
{
    match int_at(given, 0) {
        Some(place) => match without_unit(alloc, units, place)? {
            Some(new) => Ok(Rest::Rewrite(object, new, Value::Ref(object))),
            None => Ok(Rest::Raises(string_index_class())),
        },
        None => Ok(Rest::Wrong),
    }
}

// With another unit at a place, if it is in range.
fn with_unit_at(
    alloc: Global,
    object: ObjId,
    units: &[u16],
    place: i32,
    unit: u16,
) -> Result<Rest, Memory>
    ensures { IfOk result (Answers (λ p. rewritten p object
        (the_with_unit units.now place unit) Null)) }
{
    match with_unit(alloc, units, place, unit)? {
        Some(new) => Ok(Rest::Rewrite(object, new, Value::Null)),
        None => Ok(Rest::Raises(string_index_class())),
    }
}

/// `setCharAt`.
pub fn set_char_at(
    alloc: Global,
    object: ObjId,
    units: &[u16],
    given: &Slots,
) -> Result<Rest, Memory>
    ensures { IfOk result (Answers (λ p. the_set_char_at p object units.now given.now)) }
{
    match (int_at(given, 0), char_at(given, 1)) {
        (Some(place), Some(unit)) => with_unit_at(alloc, object, units, place, unit),
        _ => Ok(Rest::Wrong),
    }
}
