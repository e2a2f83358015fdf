// The elements of arrays that members take, and members of the rows of joee.lib.

ghost use Rattle.std.specs.Prelude.{◌≡◌, IfOk};
ghost use Rattle.je_java.specs.World.{slot_of};
ghost use Rattle.je_java.specs.library.Arguments.{char_in as the_char_in};
ghost use Rattle.je_java.specs.library.RowObjects.{new_row as the_new_row, row_member as the_row_member, value_at as the_value_at};
ghost use Rattle.je_java.specs.library.Strings.{text_of_chars as the_text_of_chars};
ghost use Rattle.tamed_lib.specs.Outcomes.{Answers, Plans};
ghost use Rattle.tamed_lib.specs.way.Elements.{row_of_read as the_row_of_read, row_of_slots, slots_read, text_of_read as the_text_of_read, text_of_slots, units_among};
ghost use Rattle.tamed_lib.specs.way.Receivers.{on_row as the_on_row, on_row_receiver};

use crate::arguments::{choose, int_at, is};
use crate::outcome::Rest;
use crate::raised::{array_index_class, null_pointer_class};
use je_core::{ClassId, Memory, ObjId, Slots, Units, Value};
use je_heap::Heap;
use object_parts::shape::{count_of, extent_of};
use object_parts::values::place_in;
use std::alloc::Global;
use text_members::count_as_int;

// The elements of an array of so many; None where one of them isn't there.
#[tactic(auto, using(crate::proofs::Elements::first_read, crate::proofs::Elements::all_read, crate::proofs::Elements::slot_read, crate::proofs::Elements::slot_lacks))]
fn elements(alloc: Global, heap: &Heap, array: ObjId, count: u64) -> Result<Option<Slots>, Memory>
    ensures { IfOk result (λ found. found ≡ slots_read heap.now.world.objects array count 0) }
{
    let mut slots = Slots::new(alloc);
    for at in 0..count {
        match heap.slot(array, at) {
            Some(value) => slots.push(value)?,
            None => return Ok(None),
        }
    }
    Ok(Some(slots))
}

// The char in a slot; None where there is none.
fn char_in(heap: &Heap, object: ObjId, at: u64) -> Option<u16>
    ensures { result ≡ the_char_in (slot_of heap.now.world.objects object.0 at) }
{
    match heap.slot(object, at) {
        Some(Value::Char(unit)) => Some(unit),
        _ => None,
    }
}

// The units of an array of so many chars; None where one of its elements is none.
#[tactic(auto, using(crate::proofs::Elements::first_unit_read, crate::proofs::Elements::all_units_read, crate::proofs::Elements::unit_read, crate::proofs::Elements::unit_lacks))]
fn units_in(alloc: Global, heap: &Heap, array: ObjId, count: u64) -> Result<Option<Units>, Memory>
    ensures { IfOk result (λ found. found ≡
        units_among (slots_read heap.now.world.objects array count 0)) }
{
    let mut units = Units::new(alloc);
    for at in 0..count {
        match char_in(heap, array, at) {
            Some(unit) => units.push(unit)?,
            None => return Ok(None),
        }
    }
    Ok(Some(units))
}

#[tactic(auto, unfolding(crate::specs::way::Elements::text_of_read, crate::specs::way::Opened::opened))]
fn text_of_read(units: Option<Units>) -> Rest
    ensures { Answers (λ p. the_text_of_read units) result }
{
    match units {
        Some(units) => Rest::NewText(units),
        None => Rest::Wrong,
    }
}

#[tactic(auto, unfolding(crate::specs::way::Elements::row_of_read, crate::specs::way::Opened::opened))]
fn row_of_read(class: ClassId, slots: Option<Slots>) -> Rest
    ensures { Answers (λ p. the_row_of_read class slots) result }
{
    match slots {
        Some(slots) => Rest::NewRow(class, slots),
        None => Rest::Wrong,
    }
}

// A new string of the chars of an array of so many.
#[tactic(auto, using(crate::proofs::Read::text_reads))]
fn text_of_array(
    alloc: Global,
    heap: &Heap,
    left: u64,
    array: ObjId,
    count: u64,
) -> Result<Rest, Memory>
    ensures { IfOk result (Plans left heap.now.world (λ p. text_of_slots array count)) }
{
    Ok(text_of_read(units_in(alloc, heap, array, count)?))
}

// A new row of the elements of an array of so many.
#[tactic(auto, using(crate::proofs::Read::row_reads))]
fn row_of_array(
    alloc: Global,
    heap: &Heap,
    left: u64,
    class: ClassId,
    array: ObjId,
    count: u64,
) -> Result<Rest, Memory>
    ensures { IfOk result (Plans left heap.now.world (λ p. row_of_slots class array count)) }
{
    Ok(row_of_read(class, elements(alloc, heap, array, count)?))
}

/// What is done with the array argument and its extent.
macro_rules! with_array {
    ($heap:ident, $given:ident, $array:ident, $count:ident => $then:expr) => {
        match $given.get(0) {
            Some(Value::Ref($array)) => match extent_of($heap, $array) {
                Some(extent) => {
                    let $count = extent.count;
                    $then
                }
                None => Ok(Rest::Wrong),
            },
            Some(Value::Null) => Ok(Rest::Raises(null_pointer_class())),
            _ => Ok(Rest::Wrong),
        }
    };
}

/// `new(char[])` of String.
#[tactic(auto, unfolding(crate::specs::way::Elements::text_of_slots, crate::specs::way::Opened::opened))]
pub fn text_of_chars(alloc: Global, heap: &Heap, left: u64, given: &Slots) -> Result<Rest, Memory>
    ensures { IfOk result (Plans left heap.now.world (λ p. the_text_of_chars p given.now)) }
{
    with_array!(heap, given, array, count => text_of_array(alloc, heap, left, array, count))
}

// A new row of a class.
#[tactic(auto, unfolding(crate::specs::way::Elements::row_of_slots, crate::specs::way::Opened::opened))]
fn new_row(
    alloc: Global,
    heap: &Heap,
    left: u64,
    class: ClassId,
    given: &Slots,
) -> Result<Rest, Memory>
    ensures { IfOk result (Plans left heap.now.world (λ p. the_new_row p class given.now)) }
{
    with_array!(heap, given, array, count => {
        row_of_array(alloc, heap, left, class, array, count)
    })
}

// `get`.
fn value_at(heap: &Heap, left: u64, row: ObjId, count: u64, given: &Slots) -> Rest
    ensures { Plans left heap.now.world (λ p. the_value_at p row count given.now) result }
{
    match int_at(given, 0) {
        Some(index) => match place_in(count, index) {
            Some(at) => match heap.slot(row, at) {
                Some(value) => Rest::Gives(value),
                None => Rest::Wrong,
            },
            None => Rest::Raises(array_index_class()),
        },
        None => Rest::Wrong,
    }
}

// On a row of so many values.
#[tactic(auto, unfolding(crate::specs::way::Receivers::on_row))]
fn on_row(heap: &Heap, left: u64, signature: &str, row: ObjId, count: u64, given: &Slots) -> Rest
    ensures { Plans left heap.now.world
        (λ p. the_on_row p signature.now given.now row count) result }
{
    choose!(signature;
        "get(int)" => value_at(heap, left, row, count, given),
        "size()" => Rest::Gives(Value::Int(count_as_int(count as usize))),
        else => Rest::Wrong)
}

// On a receiver.
#[tactic(auto, unfolding(crate::specs::way::Receivers::on_row_receiver, crate::specs::way::Opened::opened))]
fn on_receiver(heap: &Heap, left: u64, signature: &str, this: Value, given: &Slots) -> Rest
    ensures { Plans left heap.now.world
        (λ p. on_row_receiver p signature.now this given.now) result }
{
    match this {
        Value::Ref(row) => match count_of(heap, row) {
            Some(count) => on_row(heap, left, signature, row, count, given),
            None => Rest::Wrong,
        },
        Value::Null => Rest::Raises(null_pointer_class()),
        _ => Rest::Wrong,
    }
}

/// The member of a class of rows that has a signature.
#[tactic(auto, using(crate::proofs::Members::row_member_is))]
pub fn row_member(
    alloc: Global,
    heap: &Heap,
    left: u64,
    class: ClassId,
    signature: &str,
    this: Value,
    given: &Slots,
) -> Result<Rest, Memory>
    ensures { IfOk result (Plans left heap.now.world
        (λ p. the_row_member p class signature.now this given.now)) }
{
    choose!(signature;
        "new(Immutable[])" => new_row(alloc, heap, left, class, given),
        "new(int[])" => new_row(alloc, heap, left, class, given),
        "new(String[])" => new_row(alloc, heap, left, class, given),
        else => Ok(on_receiver(heap, left, signature, this, given)))
}
