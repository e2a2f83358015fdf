// Slots of objects, and those of fields.

ghost use Rattle.std.specs.Prelude.{◌≡◌, ◌<◌, ◌+◌, ◌^◌, IsSome, count_by, length, map, slice_get, take};
ghost use Rattle.je_core.specs.View.{field_view, program_view};
ghost use Rattle.je_classes.specs.Slots.{field_slot as the_field_slot, slot_fields, slot_after, is_instance};
ghost use Rattle.je_java.specs.World.{slot_of};

use je_classes::class_count;
use je_core::{ClassId, Field, ObjId, Program, Value};
use je_heap::Heap;

/// The value in a slot of an object; None exactly where there is no such object or no such slot.
pub fn slot(heap: &Heap, object: ObjId, at: u128) -> Option<Value>
    ensures value { result ≡ slot_of heap.now.world.objects object.0 at }
    ensures bound { IsSome result → at < 2 ^ 64 }
{
    let Some(shape) = heap.shape(object) else {
        return None;
    };
    if at < shape.len as u128 {
        heap.slot(object, at as u64)
    } else {
        None
    }
}

// How many of some fields take a slot.
fn slots_for(fields: &[Field]) -> u64
    ensures { result ≡ count_by is_instance (map field_view fields.now) }
{
    let mut slots = 0;
    for field in fields {
        if !field.is_static {
            slots += 1;
        }
    }
    slots
}

// How many slots stand before those of a class with this superclass.
fn slots_above(program: &Program, superclass: Option<ClassId>) -> u128
    ensures value { result ≡ length (slot_fields (program_view program.now) superclass) }
    ensures bound { result < 2 ^ 127 }
{
    let mut above = superclass;
    let mut left = class_count(program);
    let mut count: u128 = 0;
    while left > 0 {
        let Some(at) = above else {
            return count;
        };
        let Some(class) = program.class(at) else {
            return count;
        };
        count += slots_for(&class.fields) as u128;
        above = class.superclass;
        left -= 1;
    }
    count
}

// The slot of the field of a number, where so many stand before those of its class.
fn slot_in(fields: &[Field], at: usize, before: u128) -> Option<u128>
    requires { before < 2 ^ 127 }
    ensures { result ≡ slot_after (slice_get (map field_view fields.now) at)
        (before + count_by is_instance (take at (map field_view fields.now))) }
{
    match fields.get(at) {
        None => None,
        Some(field) => {
            if field.is_static {
                None
            } else {
                Some(before + slots_for(&fields[..at]) as u128)
            }
        }
    }
}

/// The slot of the field of a number of a class; None exactly where there is none.
pub fn field_slot(program: &Program, class: ClassId, at: u32) -> Option<u128>
    ensures { result ≡ the_field_slot (program_view program.now) class at }
{
    match program.class(class) {
        None => None,
        Some(class) => {
            let before = slots_above(program, class.superclass);
            slot_in(&class.fields, at as usize, before)
        }
    }
}
