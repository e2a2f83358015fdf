// Class variables and constant strings, by their places among what the heap has of them.

ghost use Rattle.std.specs.Prelude.{◌≡◌, ◌<◌, ◌≤◌, ◌+◌, ◌^◌, IfOk, count_by, map, length, slice_get, take};
ghost use Rattle.std.specs.Str.{bytes_eq};
ghost use Rattle.je_base.specs.Names.{place_of as the_place_of};
ghost use Rattle.je_core.specs.View.{field_view, class_view, program_view};
ghost use Rattle.je_classes.specs.Statics.{is_static, static_after, static_place as the_static_place};
ghost use Rattle.je_java.specs.Classes.{statics_of as the_statics_of, text_place as the_text_place};
ghost use Rattle.je_java.specs.Steps.{yields, read_static as the_read_static, write_static as the_write_static, read_text as the_read_text};
ghost use Rattle.machine_parts.specs.Ways.{gives};
ghost use Rattle.machine_parts.specs.way.Clauses.{IsValueOver};

use crate::frame::Control;
use je_core::{Class, ClassId, Field, Memory, Program, Units, Value};
use je_heap::Heap;

// How many of some fields are static.
fn static_count(fields: &[Field]) -> u64
    ensures { result ≡ count_by is_static (map field_view fields.now) }
{
    let mut count = 0;
    for field in fields {
        if field.is_static {
            count += 1;
        }
    }
    count
}

/// How many static fields some classes have.
pub fn statics_of(classes: &[Class]) -> u128
    ensures value { result ≡ the_statics_of (map class_view classes.now) }
    ensures bound { result < 2 ^ 127 }
{
    let mut count: u128 = 0;
    for class in classes {
        count += static_count(&class.fields) as u128;
    }
    count
}

// The place of a static field of a number, where so many stand before those of its class.
fn static_in(fields: &[Field], at: usize, before: u128) -> Option<u128>
    requires { before < 2 ^ 127 }
    ensures { result ≡ static_after (slice_get (map field_view fields.now) at)
        (before + count_by is_static (take at (map field_view fields.now))) }
{
    match fields.get(at) {
        None => None,
        Some(field) => {
            if field.is_static {
                Some(before + static_count(&fields[..at]) as u128)
            } else {
                None
            }
        }
    }
}

/// The place of a static field of a class among the class variables; None where the class has none of that number.
pub fn static_place(program: &Program, class: ClassId, field: u32) -> Option<u128>
    ensures { result ≡ the_static_place (program_view program.now) class field }
{
    match program.class(class) {
        None => None,
        Some(found) => {
            let before = statics_of(&program.classes[..class.0 as usize]);
            static_in(&found.fields, field as usize, before)
        }
    }
}

fn is_same_text(a: &Units, b: &Units) -> bool
    ensures { result ≡ bytes_eq a.now b.now }
{
    a.as_slice() == b.as_slice()
}

/// The place of some units among texts, of several the first; None exactly where they are none of them.
pub fn place_of(texts: &[Units], units: &Units) -> Option<usize>
    ensures { result ≡ the_place_of texts.now units.now }
{
    for at in 0..texts.len() {
        if is_same_text(units, &texts[at]) {
            return Some(at);
        }
    }
    None
}

/// The place of a constant string, behind all class variables; None where the program has no such string.
#[tactic(auto, unfolding(je_core::specs::View::program_view))]
pub fn text_place(program: &Program, units: &Units) -> Option<u128>
    ensures { result ≡ the_text_place (program_view program.now) units.now }
{
    match place_of(&program.texts, units) {
        None => None,
        Some(at) => Some(statics_of(&program.classes) + at as u128),
    }
}

/// The value at a place among the class variables; None exactly where there is none.
pub fn variable(heap: &Heap, place: u128) -> Option<Value>
    ensures { result ≡ slice_get heap.now.world.statics place }
{
    if place < heap.statics() as u128 {
        heap.get_static(place as u32)
    } else {
        None
    }
}

/// The value of a class variable.
pub fn read_static(heap: &Heap, program: &Program, class: ClassId, field: u32) -> Control
    ensures goes { IsValueOver program.now heap.now heap.now
        (λ p m. the_read_static p class field) result }
    ensures short { gives result ≤ 1 }
{
    let Some(place) = static_place(program, class, field) else {
        return Control::Wrong;
    };
    match variable(heap, place) {
        Some(value) => Control::Give(value),
        None => Control::Wrong,
    }
}

/// The reference of a constant string.
pub fn read_text(heap: &Heap, program: &Program, units: &Units) -> Control
    ensures goes { IsValueOver program.now heap.now heap.now
        (λ p m. the_read_text p units.now) result }
    ensures short { gives result ≤ 1 }
{
    let Some(place) = text_place(program, units) else {
        return Control::Wrong;
    };
    match variable(heap, place) {
        Some(value) => Control::Give(value),
        None => Control::Wrong,
    }
}

/// Puts a value into a class variable, and gives another.
pub fn store_static(
    heap: &mut Heap,
    program: &Program,
    class: ClassId,
    field: u32,
    value: Value,
    given: Value,
) -> Result<Control, Memory>
    ensures goes { IfOk result (IsValueOver program.now heap.old heap.new
        (λ p m. yields given (the_write_static p class field value))) }
    ensures short { IfOk result (λ c. gives c ≤ 1) }
{
    let Some(place) = static_place(program, class, field) else {
        return Ok(Control::Wrong);
    };
    if place < heap.statics() as u128 {
        heap.set_static(place as u32, value)?;
        Ok(Control::Give(given))
    } else {
        Ok(Control::Wrong)
    }
}

/// Puts a value into a class variable.
pub fn write_static(
    heap: &mut Heap,
    program: &Program,
    class: ClassId,
    field: u32,
    value: Value,
) -> Result<Control, Memory>
    ensures goes { IfOk result (IsValueOver program.now heap.old heap.new
        (λ p m. the_write_static p class field value)) }
    ensures short { IfOk result (λ c. gives c ≤ 1) }
{
    store_static(heap, program, class, field, value, value)
}
