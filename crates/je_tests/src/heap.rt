// Objects of a small heap, writes to them, and what is read of them.

use je_core::{Base, ClassId, Memory, Obj, ObjId, Slots, Ty, Units, Value};
use je_heap::{Heap, Shape, Tag};
use std::alloc::Global;

const INT: Ty = Ty {
    base: Base::Int,
    dims: 0,
};

fn ints(alloc: Global, values: &[i32]) -> Result<Slots, Memory> {
    let mut slots = Slots::new(alloc);
    for value in values {
        slots.push(Value::Int(*value))?;
    }
    Ok(slots)
}

fn object(alloc: Global, values: &[i32]) -> Result<Obj, Memory> {
    Ok(Obj::Instance(ClassId(7), ints(alloc, values)?))
}

fn units(alloc: Global, letters: &[u16]) -> Result<Units, Memory> {
    let mut units = Units::new(alloc);
    for letter in letters {
        units.push(*letter)?;
    }
    Ok(units)
}

fn add_object(alloc: Global, heap: &mut Heap, values: &[i32]) -> Result<ObjId, Memory> {
    heap.alloc_obj(object(alloc, values)?)
}

fn add_builder(alloc: Global, heap: &mut Heap, letters: &[u16]) -> Result<ObjId, Memory> {
    heap.alloc_obj(Obj::Builder(units(alloc, letters)?))
}

fn add_text(alloc: Global, heap: &mut Heap, letters: &[u16]) -> Result<ObjId, Memory> {
    heap.alloc_obj(Obj::Text(units(alloc, letters)?))
}

fn add_array(alloc: Global, heap: &mut Heap, values: &[i32]) -> Result<ObjId, Memory> {
    heap.alloc_obj(Obj::Array(INT, ints(alloc, values)?))
}

fn add_row(alloc: Global, heap: &mut Heap, values: &[i32]) -> Result<ObjId, Memory> {
    heap.alloc_obj(Obj::Row(ClassId(5), ints(alloc, values)?))
}

// A shape of an object that is no capability.
fn plain(tag: Tag, ty: Ty, len: u64) -> Shape {
    Shape {
        tag,
        ty,
        device: 0,
        len,
    }
}

fn class(number: u32) -> Ty {
    Ty {
        base: Base::Class(ClassId(number)),
        dims: 0,
    }
}

// Puts an int into a slot, if it is there.
fn set(heap: &mut Heap, id: u64, at: u64, value: i32) -> Result<(), Memory> {
    if heap.slot(ObjId(id), at).is_some() {
        heap.set(ObjId(id), at, Value::Int(value))?;
    }
    Ok(())
}

// Puts letters into a builder, if it is there.
fn write(alloc: Global, heap: &mut Heap, id: u64, letters: &[u16]) -> Result<(), Memory> {
    if heap.is_builder(ObjId(id)) {
        heap.set_units(ObjId(id), units(alloc, letters)?)?;
    }
    Ok(())
}

// Puts letters behind those of a builder, if it is there.
fn add(heap: &mut Heap, id: u64, letters: &[u16]) -> Result<(), Memory> {
    if heap.is_builder(ObjId(id)) {
        heap.add_units(ObjId(id), letters)?;
    }
    Ok(())
}

// Whether a slot has this value, or isn't there.
fn has(heap: &Heap, id: u64, at: u64, value: Option<Value>) -> bool {
    heap.slot(ObjId(id), at) == value
}

// Whether a text or builder has these units.
fn spells(heap: &Heap, id: u64, letters: &[u16]) -> bool {
    match heap.units(ObjId(id)) {
        Some(units) => units == letters,
        None => false,
    }
}

fn is_written_once(alloc: Global, heap: &mut Heap) -> Result<bool, Memory> {
    add_object(alloc, heap, &[1, 2])?;
    let second = add_object(alloc, heap, &[3])?;
    set(heap, 0, 1, 9)?;
    Ok(
        second == ObjId(1)
            && has(heap, 0, 0, Some(Value::Int(1)))
            && has(heap, 0, 1, Some(Value::Int(9)))
            && has(heap, 0, 2, None)
            && has(heap, 1, 0, Some(Value::Int(3)))
            && has(heap, 2, 0, None),
    )
}

#[test]
fn a_write_changes_one_slot_of_one_object(rt: HostRuntime) -> Result<(), Memory> {
    assert!(rt; holds(rt.alloc(), Row::Written)?);
    Ok(())
}

// Puts an int into a class variable, if it is there.
fn set_static(heap: &mut Heap, at: u32, value: i32) -> Result<(), Memory> {
    if heap.get_static(at).is_some() {
        heap.set_static(at, Value::Int(value))?;
    }
    Ok(())
}

fn has_static(heap: &Heap, at: u32, value: Option<Value>) -> bool {
    heap.get_static(at) == value
}

// The heap has two class variables.
fn has_class_variables(heap: &mut Heap) -> Result<bool, Memory> {
    let count = heap.statics();
    set_static(heap, 1, 4)?;
    Ok(
        count == 2
            && has_static(heap, 0, Some(Value::Null))
            && has_static(heap, 1, Some(Value::Int(4)))
            && has_static(heap, 2, None),
    )
}

#[test]
fn class_variables_begin_as_null(rt: HostRuntime) -> Result<(), Memory> {
    let mut heap = Heap::new(rt.alloc(), 2)?;
    assert!(rt; has_class_variables(&mut heap)?);
    Ok(())
}

// Makes an object of each kind, in the order of the kinds.
fn one_of_each(alloc: Global, heap: &mut Heap) -> Result<(), Memory> {
    add_object(alloc, heap, &[1, 2])?;
    add_array(alloc, heap, &[3])?;
    add_text(alloc, heap, &[97, 98])?;
    add_builder(alloc, heap, &[99])?;
    add_row(alloc, heap, &[4, 5, 6])?;
    heap.alloc_obj(Obj::Cap(9, ClassId(8)))?;
    Ok(())
}

// Whether an object that is no capability has this shape.
fn has_shape(heap: &Heap, id: u64, tag: Tag, ty: Ty, len: u64) -> bool {
    heap.shape(ObjId(id)) == Some(plain(tag, ty, len))
}

fn is_device_nine(heap: &Heap, id: u64) -> bool {
    let cap = Shape {
        tag: Tag::Cap,
        ty: class(8),
        device: 9,
        len: 0,
    };
    heap.shape(ObjId(id)) == Some(cap)
}

fn is_nothing(heap: &Heap, id: u64) -> bool {
    heap.shape(ObjId(id)).is_none()
}

fn has_shapes(alloc: Global, heap: &mut Heap) -> Result<bool, Memory> {
    one_of_each(alloc, heap)?;
    // String is the library's class 1, StringBuilder its class 2
    Ok(
        has_shape(heap, 0, Tag::Instance, class(7), 2)
            && has_shape(heap, 1, Tag::Array, INT, 1)
            && has_shape(heap, 2, Tag::Text, class(1), 2)
            && has_shape(heap, 3, Tag::Builder, class(2), 1)
            && has_shape(heap, 4, Tag::Row, class(5), 3)
            && is_device_nine(heap, 5)
            && is_nothing(heap, 6),
    )
}

#[test]
fn an_object_has_the_shape_of_its_kind(rt: HostRuntime) -> Result<(), Memory> {
    assert!(rt; holds(rt.alloc(), Row::Shapes)?);
    Ok(())
}

fn has_units(heap: &Heap, id: u64) -> bool {
    heap.units(ObjId(id)).is_some()
}

fn has_texts(alloc: Global, heap: &mut Heap) -> Result<bool, Memory> {
    one_of_each(alloc, heap)?;
    for id in 0..7 {
        if has_units(heap, id) != (id == 2 || id == 3) || heap.is_builder(ObjId(id)) != (id == 3) {
            return Ok(false);
        }
    }
    write(alloc, heap, 2, &[120])?;
    write(alloc, heap, 3, &[121, 122])?;
    Ok(spells(heap, 2, &[97, 98]) && spells(heap, 3, &[121, 122]) && heap.saved() == 0)
}

#[test]
fn texts_and_builders_have_units(rt: HostRuntime) -> Result<(), Memory> {
    assert!(rt; holds(rt.alloc(), Row::Texts)?);
    Ok(())
}

fn array_of_five_thousand(alloc: Global) -> Result<Obj, Memory> {
    let mut elements = Slots::new(alloc);
    for at in 0..5_000 {
        elements.push(Value::Int(at))?;
    }
    Ok(Obj::Array(INT, elements))
}

fn begins_with(heap: &Heap, page: u64, value: i32) -> bool {
    heap.page(page).first().copied() == Some(Value::Int(value))
}

fn spans_pages(alloc: Global, heap: &mut Heap) -> Result<bool, Memory> {
    heap.alloc_obj(array_of_five_thousand(alloc)?)?;
    Ok(
        heap.page(0).len() == 4_096
            && heap.page(1).len() == 904
            && heap.page(2).is_empty()
            && begins_with(heap, 0, 0)
            && begins_with(heap, 1, 4_096),
    )
}

#[test]
fn a_long_array_spans_pages(rt: HostRuntime) -> Result<(), Memory> {
    assert!(rt; holds(rt.alloc(), Row::LongArray)?);
    Ok(())
}

// Whether a page has these ints and no more.
fn has_ints(heap: &Heap, page: u64, ints: &[i32]) -> bool {
    let page = heap.page(page);
    if page.len() != ints.len() {
        return false;
    }
    for (value, int) in page.iter().zip(ints) {
        if *value != Value::Int(*int) {
            return false;
        }
    }
    true
}

fn has_one_page(alloc: Global, heap: &mut Heap) -> Result<bool, Memory> {
    one_of_each(alloc, heap)?;
    Ok(has_ints(heap, 0, &[1, 2, 3, 4, 5, 6]) && has_ints(heap, 1, &[]))
}

#[test]
fn a_page_crosses_objects(rt: HostRuntime) -> Result<(), Memory> {
    assert!(rt; holds(rt.alloc(), Row::OnePage)?);
    Ok(())
}

// In one turn: two writes to each of two objects that are there, and one to each of two that are made, of 2 and 3.
fn turn(alloc: Global, heap: &mut Heap) -> Result<(), Memory> {
    add_object(alloc, heap, &[5])?;
    add_builder(alloc, heap, &[112])?;
    for (id, value) in [(0, 6), (2, 7), (0, 8)] {
        set(heap, id, 0, value)?;
    }
    for (id, letter) in [(1, 113), (3, 114), (1, 115)] {
        write(alloc, heap, id, &[letter])?;
    }
    Ok(())
}

// An instance and a builder, and a turn that has begun.
fn begin(alloc: Global, heap: &mut Heap) -> Result<(), Memory> {
    add_object(alloc, heap, &[3])?;
    add_builder(alloc, heap, &[97])?;
    if !heap.in_turn() {
        heap.begin_turn();
    }
    Ok(())
}

fn roll_back(heap: &mut Heap) {
    if heap.in_turn() {
        heap.roll_back();
    }
}

fn commit(heap: &mut Heap) {
    if heap.in_turn() {
        heap.commit();
    }
}

fn leaves_nothing(alloc: Global, heap: &mut Heap) -> Result<bool, Memory> {
    begin(alloc, heap)?;
    turn(alloc, heap)?;
    let saved = heap.saved();
    roll_back(heap);
    Ok(
        saved == 4
            && !heap.in_turn()
            && heap.saved() == 4
            && has(heap, 0, 0, Some(Value::Int(3)))
            && spells(heap, 1, &[97])
            && is_nothing(heap, 2)
            && heap.page(0).len() == 1,
    )
}

#[test]
fn a_turn_rolled_back_leaves_nothing(rt: HostRuntime) -> Result<(), Memory> {
    assert!(rt; holds(rt.alloc(), Row::RolledBack)?);
    Ok(())
}

fn takes_off_again(alloc: Global, heap: &mut Heap) -> Result<bool, Memory> {
    begin(alloc, heap)?;
    add(heap, 1, &[98, 99])?;
    write(alloc, heap, 1, &[100])?;
    add(heap, 1, &[101])?;
    let is_written = spells(heap, 1, &[100, 101]) && heap.saved() == 3;
    roll_back(heap);
    Ok(is_written && spells(heap, 1, &[97]))
}

#[test]
fn units_behind_others_are_taken_off_again(rt: HostRuntime) -> Result<(), Memory> {
    assert!(rt; holds(rt.alloc(), Row::TakenOff)?);
    Ok(())
}

fn keeps_writes(alloc: Global, heap: &mut Heap) -> Result<bool, Memory> {
    begin(alloc, heap)?;
    turn(alloc, heap)?;
    commit(heap);
    Ok(
        has(heap, 0, 0, Some(Value::Int(8)))
            && has(heap, 2, 0, Some(Value::Int(7)))
            && spells(heap, 1, &[115])
            && spells(heap, 3, &[114]),
    )
}

#[test]
fn a_turn_that_ends_keeps_its_writes(rt: HostRuntime) -> Result<(), Memory> {
    assert!(rt; holds(rt.alloc(), Row::Kept)?);
    Ok(())
}

// What is shown of a heap, above.
#[derive(Clone, Copy)]
enum Row {
    Written,
    Shapes,
    Texts,
    LongArray,
    OnePage,
    RolledBack,
    TakenOff,
    Kept,
}

fn holds(alloc: Global, row: Row) -> Result<bool, Memory> {
    let mut heap = Heap::new(alloc, 0)?;
    match row {
        Row::Written => is_written_once(alloc, &mut heap),
        Row::Shapes => has_shapes(alloc, &mut heap),
        Row::Texts => has_texts(alloc, &mut heap),
        Row::LongArray => spans_pages(alloc, &mut heap),
        Row::OnePage => has_one_page(alloc, &mut heap),
        Row::RolledBack => leaves_nothing(alloc, &mut heap),
        Row::TakenOff => takes_off_again(alloc, &mut heap),
        Row::Kept => keeps_writes(alloc, &mut heap),
    }
}
