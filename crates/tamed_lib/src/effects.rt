// What is left of a member is done: objects are made, builders and slots change.

ghost use Rattle.std.specs.Prelude.{◌≡◌, ◌≤◌, IfOk, OnErr};
ghost use Rattle.je_core.specs.declared.object.Obj.TheVariants.{Array, Row};
ghost use Rattle.je_java.specs.Steps.{put_slot};
ghost use Rattle.je_java.specs.library.Builders.{new_builder};
ghost use Rattle.je_java.specs.library.Strings.{new_text};
ghost use Rattle.tamed_lib.specs.Outcomes.{ComesTo, append_to, make_of, rest_ways, rewrite_in};

use crate::outcome::{LibraryOutcome, Rest};
use je_core::{ClassId, Memory, Obj, ObjId, Slots, Ty, Units, Value};
use je_heap::Heap;

/// Makes an object, which costs so much.
macro_rules! paid {
    ($heap:ident, $left:ident, $cost:expr, $object:expr) => {{
        let cost = $cost as u64;
        if cost > *$left {
            return Ok(LibraryOutcome::Spent);
        }
        let object = $heap.alloc_obj($object)?;
        *$left -= cost;
        Ok(LibraryOutcome::Value(Value::Ref(object)))
    }};
}

// A new string.
fn make_text(heap: &mut Heap, left: &mut u64, units: Units) -> Result<LibraryOutcome, Memory>
    ensures goes { IfOk result (ComesTo left.old heap.old.world left.new heap.new.world
        (λ p. new_text units)) }
    ensures units { left.new ≤ left.old }
    ensures err { OnErr result (heap.new ≡ heap.old) }
{
    paid!(heap, left, units.len(), Obj::Text(units))
}

// A new builder.
fn make_builder(heap: &mut Heap, left: &mut u64, units: Units) -> Result<LibraryOutcome, Memory>
    ensures goes { IfOk result (ComesTo left.old heap.old.world left.new heap.new.world
        (λ p. new_builder units)) }
    ensures units { left.new ≤ left.old }
    ensures err { OnErr result (heap.new ≡ heap.old) }
{
    paid!(heap, left, units.len(), Obj::Builder(units))
}

// A new array.
fn make_array(
    heap: &mut Heap,
    left: &mut u64,
    element: Ty,
    slots: Slots,
) -> Result<LibraryOutcome, Memory>
    ensures goes { IfOk result (ComesTo left.old heap.old.world left.new heap.new.world
        (λ p. make_of (Array element slots) slots)) }
    ensures units { left.new ≤ left.old }
    ensures err { OnErr result (heap.new ≡ heap.old) }
{
    paid!(heap, left, slots.len(), Obj::Array(element, slots))
}

// A new row.
fn make_row(
    heap: &mut Heap,
    left: &mut u64,
    class: ClassId,
    slots: Slots,
) -> Result<LibraryOutcome, Memory>
    ensures goes { IfOk result (ComesTo left.old heap.old.world left.new heap.new.world
        (λ p. make_of (Row class slots) slots)) }
    ensures units { left.new ≤ left.old }
    ensures err { OnErr result (heap.new ≡ heap.old) }
{
    paid!(heap, left, slots.len(), Obj::Row(class, slots))
}

// Units behind those of a builder.
#[tactic(auto, using(crate::proofs::Held::held_off, crate::proofs::Held::appends), unfolding(crate::specs::way::Opened::opened))]
fn append(
    heap: &mut Heap,
    left: &mut u64,
    builder: ObjId,
    text: &Units,
) -> Result<LibraryOutcome, Memory>
    ensures goes { IfOk result (ComesTo left.old heap.old.world left.new heap.new.world
        (λ p. append_to builder text.now)) }
    ensures units { left.new ≤ left.old }
    ensures err { OnErr result (heap.new ≡ heap.old) }
{
    let Some(_) = heap.units(builder) else {
        return Ok(LibraryOutcome::Wrong);
    };
    let cost = text.len() as u64;
    if cost > *left {
        return Ok(LibraryOutcome::Spent);
    }
    if !heap.is_builder(builder) {
        return Ok(LibraryOutcome::Wrong);
    }
    heap.add_units(builder, text.as_slice())?;
    *left -= cost;
    Ok(LibraryOutcome::Value(Value::Ref(builder)))
}

// Units in a builder in place of its own.
#[tactic(auto, using(crate::proofs::Held::held_off, crate::proofs::Held::rewrites), unfolding(crate::specs::way::Opened::opened))]
fn rewrite(
    heap: &mut Heap,
    left: u64,
    builder: ObjId,
    units: Units,
    value: Value,
) -> Result<LibraryOutcome, Memory>
    ensures goes { IfOk result (ComesTo left heap.old.world left heap.new.world
        (λ p. rewrite_in builder units value)) }
    ensures err { OnErr result (heap.new ≡ heap.old) }
{
    if !heap.is_builder(builder) {
        return Ok(LibraryOutcome::Wrong);
    }
    heap.set_units(builder, units)?;
    Ok(LibraryOutcome::Value(value))
}

// A value in a slot.
fn store(
    heap: &mut Heap,
    left: u64,
    object: ObjId,
    at: u64,
    value: Value,
) -> Result<LibraryOutcome, Memory>
    ensures goes { IfOk result (ComesTo left heap.old.world left heap.new.world
        (λ p. put_slot object at value)) }
    ensures err { OnErr result (heap.new ≡ heap.old) }
{
    if heap.slot(object, at).is_none() {
        return Ok(LibraryOutcome::Wrong);
    }
    heap.set(object, at, value)?;
    Ok(LibraryOutcome::Value(value))
}

/// Does what is left.
pub fn finish(heap: &mut Heap, left: &mut u64, rest: Rest) -> Result<LibraryOutcome, Memory>
    ensures goes { IfOk result (ComesTo left.old heap.old.world left.new heap.new.world
        (λ p. rest_ways p rest)) }
    ensures units { left.new ≤ left.old }
    ensures err { OnErr result (heap.new ≡ heap.old) }
{
    match rest {
        Rest::Gives(value) => Ok(LibraryOutcome::Value(value)),
        Rest::Raises(class) => Ok(LibraryOutcome::Raises(class)),
        Rest::Spent => Ok(LibraryOutcome::Spent),
        Rest::Wrong => Ok(LibraryOutcome::Wrong),
        Rest::NewText(units) => make_text(heap, left, units),
        Rest::NewBuilder(units) => make_builder(heap, left, units),
        Rest::NewArray(element, slots) => make_array(heap, left, element, slots),
        Rest::NewRow(class, slots) => make_row(heap, left, class, slots),
        Rest::Append(builder, text) => append(heap, left, builder, &text),
        Rest::Rewrite(builder, units, value) => rewrite(heap, *left, builder, units, value),
        Rest::Store(object, at, value) => store(heap, *left, object, at, value),
    }
}
