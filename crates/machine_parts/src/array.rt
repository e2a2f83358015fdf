// The elements of arrays, and their length.

ghost use Rattle.std.specs.Prelude.{◌≡◌, ◌≤◌, ◌+◌, IfOk, pos};
ghost use Rattle.std.specs.Int.{w32, int_wrap};
ghost use Rattle.je_java.specs.Steps.{yields, seq, put_slot};
ghost use Rattle.je_java.specs.Arrays.{storable as storable_in, length_of as the_length_of, read_element as the_read_element, write_element as the_write_element};
ghost use Rattle.machine_parts.specs.Ways.{height, gives};
ghost use Rattle.machine_parts.specs.way.Clauses.{GoesToValue, Stores};

use crate::frame::{Context, Control};
use crate::make::{raise_array_index, raise_array_store, raise_null_pointer};
use crate::shape::{extent_of, type_of};
use je_classes::is_subtype;
use je_core::{Memory, ObjId, Program, Ty, Value};
use je_heap::Heap;
use je_java::Extent;
pub use object_parts::values::place_in;
use std::alloc::Global;

// A count as an int, which takes its lowest bits.
#[tactic(auto, using(je_arith::proofs::Wraps::wrap_is))]
fn wrapped(count: u64) -> i32
    ensures { result ≡ int_wrap w32 (pos count) }
{
    ((count % (1 << 32)) as u32).cast_signed()
}

/// How many elements an array has.
pub fn length_of(
    context: &mut Context,
    heap: &mut Heap,
    program: &Program,
    array: Value,
) -> Result<Control, Memory>
    ensures goes { IfOk result (GoesToValue program.now context.old heap.old context.new heap.new
        (λ p m. the_length_of p array)) }
    ensures short { IfOk result (λ c. height context.new + gives c ≤ height context.old + 1) }
    ensures begun { context.new.begun ≡ context.old.begun }
{
    match array {
        Value::Ref(object) => match extent_of(heap, object) {
            Some(extent) => Ok(Control::Give(Value::Int(wrapped(extent.count)))),
            None => Ok(Control::Wrong),
        },
        Value::Null => raise_null_pointer(context, heap, program),
        _ => Ok(Control::Wrong),
    }
}

/// The value of an element.
pub fn read_element(
    context: &mut Context,
    heap: &mut Heap,
    program: &Program,
    array: Value,
    index: Value,
) -> Result<Control, Memory>
    ensures goes { IfOk result (GoesToValue program.now context.old heap.old context.new heap.new
        (λ p m. the_read_element p array index)) }
    ensures short { IfOk result (λ c. height context.new + gives c ≤ height context.old + 1) }
    ensures begun { context.new.begun ≡ context.old.begun }
{
    match array {
        Value::Ref(object) => {
            let Some(extent) = extent_of(heap, object) else {
                return Ok(Control::Wrong);
            };
            let Value::Int(index) = index else {
                return Ok(Control::Wrong);
            };
            match place_in(extent.count, index) {
                Some(at) => match heap.slot(object, at) {
                    Some(value) => Ok(Control::Give(value)),
                    None => Ok(Control::Wrong),
                },
                None => raise_array_index(context, heap, program),
            }
        }
        Value::Null => raise_null_pointer(context, heap, program),
        _ => Ok(Control::Wrong),
    }
}

// Whether a value may stand among elements of a type; None where an object is not there.
fn storable(
    alloc: Global,
    heap: &Heap,
    program: &Program,
    element: Ty,
    value: Value,
) -> Result<Option<bool>, Memory>
    ensures { IfOk result (Stores program.now heap.now element value) }
{
    match value {
        Value::Ref(object) => match type_of(heap, object) {
            Some(own) => Ok(Some(is_subtype(alloc, program, own, element)?)),
            None => Ok(None),
        },
        _ => Ok(Some(true)),
    }
}

// Puts a value at a place of an array, and gives another.
fn store_at(
    context: &mut Context,
    heap: &mut Heap,
    program: &Program,
    object: ObjId,
    extent: Extent,
    at: u64,
    value: Value,
    given: Value,
) -> Result<Control, Memory>
    ensures goes { IfOk result (GoesToValue program.now context.old heap.old context.new heap.new
        (λ p m. yields given (seq (storable_in p extent.element value) (put_slot object at value)))) }
    ensures short { IfOk result (λ c. height context.new + gives c ≤ height context.old + 1) }
    ensures begun { context.new.begun ≡ context.old.begun }
{
    match storable(context.alloc, heap, program, extent.element, value)? {
        Some(true) => {
            if heap.slot(object, at).is_none() {
                return Ok(Control::Wrong);
            }
            heap.set(object, at, value)?;
            Ok(Control::Give(given))
        }
        Some(false) => raise_array_store(context, heap, program),
        None => Ok(Control::Wrong),
    }
}

/// Puts a value into an element, and gives another.
pub fn store_element(
    context: &mut Context,
    heap: &mut Heap,
    program: &Program,
    array: Value,
    index: Value,
    value: Value,
    given: Value,
) -> Result<Control, Memory>
    ensures goes { IfOk result (GoesToValue program.now context.old heap.old context.new heap.new
        (λ p m. yields given (the_write_element p array index value))) }
    ensures short { IfOk result (λ c. height context.new + gives c ≤ height context.old + 1) }
    ensures begun { context.new.begun ≡ context.old.begun }
{
    match array {
        Value::Ref(object) => {
            let Some(extent) = extent_of(heap, object) else {
                return Ok(Control::Wrong);
            };
            let Value::Int(index) = index else {
                return Ok(Control::Wrong);
            };
            match place_in(extent.count, index) {
                Some(at) => store_at(context, heap, program, object, extent, at, value, given),
                None => raise_array_index(context, heap, program),
            }
        }
        Value::Null => raise_null_pointer(context, heap, program),
        _ => Ok(Control::Wrong),
    }
}

/// Puts a value into an element.
pub fn write_element(
    context: &mut Context,
    heap: &mut Heap,
    program: &Program,
    array: Value,
    index: Value,
    value: Value,
) -> Result<Control, Memory>
    ensures goes { IfOk result (GoesToValue program.now context.old heap.old context.new heap.new
        (λ p m. the_write_element p array index value)) }
    ensures short { IfOk result (λ c. height context.new + gives c ≤ height context.old + 1) }
    ensures begun { context.new.begun ≡ context.old.begun }
{
    store_element(context, heap, program, array, index, value, value)
}
