// Reads and writes of fields and locals.

ghost use Rattle.std.specs.Prelude.{◌≡◌, ◌≤◌, ◌+◌, IfOk};
ghost use Rattle.machine_parts.specs.way.Clauses.{GoesToValue, GoesAheadIn};
ghost use Rattle.je_java.specs.Steps.{put_local, read_field as the_read_field, write_field as the_write_field};
ghost use Rattle.machine_parts.specs.Ways.{valued, height, gives};

use crate::class::field_slot;
use crate::frame::{Context, Control, Env};
use crate::make::raise_null_pointer;
use je_core::{ClassId, Memory, Program, Value};
use je_heap::Heap;
pub use object_parts::slots::slot;

/// The value of a field of an object.
pub fn read_field(
    context: &mut Context,
    heap: &mut Heap,
    program: &Program,
    class: ClassId,
    field: u32,
    object: Value,
) -> Result<Control, Memory>
    ensures goes { IfOk result (GoesToValue program.now context.old heap.old context.new heap.new
        (λ p m. the_read_field p class field object)) }
    ensures short { IfOk result (λ c. height context.new + gives c ≤ height context.old + 1) }
    ensures begun { context.new.begun ≡ context.old.begun }
{
    match object {
        Value::Ref(id) => {
            let Some(at) = field_slot(program, class, field) else {
                return Ok(Control::Wrong);
            };
            match slot(heap, id, at) {
                Some(value) => Ok(Control::Give(value)),
                None => Ok(Control::Wrong),
            }
        }
        Value::Null => raise_null_pointer(context, heap, program),
        _ => Ok(Control::Wrong),
    }
}

/// Puts a value into a field of an object.
pub fn write_field(
    context: &mut Context,
    heap: &mut Heap,
    program: &Program,
    class: ClassId,
    field: u32,
    object: Value,
    value: Value,
) -> Result<Control, Memory>
    ensures goes { IfOk result (GoesToValue program.now context.old heap.old context.new heap.new
        (λ p m. the_write_field p class field object value)) }
    ensures short { IfOk result (λ c. height context.new + gives c ≤ height context.old + 1) }
    ensures begun { context.new.begun ≡ context.old.begun }
{
    match object {
        Value::Ref(id) => {
            let Some(at) = field_slot(program, class, field) else {
                return Ok(Control::Wrong);
            };
            if slot(heap, id, at).is_none() {
                return Ok(Control::Wrong);
            }
            heap.set(id, at as u64, value)?;
            Ok(Control::Give(value))
        }
        Value::Null => raise_null_pointer(context, heap, program),
        _ => Ok(Control::Wrong),
    }
}

/// Puts a value into a local.
pub fn write_local(local: u32, value: Value, env: &mut Env) -> Control
    ensures goes { GoesAheadIn env.old env.new result (λ p m k. valued (put_local local value) k) }
    ensures short { gives result ≤ 1 }
{
    if (local as usize) < env.locals.len() {
        env.locals.set(local as usize, value);
        Control::Give(value)
    } else {
        Control::Wrong
    }
}
