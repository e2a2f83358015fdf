// Casts and `instanceof`: of which type an object is.

ghost use Rattle.std.specs.Prelude.{◌≡◌, ◌≤◌, ◌+◌, IfOk};
ghost use Rattle.je_java.specs.Steps.{is_instance as the_is_instance, cast as the_cast};
ghost use Rattle.machine_parts.specs.Ways.{height, gives};
ghost use Rattle.machine_parts.specs.way.Clauses.{GoesToValue};

use crate::frame::{Context, Control};
use crate::make::raise_class_cast;
use crate::shape::type_of;
use je_classes::is_subtype;
use je_core::{Memory, Program, Ty, Value};
use je_heap::Heap;

/// Whether a value refers to an object of a type.
pub fn is_instance(
    context: &Context,
    heap: &Heap,
    program: &Program,
    of: Ty,
    value: Value,
) -> Result<Control, Memory>
    ensures goes { IfOk result (GoesToValue program.now
        context.now heap.now context.now heap.now (λ p m. the_is_instance p of value)) }
    ensures short { IfOk result (λ c. gives c ≤ 1) }
{
    match value {
        Value::Null => Ok(Control::Give(Value::Bool(false))),
        Value::Ref(object) => {
            let Some(own) = type_of(heap, object) else {
                return Ok(Control::Wrong);
            };
            let holds = is_subtype(context.alloc, program, own, of)?;
            Ok(Control::Give(Value::Bool(holds)))
        }
        _ => Ok(Control::Wrong),
    }
}

/// A reference, if it is to an object of a type or null.
pub fn cast(
    context: &mut Context,
    heap: &mut Heap,
    program: &Program,
    ty: Ty,
    value: Value,
) -> Result<Control, Memory>
    ensures goes { IfOk result (GoesToValue program.now context.old heap.old context.new heap.new
        (λ p m. the_cast p ty value)) }
    ensures short { IfOk result (λ c. height context.new + gives c ≤ height context.old + 1) }
    ensures begun { context.new.begun ≡ context.old.begun }
{
    match value {
        Value::Null => Ok(Control::Give(value)),
        Value::Ref(object) => {
            let Some(own) = type_of(heap, object) else {
                return Ok(Control::Wrong);
            };
            if is_subtype(context.alloc, program, own, ty)? {
                Ok(Control::Give(value))
            } else {
                raise_class_cast(context, heap, program)
            }
        }
        _ => Ok(Control::Wrong),
    }
}
