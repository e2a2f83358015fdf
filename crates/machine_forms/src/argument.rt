// Arguments that a call hands on to a method of other parameter types than those of the named one.

ghost use Rattle.std.specs.Prelude.{IfOk};
ghost use Rattle.je_core.specs.View.{method_view};
ghost use Rattle.je_java.specs.Steps.{admit as the_admit};
ghost use Rattle.je_java.specs.Meaning.{admit_all as the_admit_all, hand_on as the_hand_on};
ghost use Rattle.machine_forms.specs.way.Admitting.{Admits};

use class_members::same_types;
use je_classes::is_subtype;
use je_core::{Memory, Method, Program, Slots, Ty, Value};
use je_heap::Heap;
use machine_parts::shape::type_of;
use std::alloc::Global;

// Whether an argument may be of a type: a reference is tested, and no other value. None where it refers to nothing.
fn admit(
    alloc: Global,
    heap: &Heap,
    program: &Program,
    ty: Ty,
    value: Value,
) -> Result<Option<bool>, Memory>
    ensures { IfOk result (Admits program.now heap.now (λ p. the_admit p ty value)) }
{
    match value {
        Value::Ref(object) => match type_of(heap, object) {
            None => Ok(None),
            Some(own) => Ok(Some(is_subtype(alloc, program, own, ty)?)),
        },
        _ => Ok(Some(true)),
    }
}

// The same of arguments from left to right, each for the parameter at its place.
fn admit_all(
    alloc: Global,
    heap: &Heap,
    program: &Program,
    types: &[Ty],
    values: &Slots,
) -> Result<Option<bool>, Memory>
    ensures { IfOk result (Admits program.now heap.now
        (λ p. the_admit_all p types.now values.now)) }
{
    for at in 0..types.len() {
        let Some(value) = values.get(at) else {
            return Ok(Some(true));
        };
        match admit(alloc, heap, program, types[at], value)? {
            Some(true) => {}
            Some(false) => return Ok(Some(false)),
            None => return Ok(None),
        }
    }
    Ok(Some(true))
}

/// Whether a method takes the arguments of a call of the named one: they are tested where its parameters have other types.
pub fn hand_on(
    alloc: Global,
    heap: &Heap,
    program: &Program,
    named: &Method,
    method: &Method,
    values: &Slots,
) -> Result<Option<bool>, Memory>
    ensures { IfOk result (Admits program.now heap.now
        (λ p. the_hand_on p (method_view named.now) (method_view method.now) values.now)) }
{
    if same_types(&named.params, &method.params) {
        Ok(Some(true))
    } else {
        admit_all(alloc, heap, program, &method.params, values)
    }
}
