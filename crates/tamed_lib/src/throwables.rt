// Members of Throwable, of the classes below it and of Refused. The constructors take the object under construction.

ghost use Rattle.std.specs.Prelude.{◌≡◌};
ghost use Rattle.je_core.specs.View.{program_view};
ghost use Rattle.je_java.specs.Steps.{read_field as the_read_field, write_field};
ghost use Rattle.je_java.specs.library.Throwables.{kept, refused_class as the_refused_class, throwable_class as the_throwable_class, throwable_member as the_throwable_member, with_message as the_with_message};
ghost use Rattle.tamed_lib.specs.Outcomes.{PlansIn};

use crate::arguments::{choose, is};
use crate::outcome::Rest;
use crate::raised::null_pointer_class;
use je_core::{ClassId, Program, Slots, Value};
use je_heap::Heap;
use je_table::LibraryClass;
use object_parts::slots::{field_slot, slot};

// Throwable.
#[tactic(auto, unfolding(je_classes::specs::Hierarchy::library_class, je_java::specs::library::Throwables::throwable_class))]
fn throwable_class() -> ClassId
    ensures { result ≡ the_throwable_class }
{
    ClassId(LibraryClass::Throwable.number())
}

// Refused.
#[tactic(auto, unfolding(je_classes::specs::Hierarchy::library_class, je_java::specs::library::Throwables::refused_class))]
fn refused_class() -> ClassId
    ensures { result ≡ the_refused_class }
{
    ClassId(LibraryClass::Refused.number())
}

// What an object keeps in the one field of a class.
fn kept_in(program: &Program, heap: &Heap, left: u64, class: ClassId, this: Value) -> Rest
    ensures { PlansIn (program_view program.now) left heap.now.world
        (the_read_field (program_view program.now) class kept this) result }
{
    match this {
        Value::Ref(object) => {
            let Some(at) = field_slot(program, class, 0) else {
                return Rest::Wrong;
            };
            match slot(heap, object, at) {
                Some(value) => Rest::Gives(value),
                None => Rest::Wrong,
            }
        }
        Value::Null => Rest::Raises(null_pointer_class()),
        _ => Rest::Wrong,
    }
}

// A message, which may be null, into the object under construction.
fn store_message(program: &Program, heap: &Heap, left: u64, this: Value, message: Value) -> Rest
    ensures { PlansIn (program_view program.now) left heap.now.world
        (write_field (program_view program.now) the_throwable_class kept this message) result }
{
    match this {
        Value::Ref(object) => {
            let Some(at) = field_slot(program, throwable_class(), 0) else {
                return Rest::Wrong;
            };
            if slot(heap, object, at).is_none() {
                return Rest::Wrong;
            }
            Rest::Store(object, at as u64, message)
        }
        Value::Null => Rest::Raises(null_pointer_class()),
        _ => Rest::Wrong,
    }
}

// `new(String)`.
#[tactic(auto, unfolding(je_java::specs::library::Throwables::with_message, crate::specs::way::Opened::opened))]
fn with_message(program: &Program, heap: &Heap, left: u64, this: Value, given: &Slots) -> Rest
    ensures { PlansIn (program_view program.now) left heap.now.world
        (the_with_message (program_view program.now) this given.now) result }
{
    match given.get(0) {
        Some(message) => store_message(program, heap, left, this, message),
        None => Rest::Wrong,
    }
}

/// The member of a class of throwables that has a signature.
#[tactic(auto, unfolding(je_java::specs::library::Throwables::throwable_member))]
pub fn throwable_member(
    program: &Program,
    heap: &Heap,
    left: u64,
    signature: &str,
    this: Value,
    given: &Slots,
) -> Rest
    ensures { PlansIn (program_view program.now) left heap.now.world
        (the_throwable_member (program_view program.now) signature.now this given.now) result }
{
    choose!(signature;
        "code()" => kept_in(program, heap, left, refused_class(), this),
        "getMessage()" => kept_in(program, heap, left, throwable_class(), this),
        "new()" => Rest::Gives(Value::Null),
        "new(String)" => with_message(program, heap, left, this, given),
        else => Rest::Wrong)
}
