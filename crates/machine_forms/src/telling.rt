// The `toString()` of an object, which a string concatenation calls.

ghost use Rattle.std.specs.Prelude.{◌≡◌, ◌≤◌, [], IfOk};
ghost use Rattle.je_core.specs.View.{method_view};
ghost use Rattle.je_java.specs.Meaning.{member_at, run_member, to_string as the_to_string};
ghost use Rattle.machine_forms.specs.way.Calling.{Tells};

use crate::call::body;
use crate::library::{Ran, run_library};
use class_members::{dispatched, method_at};
use je_classes::object_class;
use je_core::{ClassId, Memory, Method, ObjId, Program, Slots, Stmt, Value};
use je_heap::Heap;
use machine_parts::class::{locals_for, method};
use machine_parts::frame::{Context, Env};
use machine_parts::shape::{receiving_class, type_of};
use machine_parts::text::to_string_place;
use std::rc::Rc;

/// What the call of a `toString()` comes to, before any node of a body is done.
#[derive(Drop)]
pub enum Telling {
    /// A body, the variables that it begins with, and what it gives where it comes to its end.
    Body {
        own: Env,
        ends: Value,
        body: Rc<Stmt>,
    },
    /// What a member of the library came to.
    Library(Ran),
}

// A method without parameters; a member of the library, which has no body, is run.
fn tell_by(
    context: &mut Context,
    heap: &mut Heap,
    program: &Program,
    class: ClassId,
    at: usize,
    method: &Method,
    this: Value,
) -> Result<Telling, Memory>
    ensures goes { IfOk result (Tells program.now context.old heap.old context.new heap.new
        (λ p m. run_member p m (member_at class at) (method_view method.now) this [])) }
    ensures frames { context.new.frames ≡ context.old.frames }
    ensures env { context.new.env ≡ context.old.env }
    ensures units { context.new.units ≤ context.old.units }
    ensures begun { context.new.begun ≡ context.old.begun }
{
    let none = Slots::new(context.alloc);
    match body(method)? {
        Some(body) => {
            let locals = locals_for(method, none)?;
            Ok(Telling::Body {
                own: Env { this, locals },
                ends: method.returns.default_value(),
                body,
            })
        }
        None => {
            let ran = run_library(context, heap, program, class, at, this, &none)?;
            Ok(Telling::Library(ran))
        }
    }
}

/// The `toString()` of an object.
pub fn tell(
    context: &mut Context,
    heap: &mut Heap,
    program: &Program,
    object: ObjId,
) -> Result<Telling, Memory>
    ensures goes { IfOk result (Tells program.now context.old heap.old context.new heap.new
        (λ p m. the_to_string p m object)) }
    ensures frames { context.new.frames ≡ context.old.frames }
    ensures env { context.new.env ≡ context.old.env }
    ensures units { context.new.units ≤ context.old.units }
    ensures begun { context.new.begun ≡ context.old.begun }
{
    let class = object_class();
    let at = to_string_place();
    let Some(own) = type_of(heap, object) else {
        return Ok(Telling::Library(Ran::Wrong));
    };
    let Some(_) = method(program, class, at) else {
        return Ok(Telling::Library(Ran::Wrong));
    };
    let Some((by, place)) = dispatched(program, receiving_class(own), class, at as usize) else {
        return Ok(Telling::Library(Ran::Wrong));
    };
    match method_at(program, by, place) {
        Some(found) => tell_by(context, heap, program, by, place, found, Value::Ref(object)),
        None => Ok(Telling::Library(Ran::Wrong)),
    }
}
