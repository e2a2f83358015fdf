// Hidden fields of a new object: the object round it, and the locals that its class uses.

ghost use Rattle.std.specs.Prelude.{◌≡◌, IfOk, map};
ghost use Rattle.je_core.specs.View.{capture_view};
ghost use Rattle.je_java.specs.Meaning.{led_to as the_led_to, handed_from as the_handed_from, handed as the_handed, hand as the_hand, hand_over as the_hand_over};
ghost use Rattle.je_core.specs.declared.program.Program.{Program as TheProgram};
ghost use Rattle.je_heap.specs.Contents.{Contents};
ghost use Rattle.machine_parts.specs.declared.frame.Env.{Env as TheEnv};
ghost use Rattle.machine_parts.specs.way.Clauses.{Fetches};
ghost use Rattle.machine_forms.specs.way.Handing.{put_into, Hands, HandsAll};

use crate::update::{fetch_field, fetch_local};
use je_core::{Capture, ClassId, Memory, ObjId, Program, Value};
use je_heap::Heap;
use machine_parts::class::field_slot;
use machine_parts::field::slot;
use machine_parts::frame::{Env, Fetched};

// The value at the end of a path of fields.
fn led_to(heap: &Heap, program: &Program, path: &[(ClassId, u32)], value: Value) -> Fetched
    ensures { (env : TheEnv) →
        Fetches program.now heap.now env (λ p. the_led_to p path.now value) result }
{
    let mut reached = value;
    for step in path {
        match fetch_field(heap, program, step.0, step.1, reached) {
            Fetched::Value(next) => reached = next,
            Fetched::Null => return Fetched::Null,
            Fetched::Outside => return Fetched::Outside,
            Fetched::Wrong => return Fetched::Wrong,
        }
    }
    Fetched::Value(reached)
}

fn handed_from(env: &Env, local: Option<u32>) -> Fetched
    ensures { (program : TheProgram) (heap : Contents) →
        Fetches program heap env.now (λ p. the_handed_from local) result }
{
    match local {
        None => Fetched::Value(env.this),
        Some(local) => fetch_local(env, local),
    }
}

// What a hidden field begins with.
fn handed(heap: &Heap, program: &Program, env: &Env, capture: &Capture) -> Fetched
    ensures { Fetches program.now heap.now env.now
        (λ p. the_handed p (capture_view capture.now)) result }
{
    match handed_from(env, capture.local) {
        Fetched::Value(value) => led_to(heap, program, &capture.path, value),
        Fetched::Null => Fetched::Null,
        Fetched::Outside => Fetched::Outside,
        Fetched::Wrong => Fetched::Wrong,
    }
}

// Puts a value into a field of a new object.
fn put(
    heap: &mut Heap,
    program: &Program,
    class: ClassId,
    field: u32,
    object: ObjId,
    value: Value,
) -> Result<Fetched, Memory>
    ensures { IfOk result (λ found. (env : TheEnv) →
        Hands program.now heap.old heap.new env (λ p. put_into p class field object value) found) }
{
    let Some(at) = field_slot(program, class, field) else {
        return Ok(Fetched::Wrong);
    };
    if slot(heap, object, at).is_none() {
        return Ok(Fetched::Wrong);
    }
    heap.set(object, at as u64, value)?;
    Ok(Fetched::Value(value))
}

// Gives a hidden field of a new object what it begins with.
fn hand(
    heap: &mut Heap,
    program: &Program,
    env: &Env,
    capture: &Capture,
    object: ObjId,
) -> Result<Fetched, Memory>
    ensures { IfOk result (Hands program.now heap.old heap.new env.now
        (λ p. the_hand p (capture_view capture.now) object)) }
{
    match handed(heap, program, env, capture) {
        Fetched::Value(value) => put(heap, program, capture.class, capture.field, object, value),
        Fetched::Null => Ok(Fetched::Null),
        Fetched::Outside => Ok(Fetched::Outside),
        Fetched::Wrong => Ok(Fetched::Wrong),
    }
}

/// Gives the hidden fields of a new object what they begin with, one after another.
pub fn hand_over(
    heap: &mut Heap,
    program: &Program,
    env: &Env,
    captures: &[Capture],
    object: ObjId,
) -> Result<Fetched, Memory>
    ensures { IfOk result (HandsAll program.now heap.old heap.new env.now
        (λ p next. the_hand_over p (map capture_view captures.now) object next)) }
{
    for capture in captures {
        match hand(heap, program, env, capture, object)? {
            Fetched::Value(_) => {}
            Fetched::Null => return Ok(Fetched::Null),
            Fetched::Outside => return Ok(Fetched::Outside),
            Fetched::Wrong => return Ok(Fetched::Wrong),
        }
    }
    Ok(Fetched::Value(Value::Ref(object)))
}
