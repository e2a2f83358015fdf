// The members of StringBuilder by their signatures.

ghost use Rattle.std.specs.Prelude.{◌≡◌, IfOk, Some};
ghost use Rattle.je_java.specs.World.{units_of};
ghost use Rattle.je_java.specs.library.Builders.{builder_member as the_builder_member};
ghost use Rattle.tamed_lib.specs.Outcomes.{Plans};
ghost use Rattle.tamed_lib.specs.way.Receivers.{on_builder as the_on_builder, on_receiver as the_on_receiver};

use crate::arguments::{choose, is};
use crate::builders::{
    append_char, append_int, append_long, append_text, append_truth, builder_of_text,
    delete_char_at, new_builder, set_char_at,
};
use crate::outcome::Rest;
use crate::raised::null_pointer_class;
use crate::strings::unit_of;
use crate::texts::text_of;
use je_core::{Memory, ObjId, Slots, Value};
use je_heap::Heap;
use std::alloc::Global;
use text_members::count_as_int;

// On a builder that holds these units.
#[tactic(auto, unfolding(crate::specs::way::Receivers::on_builder))]
fn on_builder(
    alloc: Global,
    heap: &Heap,
    left: u64,
    signature: &str,
    object: ObjId,
    units: &[u16],
    given: &Slots,
) -> Result<Rest, Memory>
    requires { units_of heap.now.world.objects object.0 ≡ Some units.now }
    ensures { IfOk result (Plans left heap.now.world
        (λ p. the_on_builder p signature.now given.now object units.now)) }
{
    choose!(signature;
        "append(String)" => append_text(alloc, heap, left, object, units, given),
        "append(boolean)" => append_truth(alloc, left, object, units, given),
        "append(char)" => append_char(alloc, left, object, units, given),
        "append(int)" => append_int(alloc, left, object, units, given),
        "append(long)" => append_long(alloc, left, object, units, given),
        "charAt(int)" => Ok(unit_of(units, given)),
        "deleteCharAt(int)" => delete_char_at(alloc, object, units, given),
        "length()" => Ok(Rest::Gives(Value::Int(count_as_int(units.len())))),
        "setCharAt(int,char)" => set_char_at(alloc, object, units, given),
        "toString()" => text_of(alloc, left, units),
        else => Ok(Rest::Wrong))
}

// On a receiver.
#[tactic(auto, unfolding(crate::specs::way::Receivers::on_receiver, crate::specs::way::Opened::opened))]
fn on_receiver(
    alloc: Global,
    heap: &Heap,
    left: u64,
    signature: &str,
    this: Value,
    given: &Slots,
) -> Result<Rest, Memory>
    ensures { IfOk result (Plans left heap.now.world
        (λ p. the_on_receiver p signature.now this given.now)) }
{
    match this {
        Value::Ref(object) => match heap.units(object) {
            Some(units) => on_builder(alloc, heap, left, signature, object, units, given),
            None => Ok(Rest::Wrong),
        },
        Value::Null => Ok(Rest::Raises(null_pointer_class())),
        _ => Ok(Rest::Wrong),
    }
}

/// The member of StringBuilder that has a signature.
#[tactic(auto, using(crate::proofs::Members::builder_member_is))]
pub fn builder_member(
    alloc: Global,
    heap: &Heap,
    left: u64,
    signature: &str,
    this: Value,
    given: &Slots,
) -> Result<Rest, Memory>
    ensures { IfOk result (Plans left heap.now.world
        (λ p. the_builder_member p signature.now this given.now)) }
{
    choose!(signature;
        "new()" => new_builder(alloc, left, &[]),
        "new(String)" => builder_of_text(alloc, heap, left, given),
        else => on_receiver(alloc, heap, left, signature, this, given))
}
