// The members of String by their signatures.

ghost use Rattle.std.specs.Prelude.{◌≡◌, IfOk, map};
ghost use Rattle.je_classes.specs.Subtypes.{array_of};
ghost use Rattle.je_core.specs.declared.value.Value.TheVariants.{Char};
ghost use Rattle.je_java.specs.Arrays.{array_from};
ghost use Rattle.je_java.specs.Texts.{is_string as the_is_string};
ghost use Rattle.je_java.specs.World.{World};
ghost use Rattle.je_java.specs.library.Strings.{char_type as the_char_type, equality as the_equality, equals_object as the_equals_object, new_text, string_member as the_string_member};
ghost use Rattle.tamed_lib.specs.Outcomes.{Answers, Plans};
ghost use Rattle.text_members.specs.Parts.{trimmed as the_trimmed};
ghost use Rattle.tamed_lib.specs.way.Receivers.{on_string as the_on_string, on_text as the_on_text};

use crate::arguments::{choose, is};
use crate::outcome::Rest;
use crate::raised::null_pointer_class;
use crate::rows::text_of_chars;
use crate::strings::{
    comparison, concatenation, part_between, part_from, place_of_text, place_of_unit, prefix_test,
    replacement, suffix_test, unit_of,
};
use crate::texts::{text_of, text_of_bool, text_of_char, text_of_int, text_of_long};
use je_core::{Base, Memory, ObjId, Slots, Ty, Value};
use je_heap::{Heap, string_class};
use object_parts::shape::type_of;
use std::alloc::Global;
use text_members::{count_as_int, hash_code, is_same_text, trimmed};

fn is_string(ty: Ty) -> bool
    ensures { result ≡ the_is_string ty }
{
    ty.dims == 0 && ty.base == Base::Class(string_class())
}

// `equals` of an object.
fn equals_object(heap: &Heap, left: u64, units: &[u16], object: ObjId, own: Ty) -> Rest
    ensures { Plans left heap.now.world (λ p. the_equals_object units.now object own) result }
{
    if !is_string(own) {
        return Rest::Gives(Value::Bool(false));
    }
    match heap.units(object) {
        Some(other) => Rest::Gives(Value::Bool(is_same_text(units, other))),
        None => Rest::Wrong,
    }
}

// `equals`.
fn equality(heap: &Heap, left: u64, units: &[u16], given: &Slots) -> Rest
    ensures { Plans left heap.now.world (λ p. the_equality units.now given.now) result }
{
    match given.get(0) {
        Some(Value::Ref(object)) => match type_of(heap, object) {
            Some(own) => equals_object(heap, left, units, object, own),
            None => Rest::Wrong,
        },
        Some(Value::Null) => Rest::Gives(Value::Bool(false)),
        _ => Rest::Wrong,
    }
}

// Units as chars.
fn chars(alloc: Global, units: &[u16]) -> Result<Slots, Memory>
    ensures { IfOk result (λ slots. slots ≡ map Char units.now) }
{
    let mut slots = Slots::new(alloc);
    for unit in units {
        slots.push(Value::Char(*unit))?;
    }
    Ok(slots)
}

// `toCharArray`.
fn char_array(alloc: Global, units: &[u16]) -> Result<Rest, Memory>
    ensures { IfOk result (Answers
        (λ p. array_from (array_of the_char_type) (map Char units.now))) }
{
    let char_type = Ty {
        base: Base::Char,
        dims: 0,
    };
    Ok(Rest::NewArray(char_type, chars(alloc, units)?))
}

// `trim`.
fn trimmed_text(alloc: Global, left: u64, units: &[u16]) -> Result<Rest, Memory>
    ensures { IfOk result (λ r. (world : World) → Plans left world
        (λ p. new_text (the_trimmed units.now)) r) }
{
    text_of(alloc, left, trimmed(units))
}

// On a string with these units.
#[tactic(auto, unfolding(crate::specs::way::Receivers::on_string))]
fn on_string(
    alloc: Global,
    heap: &Heap,
    left: u64,
    signature: &str,
    object: ObjId,
    units: &[u16],
    given: &Slots,
) -> Result<Rest, Memory>
    ensures { IfOk result (Plans left heap.now.world
        (λ p. the_on_string p signature.now given.now object units.now)) }
{
    choose!(signature;
        "charAt(int)" => Ok(unit_of(units, given)),
        "compareTo(String)" => Ok(comparison(heap, left, units, given)),
        "concat(String)" => concatenation(alloc, heap, left, units, given),
        "endsWith(String)" => Ok(suffix_test(heap, left, units, given)),
        "equals(Object)" => Ok(equality(heap, left, units, given)),
        "hashCode()" => Ok(Rest::Gives(Value::Int(hash_code(units)))),
        "indexOf(String)" => Ok(place_of_text(heap, left, units, given)),
        "indexOf(int)" => Ok(place_of_unit(units, given)),
        "length()" => Ok(Rest::Gives(Value::Int(count_as_int(units.len())))),
        "replace(char,char)" => replacement(alloc, left, units, given),
        "startsWith(String)" => Ok(prefix_test(heap, left, units, given)),
        "substring(int)" => part_from(alloc, left, units, given),
        "substring(int,int)" => part_between(alloc, left, units, given),
        "toCharArray()" => char_array(alloc, units),
        "toString()" => Ok(Rest::Gives(Value::Ref(object))),
        "trim()" => trimmed_text(alloc, left, units),
        else => Ok(Rest::Wrong))
}

// On a receiver.
#[tactic(auto, unfolding(crate::specs::way::Receivers::on_text, crate::specs::way::Opened::opened))]
fn on_receiver(
    alloc: Global,
    heap: &Heap,
    left: u64,
    signature: &str,
    this: Value,
    given: &Slots,
) -> Result<Rest, Memory>
    ensures { IfOk result (Plans left heap.now.world
        (λ p. the_on_text p signature.now this given.now)) }
{
    match this {
        Value::Ref(object) => match heap.units(object) {
            Some(units) => on_string(alloc, heap, left, signature, object, units, given),
            None => Ok(Rest::Wrong),
        },
        Value::Null => Ok(Rest::Raises(null_pointer_class())),
        _ => Ok(Rest::Wrong),
    }
}

/// The member of String that has a signature.
#[tactic(auto, using(crate::proofs::Members::string_member_is))]
pub fn string_member(
    alloc: Global,
    heap: &Heap,
    left: u64,
    signature: &str,
    this: Value,
    given: &Slots,
) -> Result<Rest, Memory>
    ensures { IfOk result (Plans left heap.now.world
        (λ p. the_string_member p signature.now this given.now)) }
{
    choose!(signature;
        "new(char[])" => text_of_chars(alloc, heap, left, given),
        "valueOf(boolean)" => text_of_bool(alloc, given),
        "valueOf(char)" => text_of_char(alloc, given),
        "valueOf(int)" => text_of_int(alloc, given),
        "valueOf(long)" => text_of_long(alloc, given),
        else => on_receiver(alloc, heap, left, signature, this, given))
}
