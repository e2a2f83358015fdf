// Values as texts, and the strings made of them.

ghost use Rattle.std.specs.Prelude.{◌≡◌, ◌≤◌, ◌++◌, IfOk};
ghost use Rattle.je_java.specs.LibraryClasses.{to_string_place as the_to_string_place};
ghost use Rattle.je_java.specs.World.{units_of as the_units_of};
ghost use Rattle.je_java.specs.Texts.{null_text as the_null_text, is_string as the_is_string, text_without_object as the_text_without_object};
ghost use Rattle.machine_parts.specs.way.Spelling.{Spells, TellsUnits, MakesText};

use crate::frame::{Context, Made};
use crate::shape::type_of;
use class_members::same_type;
use je_base::Units;
use je_core::{Base, ClassId, Memory, Obj, ObjId, Ty, Value};
use je_heap::Heap;
use je_table::LibraryClass;
use std::alloc::Global;
use text_members::{append, copied};
use text_numbers::{int_text, long_text, truth_text, unit_text};

/// What a value comes to as a text.
#[derive(Drop)]
pub enum Spelled {
    /// These units.
    Units(Units),
    /// What the `toString()` of the object gives.
    Told(ObjId),
    Wrong,
}

/// Whether a type is that of strings.
#[tactic(auto, unfolding(je_classes::specs::Hierarchy::library_class, je_java::specs::LibraryClasses::string_class))]
pub fn is_string(ty: Ty) -> bool
    ensures { result ≡ the_is_string ty }
{
    let string = Ty {
        base: Base::Class(ClassId(LibraryClass::String.number())),
        dims: 0,
    };
    same_type(ty, string)
}

/// The place of Object's `toString` among its methods.
#[tactic(auto, unfolding(je_java::specs::LibraryClasses::to_string_place))]
pub fn to_string_place() -> u32
    ensures { result ≡ the_to_string_place }
{
    3
}

const NULL: [u16; 4] = [110, 117, 108, 108];

// The text of null.
fn null_text(alloc: Global) -> Result<Units, Memory>
    ensures { IfOk result (λ text. text ≡ the_null_text) }
{
    let mut text = Units::new(alloc);
    append(&mut text, &NULL)?;
    Ok(text)
}

// A value that is no reference to an object, as a text; None for a reference to one.
fn text_without_object(alloc: Global, value: Value) -> Result<Option<Units>, Memory>
    ensures { IfOk result (λ text. text ≡ the_text_without_object value) }
{
    Ok(match value {
        Value::Bool(holds) => Some(truth_text(alloc, holds)?),
        Value::Byte(number) => Some(int_text(alloc, number as i32)?),
        Value::Short(number) => Some(int_text(alloc, number as i32)?),
        Value::Char(unit) => Some(unit_text(alloc, unit)?),
        Value::Int(number) => Some(int_text(alloc, number)?),
        Value::Long(number) => Some(long_text(alloc, number)?),
        Value::Null => Some(null_text(alloc)?),
        Value::Ref(_) => None,
    })
}

// The units of an object that has some.
fn units_of(alloc: Global, heap: &Heap, object: ObjId) -> Result<Option<Units>, Memory>
    ensures { IfOk result (λ units. units ≡ the_units_of heap.now.world.objects object.0) }
{
    match heap.units(object) {
        Some(units) => Ok(Some(copied(alloc, units)?)),
        None => Ok(None),
    }
}

/// A value as a text, but for what the `toString()` of an object gives.
pub fn spell(alloc: Global, heap: &Heap, value: Value) -> Result<Spelled, Memory>
    ensures { IfOk result (Spells heap.now value) }
{
    let text = match value {
        Value::Ref(object) => {
            let Some(own) = type_of(heap, object) else {
                return Ok(Spelled::Wrong);
            };
            if !is_string(own) {
                return Ok(Spelled::Told(object));
            }
            units_of(alloc, heap, object)?
        }
        _ => text_without_object(alloc, value)?,
    };
    match text {
        Some(units) => Ok(Spelled::Units(units)),
        None => Ok(Spelled::Wrong),
    }
}

/// The units of what a `toString()` gave; none where no program comes.
pub fn units_told(alloc: Global, heap: &Heap, told: Value) -> Result<Option<Units>, Memory>
    ensures { IfOk result (TellsUnits heap.now told) }
{
    match told {
        Value::Ref(object) => units_of(alloc, heap, object),
        _ => text_without_object(alloc, told),
    }
}

/// A new string of one text behind another, whose units are paid for before it is made.
pub fn make_text(
    context: &mut Context,
    heap: &mut Heap,
    mut front: Units,
    back: &Units,
) -> Result<Made, Memory>
    ensures goes { IfOk result (MakesText (front ++ back.now)
        context.old heap.old context.new heap.new) }
    ensures frames { context.new.frames ≡ context.old.frames }
    ensures units { context.new.units ≤ context.old.units }
    ensures begun { context.new.begun ≡ context.old.begun }
{
    let first = front.len() as u64;
    let second = back.len() as u64;
    if first > context.units || second > context.units - first {
        return Ok(Made::Spent);
    }
    context.units -= first + second;
    append(&mut front, back.as_slice())?;
    Ok(Made::Object(heap.alloc_obj(Obj::Text(front))?))
}
