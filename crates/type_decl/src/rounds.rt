// Constants in rounds.

ghost use Rattle.std.specs.Prelude.{◌≡◌, ◌≤◌, ℕ, IfOk, OnOk, length, map, option_map, slice_get, suc, true, unwrap_or};
ghost use Rattle.std.specs.List.{sum_by};
ghost use Rattle.body_places.specs.Places.{frame_seen};
ghost use Rattle.body_places.specs.Tables.{constant_at, constant_in};
ghost use Rattle.member_forms.specs.Bodies.{HasAllMethods, known_in, program_in};
ghost use Rattle.class_heads.specs.View.{classes_of};
ghost use Rattle.class_typing.specs.ConstantFields.{constants_of, field_value, nothing_known, unwritten};
ghost use Rattle.je_classes.specs.Members.{Member};
ghost use Rattle.source_types.specs.Erasure.{class_numbered};
ghost use Rattle.program_tables.specs.Known.{round_seen};
ghost use Rattle.field_values.specs.Values.{value_at, values_in};
ghost use Rattle.type_decl.specs.way.Asked.{is_asked};
ghost use Rattle.type_decl.specs.way.Rows.{constant_due, fields_declared, next_seen};

use crate::judging::{Fields, asks, constants_by, judged_by};
use crate::rows::{are_settled, put};
use body_places::{Constant, Frame, fields_of};
use class_heads::AllClasses;
use field_values::FieldValue;
use je_base::Memory;
use je_core::ClassId;
use member_forms::Bodies;

// No memory holds more classes than a number can name.
fn class_at(at: usize) -> Result<ClassId, Memory>
    ensures { IfOk result (λ class. class.0 ≡ at) }
{
    match u32::try_from(at) {
        Ok(at) => Ok(ClassId(at)),
        Err(_) => Err(Memory),
    }
}

fn bodies_round(round: &[Vec<Frame>], class: usize) -> &[Frame]
    ensures { map frame_seen result.now ≡ round_seen round.now class }
{
    match round.get(class) {
        Some(frames) => frames,
        None => &[],
    }
}

fn values_at<'v, 'a>(
    values: &'v [Vec<FieldValue<'a>>],
    class: usize,
) -> Option<&'v Vec<FieldValue<'a>>>
    ensures { option_map (λ vs. vs.now) result ≡ slice_get values.now class }
{
    values.get(class)
}

// The constants of a class, if it is asked.
fn row_at(bodies: &Bodies, fields: Fields, at: usize) -> Result<Vec<Option<Constant>>, Memory>
    requires methods { HasAllMethods bodies.now }
    requires known { known_in bodies.now ≡ nothing_known (program_in bodies.now) }
    ensures { IfOk result (λ row. is_asked fields.entry.asked.now at ≡ true → (place : ℕ) →
        constant_in (slice_get row.items place) ≡ constant_due (program_in bodies.now)
        (round_seen fields.entry.round.now at) (record { class = class_numbered at; at = place })
        (unwrap_or (slice_get (values_in (slice_get fields.entry.values.now at)) place)
        unwritten)) }
{
    let alloc = bodies.calls.program.source.alloc;
    if !asks(fields.asked, at) {
        return Ok(Vec::new(alloc));
    }
    match values_at(fields.values, at) {
        Some(values) => {
            let round = bodies_round(fields.round, at);
            let row = constants_by(bodies, round, class_at(at)?, values)?;
            Ok(row)
        }
        None => Ok(Vec::new(alloc)),
    }
}

// The constants of so many classes, of which those that are asked are judged and the others have none.
fn next_rows(
    bodies: Bodies,
    fields: Fields,
    count: usize,
) -> Result<Vec<Vec<Option<Constant>>>, Memory>
    requires methods { HasAllMethods bodies }
    requires known { known_in bodies ≡ nothing_known (program_in bodies) }
    requires whole { length fields.values.now ≤ count }
    ensures whole { IfOk result (λ rows. length rows.items ≡ count) }
    ensures each { IfOk result
        (λ rows. (m : Member) → is_asked fields.entry.asked.now m.class.0 ≡ true →
        constant_at rows.items m ≡ constant_due (program_in bodies.entry)
        (round_seen fields.entry.round.now m.class.0) m
        (value_at fields.entry.values.now m)) }
{
    let alloc = bodies.calls.program.source.alloc;
    let mut rows = Vec::new(alloc);
    for at in 0..count {
        rows.push(row_at(&bodies, fields, at)?)?;
    }
    Ok(rows)
}

// One round further; whether it surely told nothing new.
fn next_round(
    bodies: &Bodies,
    fields: Fields,
    constants: &mut Vec<Vec<Option<Constant>>>,
) -> Result<bool, Memory>
    requires methods { HasAllMethods bodies.now }
    requires whole { length fields.values.now ≤ length constants.old.items }
    ensures whole { OnOk result (length constants.new.items ≡ length constants.old.items) }
    ensures next { OnOk result (constant_at constants.new.items ≡
        next_seen (program_in bodies.now) fields.entry (constant_at constants.old.items)) }
    ensures settled { IfOk result (λ is_settled. is_settled ≡ true →
        constant_at constants.new.items ≡ constant_at constants.old.items) }
{
    let rows = next_rows(judged_by(*bodies, constants), fields, constants.len())?;
    let is_settled = are_settled(fields.asked, &rows, constants);
    put(fields.asked, rows, constants);
    Ok(is_settled)
}

// How many rounds there are at most: one more than there are fields. No memory holds more of them than can be counted.
fn most_rounds(classes: AllClasses) -> Result<usize, Memory>
    ensures { IfOk result (λ n. n ≡ suc (sum_by fields_declared (classes_of classes.entry))) }
{
    let mut count: usize = 1;
    for at in 0..classes.len() {
        let Some(more) = count.checked_add(fields_of(classes, class_at(at)?).len()) else {
            return Err(Memory);
        };
        count = more;
    }
    Ok(count)
}

// So many classes at least; those that are added have no constants.
fn fill_up(
    bodies: &Bodies,
    count: usize,
    constants: &mut Vec<Vec<Option<Constant>>>,
) -> Result<(), Memory>
    ensures whole { OnOk result (count ≤ length constants.new.items) }
    ensures same { OnOk result
        (constant_at constants.new.items ≡ constant_at constants.old.items) }
{
    let alloc = bodies.calls.program.source.alloc;
    for _ in constants.len()..count {
        constants.push(Vec::new(alloc))?;
    }
    Ok(())
}

/// The constants among the fields of the classes that are asked, beside those that are known of the others: by rounds,
/// until one tells nothing new.
pub fn constants_told(
    bodies: &Bodies,
    fields: Fields,
    mut constants: Vec<Vec<Option<Constant>>>,
) -> Result<Vec<Vec<Option<Constant>>>, Memory>
    requires { HasAllMethods bodies.now }
    ensures { IfOk result (λ told. (hidden : ℕ → ℕ) →
        value_at fields.entry.values.now ≡ field_value (program_in bodies.now) hidden →
        constant_at told.items ≡ constants_of (program_in bodies.now) hidden
        (round_seen fields.entry.round.now) (is_asked fields.entry.asked.now)
        (constant_at constants.items)) }
{
    fill_up(bodies, fields.values.len(), &mut constants)?;
    for _ in 0..most_rounds(bodies.calls.program.classes)? {
        if next_round(bodies, fields, &mut constants)? {
            return Ok(constants);
        }
    }
    Ok(constants)
}
