// Texts made of others.

ghost use Rattle.std.specs.Prelude.{◌≡◌, ◌++◌, length, remove, slice_set, ◌<◌, IfOk, IfSome, OnOk, OnErr, option_map};
ghost use Rattle.text_members.specs.Changes.{IsPartlyAppended, appended as the_appended, has_room as the_has_room, replaced as the_replaced, with_unit as the_with_unit, without_unit as the_without_unit};

use crate::parts::place_among;
use je_base::{Memory, Units};
use std::alloc::Global;

// The most units that a builder holds.
const MOST_UNITS: usize = 100_000_000;

/// Whether a builder of so many units has room for so many more.
pub fn has_room(count: usize, more: usize) -> bool
    ensures { result ≡ the_has_room count more }
{
    count <= MOST_UNITS && more <= MOST_UNITS - count
}

/// `append`: the units of a text behind those of a builder; `None` where the builder has no room for them. It
/// costs both lengths.
pub fn appended(alloc: Global, units: &[u16], text: &[u16]) -> Result<Option<Units>, Memory>
    ensures { IfOk result (λ made. made ≡ the_appended units.now text.now) }
{
    if has_room(units.len(), text.len()) {
        Ok(Some(joined(alloc, units, text)?))
    } else {
        Ok(None)
    }
}

/// A text's units behind those of another, in place. Want of memory leaves some of them there, from the first
/// on. It costs the text's length, and now and then that of both.
pub fn append(units: &mut Units, text: &[u16]) -> Result<(), Memory>
    ensures ok { OnOk result (units.new ≡ units.old ++ text.now) }
    ensures err { OnErr result (IsPartlyAppended units.old text.now units.new) }
{
    for unit in text {
        units.push(*unit)?;
    }
    Ok(())
}

/// A text of the same units.
pub fn copied(alloc: Global, units: &[u16]) -> Result<Units, Memory>
    ensures { IfOk result (λ made. made ≡ units.now) }
{
    let mut made = Units::new(alloc);
    append(&mut made, units)?;
    Ok(made)
}

/// `concat`: one text behind another.
pub fn joined(alloc: Global, first: &[u16], second: &[u16]) -> Result<Units, Memory>
    ensures { IfOk result (λ made. made ≡ first.now ++ second.now) }
{
    let mut made = copied(alloc, first)?;
    append(&mut made, second)?;
    Ok(made)
}

/// `replace`: each unit that is equal to `old` exchanged for `new`.
#[tactic(auto, using(std::proofs::lemmas::List::map_more))]
pub fn replaced(alloc: Global, units: &[u16], old: u16, new: u16) -> Result<Units, Memory>
    ensures { IfOk result (λ made. made ≡ the_replaced units.now old new) }
{
    let mut made = Units::new(alloc);
    for unit in units {
        made.push(if *unit == old { new } else { *unit })?;
    }
    Ok(made)
}

/// `setCharAt`: another unit at a place; `None` where the place is out of range. It costs the length.
pub fn with_unit(
    alloc: Global,
    units: &[u16],
    place: i32,
    unit: u16,
) -> Result<Option<Units>, Memory>
    ensures { IfOk result (λ made. made ≡ the_with_unit units.now place unit) }
{
    match place_among(units.len(), place) {
        None => Ok(None),
        Some(at) => Ok(Some(set_at(alloc, units, at, unit)?)),
    }
}

// Another unit at a place.
#[tactic(auto, using(std::proofs::lemmas::List::set_split))]
fn set_at(alloc: Global, units: &[u16], at: usize, unit: u16) -> Result<Units, Memory>
    requires { at < length units.now }
    ensures { IfOk result (λ made. made ≡ slice_set units.now at unit) }
{
    let mut made = copied(alloc, &units[..at])?;
    made.push(unit)?;
    append(&mut made, &units[at + 1..])?;
    Ok(made)
}

/// `deleteCharAt`: without the unit at a place; `None` where the place is out of range. It costs the length.
pub fn without_unit(alloc: Global, units: &[u16], place: i32) -> Result<Option<Units>, Memory>
    ensures { IfOk result (λ made. made ≡ the_without_unit units.now place) }
{
    match place_among(units.len(), place) {
        None => Ok(None),
        Some(at) => Ok(Some(joined(alloc, &units[..at], &units[at + 1..])?)),
    }
}
