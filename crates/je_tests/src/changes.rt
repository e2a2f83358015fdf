// What is made of texts. Want of memory makes each row false.

use crate::{spells, text};
use je_base::{Memory, Units};
use std::alloc::Global;
use text_members::{append, appended, copied, has_room, joined, replaced, with_unit, without_unit};

// Whether these units were made, or none where `letters` is `-`.
fn is_made(made: Result<Option<Units>, Memory>, letters: &str) -> bool {
    match made {
        Ok(Some(units)) => spells(units.as_slice(), letters),
        Ok(None) => letters == "-",
        Err(Memory) => false,
    }
}

fn is_exchanged(alloc: Global, whole: &str, old: u16, new: u16, letters: &str) -> bool {
    let Ok(whole) = text(alloc, whole) else {
        return false;
    };
    let Ok(made) = replaced(alloc, whole.as_slice(), old, new) else {
        return false;
    };
    spells(made.as_slice(), letters)
}

fn is_set(alloc: Global, whole: &str, place: i32, unit: u16, letters: &str) -> bool {
    let Ok(whole) = text(alloc, whole) else {
        return false;
    };
    is_made(with_unit(alloc, whole.as_slice(), place, unit), letters)
}

fn is_deleted(alloc: Global, whole: &str, place: i32, letters: &str) -> bool {
    let Ok(whole) = text(alloc, whole) else {
        return false;
    };
    is_made(without_unit(alloc, whole.as_slice(), place), letters)
}

#[test]
fn units_are_changed(rt: HostRuntime) {
    let alloc = rt.alloc();
    let holds = is_exchanged(alloc, "mesquite", 101, 111, "mosquito")
        && is_set(alloc, "hello", 1, 117, "hullo")
        && is_set(alloc, "hello", 5, 117, "-")
        && is_deleted(alloc, "hello", 4, "hell")
        && is_deleted(alloc, "hello", -1, "-");
    assert!(rt; holds);
}

// A copy of a text with another one behind it.
fn both(alloc: Global, whole: &[u16], more: &[u16]) -> Result<Units, Memory> {
    let mut builder = copied(alloc, whole)?;
    append(&mut builder, more)?;
    Ok(builder)
}

// Whether a text with another one behind it is that, however it is made.
fn is_both(alloc: Global, whole: &str, more: &str, letters: &str) -> bool {
    let (Ok(whole), Ok(more)) = (text(alloc, whole), text(alloc, more)) else {
        return false;
    };
    let (whole, more) = (whole.as_slice(), more.as_slice());
    let (Ok(grown), Ok(new)) = (both(alloc, whole, more), joined(alloc, whole, more)) else {
        return false;
    };
    spells(grown.as_slice(), letters)
        && spells(new.as_slice(), letters)
        && is_made(appended(alloc, whole, more), letters)
}

#[test]
fn one_behind_another(rt: HostRuntime) {
    let holds = is_both(rt.alloc(), "hell", "o", "hello")
        && has_room(99_999_999, 1)
        && !has_room(100_000_000, 1)
        && !has_room(0, usize::MAX);
    assert!(rt; holds);
}
