// What is read of texts. Want of memory makes each row false.

use crate::text;
use std::alloc::Global;
use text_members::{
    compared, count_as_int, hash_code, index_of, index_of_unit, is_prefix, is_same_text, is_suffix,
    place_among, substring, substring_from, trimmed, unit_at,
};

fn has_unit(alloc: Global, whole: &str, place: i32, unit: Option<u16>) -> bool {
    let Ok(whole) = text(alloc, whole) else {
        return false;
    };
    unit_at(whole.as_slice(), place) == unit
}

#[test]
fn units_by_place(rt: HostRuntime) {
    let alloc = rt.alloc();
    let holds = has_unit(alloc, "hello", 0, Some(104))
        && has_unit(alloc, "hello", 4, Some(111))
        && has_unit(alloc, "hello", 5, None)
        && has_unit(alloc, "hello", -1, None)
        && place_among(5, 4) == Some(4)
        && place_among(5, i32::MIN).is_none();
    assert!(rt; holds);
}

// Whether this part stands there, or none where `part` is `-`.
fn is_part(alloc: Global, whole: &str, begin: i32, end: i32, part: &str) -> bool {
    let (Ok(whole), Ok(wanted)) = (text(alloc, whole), text(alloc, part)) else {
        return false;
    };
    match substring(whole.as_slice(), begin, end) {
        Some(found) => found == wanted.as_slice(),
        None => part == "-",
    }
}

// Whether this part stands from there on, or none where `part` is `-`.
fn is_rest(alloc: Global, whole: &str, begin: i32, part: &str) -> bool {
    let (Ok(whole), Ok(wanted)) = (text(alloc, whole), text(alloc, part)) else {
        return false;
    };
    match substring_from(whole.as_slice(), begin) {
        Some(found) => found == wanted.as_slice(),
        None => part == "-",
    }
}

#[test]
fn parts_of_texts(rt: HostRuntime) {
    let alloc = rt.alloc();
    let holds = is_part(alloc, "hamburger", 4, 8, "urge")
        && is_part(alloc, "hamburger", 0, 9, "hamburger")
        && is_part(alloc, "hamburger", 9, 9, "")
        && is_part(alloc, "hamburger", 0, 0, "")
        && is_part(alloc, "hamburger", 1, 0, "-")
        && is_part(alloc, "hamburger", -1, 2, "-")
        && is_part(alloc, "hamburger", 0, 10, "-")
        && is_part(alloc, "hamburger", 10, 10, "-")
        && is_rest(alloc, "unhappy", 2, "happy")
        && is_rest(alloc, "unhappy", 8, "-")
        && is_rest(alloc, "unhappy", -1, "-");
    assert!(rt; holds);
}

fn is_trimmed(alloc: Global, whole: &str, part: &str) -> bool {
    let (Ok(whole), Ok(part)) = (text(alloc, whole), text(alloc, part)) else {
        return false;
    };
    trimmed(whole.as_slice()) == part.as_slice()
}

#[test]
fn blanks_at_both_ends(rt: HostRuntime) {
    let alloc = rt.alloc();
    let holds = is_trimmed(alloc, " \t a b\n ", "a b")
        && is_trimmed(alloc, "  ", "")
        && is_trimmed(alloc, "", "")
        && is_trimmed(alloc, "ab", "ab");
    assert!(rt; holds);
}

fn stands_at(alloc: Global, whole: &str, part: &str, place: Option<usize>) -> bool {
    let (Ok(whole), Ok(part)) = (text(alloc, whole), text(alloc, part)) else {
        return false;
    };
    index_of(whole.as_slice(), part.as_slice()) == place
}

fn unit_stands_at(alloc: Global, whole: &str, unit: i32, place: Option<usize>) -> bool {
    let Ok(whole) = text(alloc, whole) else {
        return false;
    };
    index_of_unit(whole.as_slice(), unit) == place
}

#[test]
fn places_in_texts(rt: HostRuntime) {
    let alloc = rt.alloc();
    let holds = stands_at(alloc, "hello", "l", Some(2))
        && stands_at(alloc, "hello", "lo", Some(3))
        && stands_at(alloc, "aab", "ab", Some(1))
        && stands_at(alloc, "", "", Some(0))
        && stands_at(alloc, "hello", "", Some(0))
        && stands_at(alloc, "hello", "lx", None)
        && stands_at(alloc, "h", "hello", None)
        && unit_stands_at(alloc, "hello", 108, Some(2))
        && unit_stands_at(alloc, "hello", 120, None)
        && unit_stands_at(alloc, "hello", -1, None)
        && unit_stands_at(alloc, "hello", 65644, None);
    assert!(rt; holds);
}

// Whether a part stands at the beginning of a text, or doesn't, and at its end.
fn stands(alloc: Global, whole: &str, part: &str, first: bool, last: bool) -> bool {
    let (Ok(whole), Ok(part)) = (text(alloc, whole), text(alloc, part)) else {
        return false;
    };
    let (whole, part) = (whole.as_slice(), part.as_slice());
    is_prefix(part, whole) == first && is_suffix(part, whole) == last
}

fn compares(alloc: Global, left: &str, right: &str, given: i32) -> bool {
    let (Ok(left), Ok(right)) = (text(alloc, left), text(alloc, right)) else {
        return false;
    };
    let (left, right) = (left.as_slice(), right.as_slice());
    compared(left, right) == given && is_same_text(left, right) == (given == 0)
}

fn hashes_to(alloc: Global, whole: &str, given: i32) -> bool {
    let Ok(whole) = text(alloc, whole) else {
        return false;
    };
    hash_code(whole.as_slice()) == given
}

#[test]
fn comparisons(rt: HostRuntime) {
    let alloc = rt.alloc();
    let holds = stands(alloc, "hello", "he", true, false)
        && stands(alloc, "hello", "lo", false, true)
        && stands(alloc, "hello", "", true, true)
        && stands(alloc, "hello", "hello!", false, false)
        && compares(alloc, "abc", "abd", -1)
        && compares(alloc, "abc", "ab", 1)
        && compares(alloc, "", "xyz", -3)
        && compares(alloc, "b", "aaaa", 1)
        && compares(alloc, "ab", "ab", 0)
        && hashes_to(alloc, "hello", 99162322)
        && hashes_to(alloc, "", 0)
        && hashes_to(alloc, "polygenelubricants", i32::MIN)
        && count_as_int(1 << 31) == i32::MIN;
    assert!(rt; holds);
}
