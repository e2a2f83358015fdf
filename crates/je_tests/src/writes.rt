// Numbers and truths as texts. Want of memory makes each row false.

use crate::spells;
use je_base::{Memory, Units};
use text_numbers::{hex_text, int_text, long_text, truth_text, unit_text};

fn is_made(made: Result<Units, Memory>, letters: &str) -> bool {
    match made {
        Ok(units) => spells(units.as_slice(), letters),
        Err(Memory) => false,
    }
}

#[test]
fn numbers_and_truths_are_written(rt: HostRuntime) {
    let alloc = rt.alloc();
    let holds = is_made(int_text(alloc, 0), "0")
        && is_made(int_text(alloc, -7), "-7")
        && is_made(int_text(alloc, i32::MIN), "-2147483648")
        && is_made(int_text(alloc, i32::MAX), "2147483647")
        && is_made(long_text(alloc, 0), "0")
        && is_made(long_text(alloc, i64::MIN), "-9223372036854775808")
        && is_made(long_text(alloc, i64::MAX), "9223372036854775807")
        && is_made(hex_text(alloc, 0), "0")
        && is_made(hex_text(alloc, 255), "ff")
        && is_made(hex_text(alloc, 48879), "beef")
        && is_made(hex_text(alloc, -1), "ffffffff")
        && is_made(hex_text(alloc, i32::MIN), "80000000")
        && is_made(truth_text(alloc, true), "true")
        && is_made(truth_text(alloc, false), "false")
        && is_made(unit_text(alloc, 120), "x");
    assert!(rt; holds);
}
