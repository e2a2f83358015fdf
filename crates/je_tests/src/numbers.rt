// Numbers that texts write, and measures of numbers. Want of memory makes each row false.

use crate::text;
use std::alloc::Global;
use text_numbers::{
    bit_count, int_absolute, int_greater, int_less, long_absolute, long_greater, long_less,
    parsed_int, parsed_long,
};

fn is_int(alloc: Global, whole: &str, number: Option<i32>) -> bool {
    let Ok(whole) = text(alloc, whole) else {
        return false;
    };
    parsed_int(whole.as_slice()) == number
}

fn is_long(alloc: Global, whole: &str, number: Option<i64>) -> bool {
    let Ok(whole) = text(alloc, whole) else {
        return false;
    };
    parsed_long(whole.as_slice()) == number
}

#[test]
fn numbers_in_texts(rt: HostRuntime) {
    let alloc = rt.alloc();
    let holds = is_int(alloc, "-2147483648", Some(i32::MIN))
        && is_int(alloc, "2147483647", Some(i32::MAX))
        && is_int(alloc, "0007", Some(7))
        && is_int(alloc, "-0", Some(0))
        && is_int(alloc, "", None)
        && is_int(alloc, "-", None)
        && is_int(alloc, "2147483648", None)
        && is_int(alloc, "-2147483649", None)
        && is_int(alloc, "99999999999999999999", None)
        && is_int(alloc, "1a", None)
        && is_int(alloc, " 1", None)
        && is_long(alloc, "-9223372036854775808", Some(i64::MIN))
        && is_long(alloc, "9223372036854775807", Some(i64::MAX))
        && is_long(alloc, "9223372036854775808", None);
    assert!(rt; holds);
}

#[test]
fn measures_of_numbers(rt: HostRuntime) {
    let holds = bit_count(-1) == 32
        && bit_count(0) == 0
        && bit_count(255) == 8
        && bit_count(i32::MIN) == 1
        && int_absolute(-5) == 5
        && int_absolute(5) == 5
        && int_absolute(i32::MIN) == i32::MIN
        && long_absolute(i64::MIN) == i64::MIN
        && int_greater(-3, 2) == 2
        && int_less(-3, 2) == -3
        && long_greater(-3, 2) == 2
        && long_less(-3, 2) == -3;
    assert!(rt; holds);
}
