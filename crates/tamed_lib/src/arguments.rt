// What a member is called with, and which of several it is.

ghost use Rattle.std.specs.Prelude.{◌≡◌, slice_get};
ghost use Rattle.std.specs.Str.{bytes_eq};
ghost use Rattle.je_java.specs.library.Arguments.{int_in, long_in, char_in, truth_in};

use je_core::{Slots, Value};

/// Whether a signature is that one.
pub fn is(own: &str, signature: &str) -> bool
    ensures { result ≡ bytes_eq own.now signature.now }
{
    own == signature
}

/// The int among arguments at a place; None where there is none.
pub fn int_at(given: &Slots, at: usize) -> Option<i32>
    ensures { result ≡ int_in (slice_get given.now at) }
{
    match given.get(at) {
        Some(Value::Int(number)) => Some(number),
        _ => None,
    }
}

/// The long among arguments at a place; None where there is none.
pub fn long_at(given: &Slots, at: usize) -> Option<i64>
    ensures { result ≡ long_in (slice_get given.now at) }
{
    match given.get(at) {
        Some(Value::Long(number)) => Some(number),
        _ => None,
    }
}

/// The char among arguments at a place; None where there is none.
pub fn char_at(given: &Slots, at: usize) -> Option<u16>
    ensures { result ≡ char_in (slice_get given.now at) }
{
    match given.get(at) {
        Some(Value::Char(unit)) => Some(unit),
        _ => None,
    }
}

/// The boolean among arguments at a place; None where there is none.
pub fn truth_at(given: &Slots, at: usize) -> Option<bool>
    ensures { result ≡ truth_in (slice_get given.now at) }
{
    match given.get(at) {
        Some(Value::Bool(holds)) => Some(holds),
        _ => None,
    }
}

/// What is done with the units of the String argument at a place, where it is null, and where it is none.
macro_rules! with_text {
    ($heap:ident, $given:ident, $at:literal, $units:ident => $then:expr, null => $null:expr, else => $otherwise:expr) => {
        match $given.get($at) {
            Some(Value::Ref(object)) => match $heap.units(object) {
                Some($units) => $then,
                None => $otherwise,
            },
            Some(Value::Null) => $null,
            _ => $otherwise,
        }
    };
}

pub(crate) use with_text;

/// What the member of a signature comes to, of several; another one comes to what is otherwise.
macro_rules! choose {
    ($signature:ident; $($own:literal => $then:expr,)* else => $otherwise:expr) => {{
        $(if is($own, $signature) {
            return $then;
        })*
        $otherwise
    }};
}

pub(crate) use choose;
