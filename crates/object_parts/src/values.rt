// Values as references and as places.

ghost use Rattle.std.specs.Prelude.{◌≡◌};
ghost use Rattle.je_java.specs.Arrays.{place_within};
ghost use Rattle.je_java.specs.Equality.{same_reference as the_same_reference};

use je_core::Value;

/// Whether two references are to one object, or both null; None where one of the values is no reference.
pub fn same_reference(a: Value, b: Value) -> Option<bool>
    ensures { result ≡ the_same_reference a b }
{
    match (a, b) {
        (Value::Ref(a), Value::Ref(b)) => Some(a.0 == b.0),
        (Value::Ref(_), Value::Null) => Some(false),
        (Value::Null, Value::Ref(_)) => Some(false),
        (Value::Null, Value::Null) => Some(true),
        _ => None,
    }
}

/// The place of an index among so many elements; None where there is none.
pub fn place_in(count: u64, index: i32) -> Option<u64>
    ensures { result ≡ place_within count index }
{
    if index < 0 {
        return None;
    }
    let at = index as u64;
    if at < count { Some(at) } else { None }
}
