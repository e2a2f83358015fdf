// What is known of fields by their classes: constants, and what a class keeps of what is round it.

ghost use Rattle.std.specs.Prelude.{◌≡◌, option_map};
ghost use Rattle.body_places.specs.Tables.{constant_at, constant_seen, outer_of as the_outer_of};

use je_base::Units;
use je_core::{ClassId, Value};

/// The value of a constant variable (JLS 4.12.4).
#[derive(Drop)]
pub enum Constant {
    /// Of a primitive type.
    Value(Value),
    /// Of a text.
    Text(Units),
}

/// A field in which an instance of a class keeps the value of a local of a body outside it.
#[derive(Clone, Copy, PartialEq, Eq)]
pub struct Captured {
    /// The class of the body.
    pub owner: ClassId,
    /// The local's number in its body.
    pub local: u32,
    /// The field's place in the class.
    pub field: u32,
}

/// The value of a field, where it is a constant variable.
pub fn constant_of(
    constants: &[Vec<Option<Constant>>],
    class: ClassId,
    at: usize,
) -> Option<&Constant>
    ensures { option_map (λ c. constant_seen c.now) result ≡
        constant_at constants.now (record { class = class; at = at }) }
{
    match constants.get(class.0 as usize)?.get(at)? {
        Some(constant) => Some(constant),
        None => None,
    }
}

/// The place of the field in which an instance of a class keeps the one round it.
pub fn outer_of(outer: &[u32], class: ClassId) -> u32
    ensures { result ≡ the_outer_of outer.now class.0 }
{
    match outer.get(class.0 as usize) {
        Some(field) => *field,
        None => 0,
    }
}
