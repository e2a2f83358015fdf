//! The bits of a set of markers.

/// Nothing that an object of the class reaches can change.
pub const IMMUTABLE: u8 = 1;

/// Immutable, and no object that one of the class reaches is a token: it grants nothing.
pub const POWERLESS: u8 = 2;

/// Nothing tells two objects of the class with the same content apart.
pub const SELFLESS: u8 = 4;

/// References to objects of the class may be compared by `==`.
pub const EQUATABLE: u8 = 8;
