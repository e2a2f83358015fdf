//! Overlay types: which of Joe-E's markers the classes and types of a program have.
//!
//! A type has a marker by its supers, by the taming text, or as an enum (`has` of `specs/Overlay.antt`). Each answer costs a constant
//! number of look-ups in tables: one for each class of the library, and as many steps as a class's number has bits.
//! `specs/Guests.antt` says what a rule says of each class of a program's own, and which of them are above one.
#![tactic(auto)]

mod guests;
mod overlay;

pub use guests::{classes_of, guest_superclasses, is_declared};
pub use overlay::{class_has, has, holds, is_under_immutable, of_library};
