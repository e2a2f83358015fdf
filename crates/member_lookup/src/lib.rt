//! Look-up of a field by its name in a class of a core program.
#![tactic(auto)]

mod fields;
mod found;

pub use fields::find_field;
pub use found::{Found, joined};
