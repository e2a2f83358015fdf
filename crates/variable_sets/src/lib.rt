//! Sets of variables, as words of bits, and such a set for each way by which a statement is left (JLS 16).
//!
//! A variable is a number: `local_number` of a local, `field_number` of a field. `Variables` is seen as a test of numbers (`set_view`), and `Exits` as a set for each way out
//! (`exits_view`): the variables that are in the set before every exit by that way.
#![tactic(auto)]

mod exits;
mod numbers;
mod sets;

pub use exits::Exits;
pub use numbers::{field_number, local_number};
pub use sets::Variables;
