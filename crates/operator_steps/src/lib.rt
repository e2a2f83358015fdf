//! The steps of typing binary operators as they are written, equality of references, casts and `instanceof`, `? :`,
//! assignments, elements and lengths of arrays, and the making of arrays (JLS 15.10, 15.13 to 15.26).
//!
//! `Ok` comes only where the step of `je_typing` gives, with that node and type; `Err` with a fault only where the step
//! is faulty with it; else memory was wanting.
#![tactic(auto)]

mod assignments;
mod casts;
mod conditionals;
mod elements;
mod making;
mod operators;
mod part;

pub use assignments::{assignment, compound, typed_assignment};
pub use casts::{cast, instance_of};
pub use conditionals::choice;
pub use elements::{element, length_of};
pub use making::{array_of, new_array, new_array_of};
pub use operators::binary;
pub use part::Part;
