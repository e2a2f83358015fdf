//! The steps of typing literals, operators, `++` and `--`, one function for each step of `je_typing`, of what the parts of an
//! expression came to.
//!
//! `Ok` comes only where the step gives, with that node and type; `Err` with a fault only where the step is faulty with it; else
//! memory was wanting.
#![tactic(auto)]

mod assignments;
mod literals;
mod operators;

pub use assignments::{is_place, stepped};
pub use literals::{literal, negative_int_literal, negative_long_literal};
pub use operators::{concatenation, logical, plus, primitive_operation, unary};
