//! The first part of a core program that doesn't fit: by class, the class itself before its fields, and fields before methods.
#![tactic(auto)]

mod misfit;

pub use misfit::{Part, first_misfit};
