//! The steps of typing conversions: of a value in an assignment, and of an argument in a call.
//!
//! `Ok` comes only where the step of `je_typing` gives, with that node and type; `Err` with a fault only where the step is faulty
//! with it; else memory was wanting.
#![tactic(auto)]

mod conversions;

pub use conversions::{assigned, is_assignable, is_same_base, narrows_to, passes, small_number};
