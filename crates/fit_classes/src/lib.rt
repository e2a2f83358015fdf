//! Whether a class of a core program fits by itself: its supers, hidden fields, bridges, what it inherits, implements and
//! initializes.
//!
//! `class_fits` is the test `is_class_fit` of `je_fitting`, which decides its judgement.
#![tactic(auto)]

mod bridges;
mod class;
mod hidden;
mod inherited;
mod named;
mod supers;

pub use class::class_fits;
