//! The steps of typing statements that take a value: a value that is returned, and the labels of a `switch`. `Returns` and
//! `Switches` of `statement_steps` say what they come to.
//!
//! `Ok` comes only where the step gives, with what it gives; `Err` with a fault only where the step is faulty with it; else
//! memory was wanting.
#![tactic(auto)]

mod labels;
mod met;
mod returning;

pub use labels::{WrittenLabel, group_labels};
pub use met::LabelsMet;
pub use returning::returned_value;
