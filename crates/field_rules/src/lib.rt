//! The rules on the fields of immutable and of powerless classes, their own and those of the classes above them.
//!
//! `broken` lists where a program breaks them (`specs/FieldRules.antt`). It walks over the fields of each of the program's own classes, and
//! for one that is immutable or powerless over those of its superclasses.
#![tactic(auto)]

mod fields;
mod programs;

pub use programs::broken;
