//! The rules on what a class of a program takes from the library by itself, beside its bodies.
//!
//! - `judge_heads` adds the breaks of the rule against extending what isn't open (`specs/Extended.antt`).
//! - `judge_implementing` adds the break of a class that implements a method of an interface by a member which isn't enabled
//!   (`specs/Implemented.antt`).
//! - `judge_constructing` adds that of a class whose constructors call one of the superclass's that isn't enabled, by no word of
//!   their own (`specs/Constructed.antt`).
#![tactic(auto)]

mod constructed;
mod extended;
mod implemented;

pub use constructed::judge_constructing;
pub use extended::judge_heads;
pub use implemented::judge_implementing;
