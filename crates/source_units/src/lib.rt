//! The files of a program: their tokens, and then the unit of each, over one list of names.
//!
//! `read_units` reads all files into tokens and then all tokens into units, and answers the first
//! fault of the first of these phases that finds one. Each file is read with names of its own; the
//! units that are answered have the numbers of one list, in which the names of all files stand once
//! each (`specs/Units.antt`). A fault is a `Finding`, and `IsFirstFault` of `specs/Faults.antt` says
//! which. The answer is the only one (`units_are_one`, `units_or_fault`, `fault_is_one`).
#![tactic(auto)]

mod laws;
mod lexing;
mod numbering;
mod parsing;
mod reading;
mod refusal;
mod units;

pub use laws::{fault_is_one, units_are_one, units_or_fault};
pub use reading::read_units;
pub use refusal::Refusal;
pub use units::SourceUnits;
