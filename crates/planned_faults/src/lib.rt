//! What stands outside a program in memory, for tests: which of its calls are to fail.
//!
//! `Calls` counts the calls that were made and knows which of them are to fail. Contracts see it as a `Plan` (`specs/Plan.antt`).
//! `specs/Counts.antt` says when a count of faults rose.
#![tactic(auto)]

mod calls;

pub use calls::Calls;
