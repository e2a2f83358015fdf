//! Which statements of a core program can be reached, and which bodies can complete normally (JLS 14.21).
//!
//! `judge_program` adds the faults of a whole program to those that were found: each statement that can't be reached, each
//! initializer that can't complete normally, and each body that must return and can complete normally. A contract says which
//! by the set of them (`specs/Reachable.antt`, `specs/Programs.antt`). `walk_statement` and `completes` tell of a statement whether it
//! can complete normally.
#![tactic(auto)]

mod jumps;
mod programs;
mod statements;

pub use jumps::Jumps;
pub use programs::{completes, judge_program};
pub use statements::{Ends, walk_statement};
