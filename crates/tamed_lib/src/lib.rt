//! What members of the library's classes do to a heap.
//!
//! `run_library` runs the tame method or constructor of a number of a class, on a receiver and arguments that have their
//! values: it finds the member's row in the library's table, takes what the member costs from the units left (`paying`), finds
//! what is left to do of it, a `Rest` (a module for each subject), and does that (`effects`). Contracts say that this is what
//! `Rattle.je_java.specs.LibraryMembers` says the member does, from this world and so many units, with the world and the units
//! then (`specs/Outcomes.antt`).
#![tactic(auto, unfolding(crate::specs::way::Opened::opened))]

mod arguments;
mod builder_members;
mod builders;
mod effects;
mod numbers;
mod objects;
mod outcome;
mod parsing;
mod paying;
mod raised;
mod rows;
mod run;
mod string_members;
mod strings;
mod texts;
mod throwables;

pub use outcome::LibraryOutcome;
pub use run::{has_own_makers, run_library};
