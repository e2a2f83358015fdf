//! The faults of names: of each the kind and where the name is written. Of those that are found the first in reading order is
//! kept, so that the order in which they are found is not in the answer. And the faults of imports, and names that were met,
//! by which one that is declared twice is found.
//!
//! A contract says by `Adds` (`specs/View.antt`) which faults a call found, as a list of the definition in `je_scopes`.
#![tactic(auto)]

mod faults;
mod imports;
mod met;

pub use faults::{FaultKind, Faults, NameFault};
pub use imports::judge_imports;
pub use met::Met;
