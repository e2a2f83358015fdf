//! The first fault of the names of a program, in reading order.
//!
//! `judge` finds the faults of imports, and those of each class that the units declare, part by part: its own name,
//! what its header names as above it, its type parameters, its fields, methods and constructors. The least of them is
//! the answer, so the order in which they are found is not in it.
//!
//! `Signatures` are those of the methods that were met so far; `add` tells whether one has the signature of an earlier
//! one, which is `same_signature` of `je_scopes` (JLS 8.4.2, 8.8.2). A signature is kept as a list of numbers, two of
//! which are equal exactly where the signatures are the same (`same_lists`), and found by its hash.
#![tactic(auto)]

mod bounds;
mod cycles;
mod heads;
mod imported;
mod judging;
mod laws;
mod met;
mod methods;
mod naming;
mod parameters;
mod refusal;
mod spelling;
mod taken;

pub use cycles::Cycles;
pub use judging::judge;
pub use laws::same_lists;
pub use met::{MethodHead, Signatures};
pub use refusal::Refusal;
pub use taken::TakenNames;
