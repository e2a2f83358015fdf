//! What typing an expression means: its node in the core program and its type, or the first fault of a type.
//!
//! `specs/` has a file for each chapter of the JLS, of steps that see what the parts of an expression came to, and no tree.
//! A step comes to `gives` what it gives, or to `faulty` with a fault, behind which nothing is looked at
//! (`specs/Judged.antt`). The function for a step answers `Ok` where it gives, and the same fault where it is faulty: a
//! `Refusal` is its fault, or want of memory (`IsFault` of `specs/Answers.antt`). `check` and `need` are the two steps
//! that all others are made of.
#![tactic(auto)]

mod fault;
mod judging;
mod operands;

pub use fault::{Refusal, TypeFault, TypeRule};
pub use judging::{check, need};
pub use operands::Operands;
