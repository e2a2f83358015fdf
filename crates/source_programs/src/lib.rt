//! From the bytes of a program's files to its core program, or to its first finding.
//!
//! `read_program` takes all files into tokens, all tokens into units, and judges the names of the units, their types
//! and their flow: each phase over all files before the next, so that the first finding is that of the first phase that
//! has one (`IsFirst` of `specs/Findings.antt`). A program is answered exactly where no phase has any (`ComesTo`).
//! That is the only answer (`one_program`, `one_finding`, `program_or_finding`). `front` answers it as a program that fits.
#![tactic(auto)]

mod fault;
mod judging;
mod laws;
mod program;
mod reading;
mod typing;

pub use fault::FrontFault;
pub use laws::{one_finding, one_program, program_or_finding};
pub use program::SourceProgram;
pub use reading::read_program;
pub use source_units::Refusal;
pub use typing::front;
