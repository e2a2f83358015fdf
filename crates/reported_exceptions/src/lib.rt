//! Which checked exceptions are neither caught nor declared where they are thrown, and which catches take nothing
//! (JLS 11.2, 14.21).
//!
//! What a part of a program can throw is put together as the part is, each exception at the token that throws it
//! (`specs/Throws.antt`, `specs/Expressions.antt`, `specs/Statements.antt`); a `try` keeps what its catches take.
//! `judge_program` adds the faults of a whole program to those found: of what comes out of a body that doesn't declare it,
//! and of the catches (`specs/Handled.antt`, `specs/Programs.antt`).
#![tactic(auto)]

mod expressions;
mod handled;
mod making;
mod programs;
mod statements;
mod throws;

pub use programs::judge_program;
pub use throws::Throw;
