//! The verifier: whether a program keeps the sixteen rules of Joe-E.
//!
//! `verify` accepts a program that fits exactly where no rule is broken (`IsUnbroken` of `specs/Broken.antt`), and else lists all places
//! where one is, in order and each once. Both arguments come back. What is accepted is plain (`IsPlain` of `plain_programs`).
#![tactic(auto)]

mod accepted;
mod fault;
mod judging;

pub use accepted::Accepted;
pub use fault::VerifyFault;
pub use judging::verify;
