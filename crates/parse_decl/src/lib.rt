//! Reads a whole file: its imports and its type declarations, or the place of its syntax fault.
//!
//! `unit` gives the one unit of height at most 300 that spells a file's tokens, or the fault at the
//! syntax place, exactly where there is none (`specs/Answers.antt`, by the relations of
//! `je_grammar` alone).
#![tactic(auto)]

mod place;
mod units;

pub use parse_expr::ParseFault;
pub use place::syntax_place;
pub use units::unit;
