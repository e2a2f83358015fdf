//! What is asked of reference types: whether one may be another one, and whether one is whole when a program runs (JLS 4.7,
//! 5.5).
//!
//! `may_be`, `bounded` and `is_reifiable` are their definitions in `je_typing`, over the headers of all classes, whatever
//! these are.
#![tactic(auto)]

mod arguments;
mod bounds;
mod castable;
mod classes;

pub use bounds::bounded;
pub use castable::may_be;
pub use classes::is_reifiable;
