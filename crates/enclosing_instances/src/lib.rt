//! The instance round a new object of an inner class (JLS 8.1.3, 8.8.7.1, 15.9.2).
//!
//! Each function is a definition of `call_typing`: `has_enclosing` for the bodies that stand round a place, and `is_inner` and
//! `is_round` of a class.
#![tactic(auto)]

mod enclosing;

pub use enclosing::{has_enclosing, has_enclosing_round, is_inner, is_round};
