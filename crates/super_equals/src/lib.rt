//! Where methods call Object's `equals(Object)` by `super`, which tells one object from all others.
//!
//! `walk_statement` adds the calls in a body to a `Found` (`calls_in_statement` of `specs/Statements.antt`); which call is one says
//! `is_super_equals` of `specs/Calls.antt`.
#![tactic(auto)]

mod expressions;
mod statements;

pub use expressions::{equals_place, walk_expression};
pub use statements::walk_statement;
