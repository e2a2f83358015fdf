//! Whether the expressions of a core program fit where they stand.
//!
//! `expression_fits` is the test `is_fit` of `je_fitting`, which decides its judgement. It recurs over the tree alone.
#![tactic(auto)]

mod expressions;
mod leaves;

pub use expressions::{expression_fits, expressions_fit};
pub use leaves::{is_concrete, is_made_by, is_this};
