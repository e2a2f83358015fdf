//! Whether the statements of a core program fit where they stand.
//!
//! `statement_fits` is the test `is_statement_fit` of `je_fitting`, which decides its judgement. It recurs over the tree alone.
#![tactic(auto)]

mod statements;
mod targets;

pub use statements::{statement_fits, statements_fit};
pub use targets::{
    Label, Targets, can_jump, is_loop, label_of, locals_there, no_targets, with_label,
};
