//! The walk over the statements of a body: of each its code, or the first fault (JLS 14).
//!
//! Contracts see statements at a place of a body by `statements_by`, as `body_typing` judges them, a `Progress` by
//! `progress_seen`, and what statements come to by `done_in`. `Ok` comes only where the definition gives, with that
//! code; `Err` with a fault only where it is faulty with it; else memory was wanting. The scope grows along the
//! statements of a block. Statements of expressions, declarations, heads and labels are steps of modules of their own.
#![tactic(auto)]

mod declaring;
mod each;
mod expressing;
mod heads;
mod local_classes;
mod simple;
mod switch_labels;
mod switches;
mod walking;

pub use each::Elements;
pub use heads::ForHead;
pub use type_expr::{Purpose, value, values};
pub use walking::statements;
