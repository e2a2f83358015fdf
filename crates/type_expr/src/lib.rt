//! The walk over the expressions of a body: of each the node and the type, or the first fault (JLS 15).
//!
//! Contracts see an expression at a place of a body by `specs/Walk.antt`, as `body_typing` judges it, and what it is
//! for by `purpose_seen`. `Ok` comes only where the definition gives, with that node and type; `Err` with a fault only
//! where it is faulty with it; else memory was wanting. Each form is a step of a module of its own, of parts that are
//! judged.
#![tactic(auto)]

mod arrays;
mod assignments;
mod creations;
mod names;
mod operators;
mod purpose;
mod walk;

pub use purpose::Purpose;
pub use walk::{elab_expr, value, values};
