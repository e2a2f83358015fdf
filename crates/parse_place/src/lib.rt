//! The place where a file that no unit spells goes wrong: the first token of the innermost item
//! that can't be read.
//!
//! Items are read or opened one after another, by a loop, up to the first that can be neither. What
//! reads a declaration, a member, a statement and an expression is passed in, so nothing here
//! recurs. An item whose braces nest too deep to be read is opened at once, unread: so of the items
//! around a place no more are tried than the limit is high, and the whole takes time linear in the
//! tokens.
#![tactic(auto)]

mod contexts;
mod follow;
mod items;
mod nests;
mod openings;
mod turns;

pub use contexts::{Context, Step};
pub use follow::place_among;
pub use items::import;
