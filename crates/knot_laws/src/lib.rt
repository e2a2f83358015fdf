//! What is read of at most some height is the longest tree of the grammar there, and no two trees spell the same tokens.
//!
//! The laws of types, expressions, statements and members, each over what reads the height below, are put together here by
//! induction on the height (`proofs/Knots.antt`). From them follow laws of the grammar alone: trees that spell the same
//! tokens are equal, with all their spans, and so are the longest trees at a place.
#![tactic(auto)]

mod laws;

pub use laws::{all_is_read, begins_once, longest_are_read, longest_once, spells_once};
