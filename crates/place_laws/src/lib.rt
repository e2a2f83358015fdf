//! Where a file that no unit spells goes wrong is found, and it is one place.
//!
//! `parse_laws` has the loop that follows items, read or opened, to the first that can be neither. Here it is proved to come to
//! the syntax place of `je_grammar`, and to each: so there is one. The quick way opens at once, unread, what nests deeper than
//! the limit, so that of the items around a place no more are tried than the limit is high. It comes to the same place, since
//! the braces in a tree nest no deeper than the tree is high (`proofs/Nests.antt`).
#![tactic(auto)]

mod laws;

pub use laws::{place_is_found, place_is_one, quick_place_is_same};
