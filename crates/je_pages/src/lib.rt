//! A long row of values, in pages of 4,096.
//!
//! Contracts see `Pages` as the list of its values. It keeps full pages and one that isn't full, so that no change of a value,
//! and no value more, moves what is on the other pages.
#![tactic(auto)]

mod page;
mod pages;

pub use pages::{PAGE, Pages};
