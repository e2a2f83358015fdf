//! Bridges: the methods of a class that run for methods above it, of other erased parameter types (JLS 8.4.8,
//! 15.12.4.5).
//!
//! `bridges` gives those of `class_typing`, of what a `Hierarchy` says that classes inherit (`HasAll` of
//! `class_methods`).
#![tactic(auto)]

mod finding;
mod listing;

pub use listing::bridges;
