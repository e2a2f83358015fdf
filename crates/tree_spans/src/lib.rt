//! Where trees are written: the span of each, from its first token to its last one.
#![tactic(auto)]

mod spans;

pub use spans::span;
