//! Which classes depend on themselves.
#![tactic(auto)]

mod cycles;
mod order;

pub use cycles::{Dependences, depends, on_cycles, read_dependences};
