//! The world of a program before its load, in a heap.
//!
//! `world_before` makes it: a capability for each device, the constant strings, and each class variable at its constant
//! or at the default of its type. What it makes is `world_before` of `je_load`, without addresses.
#![tactic(auto)]

mod objects;
mod variables;
mod world;

pub use world::world_before;
