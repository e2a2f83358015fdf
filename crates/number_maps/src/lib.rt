//! Maps from numbers to numbers that share what they have in common.
//!
//! A map with one more key takes as many nodes as a key has bits, and leaves the maps that were there as they are. So a family of
//! maps, each of which goes out from another one, takes the memory of what each adds, and a look into one takes as many steps as
//! a key has bits. Contracts see a family by `is_map` and `value_in`, which say what is a map and what it has for a key.
#![tactic(auto)]

mod maps;

pub use maps::Maps;
