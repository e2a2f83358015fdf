//! What the machine and the members of the library look at of objects and values: an object's class, type and extent, the slots
//! of fields, references compared, and places in arrays.
//!
//! The answers are those of `je_java`'s definitions on a heap's world (`specs/World.antt`) and on values.
#![tactic(auto, unfolding(je_java::specs::way::Opened::opened))]

pub mod shape;
pub mod slots;
pub mod values;
