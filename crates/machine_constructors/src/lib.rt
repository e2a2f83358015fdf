//! How the machine runs the body of a constructor: another constructor first, then the initializers, and then the statements.
//!
//! Inside the machine alone: the layers above it use `je_interp`.
#![tactic(auto, unfolding(machine_parts::specs::way::Opened::opened))]

pub mod build;
pub mod initialize;
