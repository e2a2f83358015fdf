//! One move of the machine: a call begins, or a node, or the newest frame takes what there is.
//!
//! Inside the machine alone: the layers above it use `je_interp`.
#![tactic(auto, unfolding(machine_parts::specs::way::Opened::opened))]

pub mod advance;
pub mod give;
pub mod node;
pub mod start;
