//! How the machine begins a statement, and how blocks, loops, `switch` and `try` go on: one function a form.
//!
//! Inside the machine alone: the layers above it use `je_interp`.
#![tactic(auto, unfolding(machine_parts::specs::way::Opened::opened))]

pub mod catch;
pub mod jump;
pub mod stmt;
pub mod switch;
pub mod turn;
