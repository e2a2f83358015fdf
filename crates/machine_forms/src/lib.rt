//! How the machine begins an expression, and how calls and compound assignments go on: one function a form.
//!
//! Inside the machine alone: the layers above it use `je_interp`.
#![tactic(auto, unfolding(machine_parts::specs::way::Opened::opened))]

pub mod argument;
pub mod array;
pub mod call;
pub mod capture;
pub mod concat;
pub mod expr;
pub mod library;
pub mod telling;
pub mod update;
pub mod variable;
