//! The `main` of a program, and its run: the load without devices, and then the call.
//!
//! - `specs/Mains.antt`: which method is the `main` of a program, and what its run comes to.
#![tactic(auto)]

mod mains;
mod running;

pub use mains::main_of;
pub use running::run_main;
