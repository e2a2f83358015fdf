//! The faults of names and types as they are written in a part of a class.
//!
//! `Program` is what is known of a program by then: its classes, and the classes that their headers name.
#![tactic(auto)]

mod program;
mod written;

pub use program::Program;
