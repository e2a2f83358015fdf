//! The rules on what immutable and powerless objects of inner classes hold beside their fields: the locals that the class captures, and
//! the object round it.
//!
//! `broken` lists where a program breaks them (`specs/InnerCapture.antt`). It walks once over the program's own classes, and for one
//! that is immutable or powerless over its superclasses.
#![tactic(auto)]

mod enclosing;
mod programs;

pub use programs::broken;
