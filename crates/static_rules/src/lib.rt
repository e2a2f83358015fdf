//! The rules on static state: static fields are final and powerless, and no method is native or a finalizer.
//!
//! `broken` lists where a program breaks them (`specs/StaticRules.antt`). It walks once over the fields and methods of the program's own
//! classes.
#![tactic(auto)]

mod programs;

pub use programs::broken;
