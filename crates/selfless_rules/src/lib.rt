//! The rules on selfless classes: their fields are final, their superclasses are selfless too, and neither `super.equals(..)` nor `==` tells
//! their objects apart.
//!
//! `broken` lists where a program breaks them (`specs/SelflessRules.antt`). It walks once over the program's own classes, and over the
//! bodies of those that are selfless.
#![tactic(auto)]

mod programs;
mod selfless;

pub use programs::broken;
