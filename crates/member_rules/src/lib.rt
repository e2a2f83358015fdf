//! What is asked of a member, and of a class, by the way it is written (JLS 8.1.1, 8.3.1, 8.4.3, 8.4.7, 8.8, 9.3, 9.4).
//!
//! `bad_modifier` finds the modifier that a declaration can't have, and `bad_body` the member that has a body and should have
//! none, or the reverse. Both are what `specs/Modifiers.antt` and `specs/Bodies.antt` say of the source tree.
#![tactic(auto)]

mod bodies;
mod modifiers;

pub use bodies::bad_body;
pub use modifiers::{Declared, Surrounding, bad_modifier};
