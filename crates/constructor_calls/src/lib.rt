//! How constructors come to those of their superclasses.
//!
//! A constructor's body begins with the call of another constructor (`calls_constructor` tells such a call), or it calls its
//! superclass's constructor without parameters (`plain_constructor`) by no word of its own (`implicitly_called`).
//! `specs/Calls.antt` has all of these.
#![tactic(auto)]

mod calls;
mod implicit;

pub use calls::calls_constructor;
pub use implicit::{implicitly_called, plain_constructor};
