//! What a value is before a point, and what is read of a member: whether a type has members, the superclass of a class,
//! and the cast to the type arguments that a declaration is without (JLS 4.6, 8.1.4, 15.11, 15.12).
//!
//! Each function is the definition of its name in `name_typing`.
#![tactic(auto)]

mod reading;
mod types;

pub use reading::taken;
pub use types::{has_members, superclass_of};
