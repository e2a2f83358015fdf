//! The steps of typing what bodies name: types, the class of an instance round a place, the type behind a `new` with a
//! body.
//!
//! Each call comes to what the definition of its name in `body_types` says, over `program_seen` and `frame_seen`;
//! `outer` and `anonymous_type` to what `body_typing` says. `Ok` comes only where the definition gives, with what
//! it gives; `Err` with a fault only where it is faulty with that; else memory was wanting.
#![tactic(auto)]

mod bare;
mod enclosing;
mod meaning;
mod named;
mod written;

pub use bare::{bare_class_type, bare_type};
pub use enclosing::{anonymous_type, outer};
pub use meaning::body_meaning;
pub use name_steps::{Variable, typed_local, variable_named};
pub use written::body_type;
