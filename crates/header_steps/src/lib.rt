//! What is asked of a class's header, of its static members, and of what is thrown: one function for each step of
//! `header_typing`.
//!
//! A function answers `Ok` where its step comes to nothing, and else the step's fault (`IsFault` of `je_typing`), or want of
//! memory.
#![tactic(auto)]

mod heads;
mod statics;
mod supers;
mod throws;

pub use heads::class_of;
pub use statics::{is_inner, static_class, static_field, static_initializer, static_method};
pub use supers::{anonymous_super, own_type, superclass, superinterface, throwable, well_placed};
pub use throws::thrown;
