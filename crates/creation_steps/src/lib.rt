//! The steps of typing new objects, and the calls of constructors at the head of one, in bodies (JLS 8.8.7.1, 15.9).
//!
//! `Ok` comes only where the step of `call_typing` gives, with that node and type; `Err` with a fault only where the
//! step is faulty with it; else memory was wanting.
#![tactic(auto)]

mod creating;
mod heads;

pub use call_steps::{
    CreationSpans, call_on, chosen_constructor, default_constructor, made_of, receiver_of,
    simple_call, super_call, used,
};
pub use creating::{anonymous_creation, creation};
pub use heads::{implicit_constructor_call, own_constructor_call, superclass_constructor_call};
