//! The members of a core program's classes by their numbers, and the method that an object of a class has for a method.
//!
//! A member is its class and its place among the fields, or the methods, of that class. Contracts see these as the
//! definitions of `je_classes` say: `fields_of`, `method_of`, `implemented`, `dispatched`.
#![tactic(auto)]

mod dispatch;
mod members;

pub use dispatch::{dispatched, implemented, is_bridged, same_signature};
pub use members::{
    field_at, is_hidden, is_private, method_at, names_constructors, same_class, same_name,
    same_type, same_types,
};
