//! What the library's classes declare, before erasure: their type parameters, what stands above them with its type arguments,
//! their fields and methods (JLS 8, 9).
//!
//! `library_declarations` makes them from the library's table, as `declarations` gives those of the classes of a program.
//! Contracts see them by `class_shown` of `declarations`, as the list `library_declared` of `specs/Library.antt`.
#![tactic(auto)]

mod classes;
mod members;
mod types;

pub use classes::library_declarations;
