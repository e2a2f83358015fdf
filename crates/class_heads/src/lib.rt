//! The headers of all classes, the library's and those of a program: their kinds, the bounds of their type
//! parameters and the types directly above them, with what is implicit in them (JLS 4.4, 8.1.2, 8.1.4, 9.1.3).
//!
//! `AllClasses` are what the classes declare, which contracts see by `classes_of` as one list by number;
//! `class_heads` gives their headers, as `class_heads` of `specs/Headers.antt` has them.
#![tactic(auto)]

mod all;
mod headers;

pub use all::AllClasses;
pub use headers::class_heads;
