//! What each class of a program declares: its kind, its type parameters, the types that it names as above it, its fields
//! and its methods, in the order in which they are written.
//!
//! `declaration` gives a `ClassDecl`. Contracts see it by `class_shown` (`specs/View.antt`) as what
//! `specs/Declarations.antt` says of the class.
#![tactic(auto)]

mod class;
mod fields;
mod header;
mod methods;
mod words;

pub use class::{ClassDecl, FieldDecl, MethodDecl, ParameterDecl};
pub use header::declaration;
