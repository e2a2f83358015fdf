//! From the trees of all units to the core program, or to the first fault of a type (JLS 8, 9).
//!
//! `elab` judges headers and signatures first, and then walks the bodies of all classes twice: for what is met in them,
//! and, where it is known what each class captures, for their code. `Ok` comes only with the core program that
//! `elaborated` of `class_typing` gives; `Err` with a fault only where that is faulty with it; else memory was wanting.
#![tactic(auto)]

mod bodies;
mod code_walk;
mod constructors;
mod elaborating;
mod enums;
mod fields;
mod first;
mod ground;
mod heads;
mod initializers;
mod judging;
mod meeting;
mod meeting_walk;
mod member_walk;
mod members;
mod methods;
mod rounds;
mod rows;
mod told;
mod unwritten;
mod walk;
mod whole;

pub use elaborating::elab;
