//! Where an object escapes while it is made: `this` stands in a constructor, an instance initializer or the initializer of an
//! instance field elsewhere than as the object of a field access.
//!
//! `broken` lists the breaks of the rule `ThisEscapes` (`specs/Programs.antt`, over `specs/Expressions.antt` and
//! `specs/Statements.antt`). Each `this` of a core program has as its span the token by which it was meant: the word itself, or
//! the name of the method that is called without an object before it or by `super.`; so a break stands there.
#![tactic(auto)]

mod expressions;
mod programs;
mod statements;

pub use programs::broken;
