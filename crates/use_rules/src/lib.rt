//! The rules of Joe-E on what a program uses: comparisons of references, texts of objects, catches of errors, `finally`, members of the
//! library that aren't enabled, and classes of the library that aren't open.
//!
//! `broken` lists their breaks in a whole program (`specs/Programs.antt`), over those of its bodies (`specs/Statements.antt`,
//! `specs/Expressions.antt`). What an expression is judged by itself stands in `node_rules`, what a class is in `class_uses`, and the
//! rules on exceptions in `specs/Exceptions.antt`.
#![tactic(auto)]

mod exceptions;
mod expressions;
mod programs;
mod statements;

pub use programs::broken;
