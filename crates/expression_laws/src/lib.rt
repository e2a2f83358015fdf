//! Reading expressions: what is read is what the grammar spells, and what it spells is read.
//!
//! `parse_laws` has one reading function for each production of expressions, over a reader of the height below. The laws here
//! hold over each such reader that reads right (`IsBelow`), with readers of class bodies and of types that read right
//! (`specs/way/Parts.antt`). They speak of definitions alone; the parser's recursion puts them together, height by height.
#![tactic(auto)]

mod laws;

pub use laws::{
    arguments_are_read, array_initializers_are_read, expressions_are_read, initializers_are_read,
};
