//! Reading statements: what is read is what the grammar spells, and what it spells is read.
//!
//! `parse_laws` has one reading function for each production of statements, over a reader of the height below. The laws here
//! hold over each such reader that reads right (`IsBelow`). They speak of definitions alone; the parser's recursion puts them
//! together, height by height.
#![tactic(auto)]

mod laws;

pub use laws::{
    blocks_are_read, local_variables_are_read, local_variables_are_told, parts_are_read,
    statements_are_read, variables_are_read,
};
