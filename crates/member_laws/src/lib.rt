//! Reading members and declarations: what is read is what the grammar spells, and what it spells is read.
//!
//! `parse_laws` has one reading function for each production of members, type declarations and class bodies, over a reader of
//! the height below. The laws here hold over each such reader that reads right (`IsBelow`); those of members also take that
//! variables and the statements of blocks are read right (`specs/way/Parts.antt`). They speak of definitions alone; the
//! parser's recursion puts them together, height by height.
#![tactic(auto)]

mod laws;

pub use laws::{bodies_are_read, declarations_are_read, local_classes_are_read, members_are_read};
