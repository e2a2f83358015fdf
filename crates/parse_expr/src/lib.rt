//! Reads expressions, statements of blocks, members and type declarations: the longest of height at
//! most 300 that begins at a token, or the fault that stands there, exactly where none begins.
//!
//! The calls `expr`, `block_stmt`, `member` and `decl` say so by the relations of `je_grammar`
//! alone (`specs/Answers.antt`). `knot` ties the productions of the crates below by recursion on
//! the height; what its functions read is what the reading functions of `parse_laws` read, and by
//! `knot_laws` that is the longest tree.
#![tactic(auto)]

mod fault;
mod front;
mod knot;

pub use fault::ParseFault;
pub use front::{MAX_HEIGHT, block_stmt, decl, expr, member, setting};
pub use knot::{
    block_stmt as block_stmt_within, decl as decl_within, expr as expr_within,
    member as member_within,
};
