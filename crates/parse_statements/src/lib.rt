//! The productions of statements. Each is generic over what reads the expressions, initializers, statements, block statements
//! and blocks below it, so none of them recurs.
//!
//! Each function that reads gives what it read with the tokens behind it, or None where nothing of its kind begins there;
//! Err is want of memory alone. Its contract is an equation: what it gives, with trees seen by `je_ast`'s views and a slice by
//! its list (`specs/way`), is what the function of the same name in `parse_laws` reads over what reads the height below.
#![tactic(auto)]

mod blocks;
mod declarators;
mod fors;
mod jumps;
mod statements;
mod switches;
mod tries;

pub use blocks::{block, block_statements};
pub use declarators::{begins_local, variables};
pub use statements::{local, statement};
