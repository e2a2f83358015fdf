//! Statements with a branch: `if`, loops with a condition alone and labelled statements, what a production asks of a statement's
//! end, and the makers of statements. Each production is generic over what reads the expressions and statements below it.
//!
//! Each function that reads gives what it read with the tokens behind it, or None where nothing of its kind begins there;
//! Err is want of memory alone. Its contract is an equation: what it gives, with trees seen by `je_ast`'s views and a slice by
//! its list, is what the function of the same name in `parse_laws` reads over what reads the height below (`specs/way`).
#![tactic(auto)]

mod branches;
mod making;
mod shape;

pub use branches::{condition, do_statement, if_statement, labelled, while_statement};
pub use making::{break_off, each_loop, empty, for_loop, go_on, throw};
