//! Whole expressions and array initializers: creations, primaries, what is selected from them,
//! unary and binary operators.
//!
//! A production is generic over what reads the expressions, initializers and class bodies below it,
//! so none of them recurs. Each function that reads gives what it read with the tokens behind it,
//! or None where nothing of its kind begins there; Err is want of memory alone. Its contract is an
//! equation: what it gives, with trees seen by `je_ast`'s views and a slice by its list, is what
//! the function of the same name in `parse_laws` reads.
#![tactic(auto)]

mod creations;
mod expressions;
mod initializers;
mod operations;
mod postfix;
mod primaries;
mod unary;

pub use expressions::expression;
pub use initializers::array_initializer;
