//! The productions of expressions, and what they stand on: literals, the operators that stand first, look-ahead, and what a
//! production asks of an expression that was read.
//!
//! A production is generic over what reads the expressions, initializers and class bodies below it, so none of them recurs.
//! Each function that reads gives what it read with the tokens behind it, or None where nothing of its kind begins there;
//! Err is want of memory alone. Its contract is an equation: what it gives, with trees seen by `je_ast`'s views and a slice by
//! its list, is what the function of the same name in `parse_laws` reads. What is asked of an expression is `je_grammar`'s
//! definition at its view.
#![tactic(auto)]

mod argument_list;
mod assignments;
mod casts;
mod conditionals;
mod length_list;
mod literals;
mod shape;
mod words;

pub use argument_list::arguments;
pub use assignments::assignment;
pub use casts::{cast, prefix};
pub use conditionals::conditional;
pub use length_list::{Inside, length, lengths};
pub use literals::literal;
pub use shape::{is_bare_creation, is_step, level, operator_level, span, type_span};
pub use words::{
    assignment_operator, binary_operator, is_outer_this, makes_array, postfix_operator,
    prefix_operator,
};
