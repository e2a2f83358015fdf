//! The nodes that operators make, of which a constant expression is one (JLS 15.28): a Const or a Text, whatever its parts.
//!
//! Each function gives a node exactly as the definition of its name in `je_typing` says, or memory was wanting. Which types
//! operands have is judged before.
#![tactic(auto)]

mod binary;
mod constants;
mod convert;
mod logic;
mod texts;
mod unary;

pub use binary::binary_node;
pub use constants::{
    constant_text, constant_value, joined_uses, mark_of, put_uses, uses_of, value_in,
};
pub use convert::{converted, converted_if};
pub use logic::{logical_node, reference_node};
pub use texts::concat_node;
pub use unary::{conversion_node, unary_node};
