//! What the parser reads without looking at an expression: names, types, modifiers, type parameters, formal parameters and
//! heads, and the look-ahead over them.
//!
//! Each function reads at the front of its tokens, and gives what it read with the tokens behind it, or None where nothing
//! of its kind begins there; Err is want of memory alone. Its contract is an equation: what it gives, with trees seen by
//! `je_ast`'s views and a slice by its list (`specs/way`), is what the function of the same name in `parse_laws` reads.
//! Where a limit on heights is given, the height that comes with a tree is the tree's, and within the limit.
#![tactic(auto)]

mod ahead;
mod found;
mod heads;
mod modifier_words;
mod naming;
mod parameters;
mod past;
mod rest_of_type;
mod types;

pub use ahead::{
    begins_operand, behind, behind_word, first_span, identifier, is_identifier, is_symbol, is_word,
    join,
};
pub use found::{Closed, Found, Place, Read, ReadClosed};
pub use heads::{ClassHead, InterfaceHead, class_head, interface_head};
pub use modifier_words::modifiers;
pub use naming::{dims, name, names, pair, part};
pub use parameters::{final_word, formals, throws};
pub use past::{is_cast, past_dims, past_name, past_type};
pub use rest_of_type::{Rest, closes};
pub use types::{FoundType, element, plain_type, primitive, reference, type_name};
