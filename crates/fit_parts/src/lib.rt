//! What the nodes of a core program that fits ask of their parts: types, operators, constants, members, and what a new
//! instance is handed.
//!
//! Each test is one of the definitions of `je_fitting`, or a part of one. `Body` is where a node stands.
#![tactic(auto)]

mod agree;
mod body;
mod captures;
mod operators;
mod parts;
mod types;

pub use agree::{agrees, all_agree, all_agree_with, all_ints};
pub use body::{Body, Code, begins_as, builds, local_type, starts};
pub use captures::{captures_fit, handed_count};
pub use operators::{gives, is_step, joins, takes, takes_one, updates};
pub use parts::{has_class, has_field, is_constructor, stands_once, type_of, uses_there};
pub use types::{
    class_type, is_bool, is_int, is_number, is_primitive, is_reference, is_variable_type, is_void,
    of, string, throwable, type_of_value,
};
