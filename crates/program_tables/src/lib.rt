//! What bodies know of all classes, with what no source writes of them: an enum's constructor, methods and constants,
//! the hidden fields in front of those that a source writes, and where a captured local stands among these (JLS 8.1.3,
//! 8.9); the fields that are constant variables, by class and name (JLS 4.12.4), and the constant strings of a program
//! (JLS 15.28).
//!
//! A `Layout` tells the hidden fields. Contracts see lists of classes by `class_shown` of `declarations`, a list of
//! constant fields by `is_among` of `signature_steps`, and what a function makes of them as the definition of its name
//! in `class_typing` has it. Constant strings are sorted once by where they stand, and each is found by a set.
#![tactic(auto)]

mod classes;
mod code;
mod constant_listing;
mod declared;
mod enums;
mod expressions;
mod found;
mod hidden;
mod layout;
mod listing;
mod made;
mod nodes;
mod program;
mod statements;
mod text_listing;
mod units;

pub use code::enum_code;
pub use constant_listing::constant_names;
pub use core_making::{CapturedLocal, Known, Making, Parts, core_class, counted};
pub use enums::add_enum_methods;
pub use layout::{Layout, library_comes_first};
pub use listing::{add_hidden_fields, hidden_counts, remove_hidden_fields};
pub use made::constants_made;
pub use nodes::EnumClass;
pub use program::{captured_fields, plain_program};
pub use text_listing::texts;
