//! Which variables are definitely assigned where an expression reads them, and which final ones are definitely unassigned where
//! it assigns them (JLS 16.1).
//!
//! `walk_expression` goes from the set of the variables that are so before to that of those that are so after, by the text of
//! JLS 16.1 (`specs/Expressions.antt`), and adds a fault for each variable that is read and isn't assigned, or for each final one
//! that is assigned and isn't unassigned. `test_standing` adds a fault for each local that is read in a class at a place and isn't
//! assigned there (`specs/Reads.antt`). `without_assigned` leaves out what is assigned anywhere in an expression
//! (`specs/Untouched.antt`).
#![tactic(auto)]

mod expressions;
mod places;
mod reads;
mod untouched;

pub use expressions::{After, walk_all, walk_expression};
pub use places::{is_home, variable_of};
pub use reads::test_standing;
pub use untouched::{without_all, without_assigned};
