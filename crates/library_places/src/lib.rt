//! Which row of the library's table a member of a library class has.
//!
//! - `specs/Places.antt`: `library_place`, by the number of the class and the number of the member among its fields, or
//!   among its methods and constructors.
//! - The function `library_place` finds that row.
#![tactic(auto)]

mod place;

pub use place::library_place;
