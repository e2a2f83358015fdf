//! Core programs that fit, over the library's classes.
//!
//! `Typed::check` takes a program whose library stands and answers it as a `Typed`, of which each part fits, or the first
//! part that doesn't. Contracts see a `Typed` as its program (`program_of`). It tells in a short time where fields stand, which
//! class is below which, and whether the program is plain. `library_place`, of the crate below, says which row of the
//! library's table a field or method of a library class has.
#![tactic(auto)]

mod fault;
mod limits;
mod parts;
mod typed;

pub use fault::CheckFault;
pub use library_places::library_place;
pub use limits::is_small;
pub use typed::Typed;
