//! The library's classes as classes of a core program.
#![tactic(auto)]

ghost use Rattle.library_classes.specs.Laws.{ProgramsStand};

mod classes;
mod fields;
mod methods;
mod types;

pub use classes::library_classes;

/// Where the library's words have numbers, and a program's first classes are those that `library_classes` makes, the library
/// stands in the program.
#[tactic(auto, using(crate::proofs::Standing::programs_stand))]
pub fn programs_stand()
    ensures { ProgramsStand }
{}
