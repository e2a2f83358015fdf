//! The classes of the library fit in each program that has them: so nothing of them needs to be tested. Definitions and laws
//! alone.
//!
//! - `specs/Laws.antt`: the law.
//!
//! Its proof goes by the table: a test of each row and of each pair of rows, which is computed (`proofs/Tests.antt`), and what
//! that says of the classes of a program (`Table.antt`, `Rounds.antt`, `Named.antt`): of their fields and methods
//! (`Members.antt`), and of the classes themselves (`Inherited.antt`, `Classes.antt`).
#![tactic(auto)]

ghost use Rattle.library_fits.specs.Laws.{LibraryFits};

use je_classes::subtypes_are_decided;

/// Each class of the library fits in each program that has the library's classes.
pub fn library_fits()
    ensures { LibraryFits }
{
    subtypes_are_decided();
}
