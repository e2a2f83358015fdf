//! What files are read as is written as the grammar has it (`specs/Laws.antt`): behind `new`, and above classes and
//! type parameters, stand classes without brackets, and arrays that are made have lengths.
//!
//! The crate has no code: each function states a law of `je_grammar`, `source_units` and `je_scopes`. The proofs go by
//! the derivations of the grammar (`proofs/Spelled.antt`), the trees with other numbers for their names
//! (`Renumbered.antt`), and the walk that finds the classes of a program (`Places.antt`).
#![tactic(auto)]

ghost use Rattle.written_laws.specs.Laws.{ClassesAreWritten, DeclarationsAreWritten, ExpressionsAreWritten};
ghost use Rattle.written_laws.specs.Laws.{SourcesAreWritten, SpelledMembersAreWritten, StatementsAreWritten};
ghost use Rattle.written_laws.specs.Laws.{UnitsAreWritten};

/// An expression that tokens spell makes objects of classes without brackets, and arrays that have lengths
/// (JLS 15.9, 15.10).
pub fn expressions_are_written()
    ensures { ExpressionsAreWritten }
{}

/// So does a statement of a block (JLS 14.2).
pub fn statements_are_written()
    ensures { StatementsAreWritten }
{}

/// So does a member (JLS 8.2).
pub fn spelled_members_are_written()
    ensures { SpelledMembersAreWritten }
{}

/// So does a declaration, and what stands above it and its type parameters are classes without brackets
/// (JLS 4.4, 8.1.4, 8.1.5, 9.1.3).
pub fn declarations_are_written()
    ensures { DeclarationsAreWritten }
{}

/// So do the declarations of the units that files are read as (JLS 7.3).
pub fn units_are_written()
    ensures { UnitsAreWritten }
{}

/// What stands above each class of files and its type parameters, local and anonymous ones among them, is a class
/// without brackets (JLS 4.4, 8.1.4, 8.1.5, 9.1.3, 15.9).
pub fn sources_are_written()
    ensures { SourcesAreWritten }
{}

/// The members of each of these classes make objects of classes without brackets, and arrays that have lengths
/// (JLS 15.9, 15.10).
pub fn classes_are_written()
    ensures { ClassesAreWritten }
{}
