//! What it is for a core program to fit: each node has its erased type, and each part agrees with what takes it.
//! Definitions, and the laws that tests of each node, member and class in turn decide it.
#![tactic(auto)]

ghost use Rattle.je_fitting.specs.Laws.{ExpressionsAreDecided, FittingIsAcyclic, MisfitIsOne, MisfitsAreFound, NoMisfitFits, ProgramsAreDecided, StatementsAreDecided};

/// An expression fits where it stands exactly where the test of its nodes passes.
pub fn expressions_are_decided()
    ensures { ExpressionsAreDecided }
{}

/// A statement fits where it stands exactly where the test of its nodes passes.
pub fn statements_are_decided()
    ensures { StatementsAreDecided }
{}

/// A program fits exactly where the tests of its classes and their members pass.
pub fn programs_are_decided()
    ensures { ProgramsAreDecided }
{}

/// The first part whose test fails, by class number, the class itself before its fields and fields before methods, is the
/// first that doesn't fit; where none fails, the program fits; and there is at most one first misfit.
pub fn misfits_are_found()
    ensures found { MisfitsAreFound }
    ensures none { NoMisfitFits }
    ensures one { MisfitIsOne }
{}

/// In a program that fits no class is above itself, so that the look-ups in it stand for what they are said to.
pub fn fitting_is_acyclic()
    ensures { FittingIsAcyclic }
{}
