//! The scopes of a source: the classes that its units declare, what a name in a header or signature means, and the first
//! fault of a name. Definitions, and laws on them.
#![tactic(auto)]

ghost use Rattle.je_scopes.specs.Found.{MembersAreFound};
ghost use Rattle.je_scopes.specs.Laws.{DependsIsDecided, FaultFreeIsAcyclic, SourcesHaveLibrary};
ghost use Rattle.je_scopes.specs.Laws.{FirstIsFound, NoneIsFaultFree};
ghost use Rattle.je_scopes.specs.Laws.{AnyOrderDecides, ReadingSettles, RoundsSuffice, SettledHolds, SettledStays};

/// What one round settles of headers each later round gives.
#[tactic(auto, using(crate::proofs::Settling::settled_stays))]
pub fn settled_headers_stay()
    ensures { SettledStays }
{}

/// The settled headers are what they name by themselves, and no further round settles another.
#[tactic(auto, using(crate::proofs::Settling::settled_holds, crate::proofs::Rounds::rounds_suffice))]
pub fn settled_headers_are_all()
    ensures holds { SettledHolds }
    ensures suffice { RoundsSuffice }
{}

/// Headers that are read in any order, each when all that it waits for is known, come to the settled ones.
#[tactic(auto, using(crate::proofs::Rounds::reading_settles))]
pub fn any_order_settles()
    ensures reading { ReadingSettles }
    ensures decides { AnyOrderDecides }
{}

/// The first fault of a program is one of its faults, and no other stands before it. There is one first fault at most, and
/// none exactly where there is no fault.
pub fn first_fault_is_found()
    ensures first { FirstIsFound }
    ensures none { NoneIsFaultFree }
{}

/// A class depends on another one exactly where the test says so. In a program without fault no class depends on itself.
/// The library's classes are among those of any units.
pub fn dependence_is_decided()
    ensures decided { DependsIsDecided }
    ensures acyclic { FaultFreeIsAcyclic }
    ensures library { SourcesHaveLibrary }
{}

/// Where no name has a fault, the look-up of a member class finds nothing, one or several by the set of those that the class has under
/// the name.
pub fn members_are_found()
    ensures { MembersAreFound }
{}
