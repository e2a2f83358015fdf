//! Laws on the look-ups of names, for the code that makes them.
#![tactic(auto)]

ghost use Rattle.scope_laws.specs.Laws.{DependsByWays, HeadersAreWithin, NothingIsFound, RankedIsFree, WalkIsMember};

/// What is inherited from classes is what a walk over them and those above them finds, each class once.
#[tactic(auto, using(crate::proofs::Walking::walk_is_member))]
pub fn walks_find_members()
    ensures { WalkIsMember }
{}

/// A name that no member class has is found at no class above which all headers are known.
pub fn other_names_find_nothing()
    ensures { NothingIsFound }
{}

/// Each class that a header names is one of the program.
pub fn headers_name_classes()
    ensures { HeadersAreWithin }
{}

/// Dependence goes along ways of direct dependences, and a class whose rank is above the ranks of all to which it leads directly
/// isn't on a cycle.
pub fn cycles_are_ways()
    ensures ways { DependsByWays }
    ensures free { RankedIsFree }
{}
