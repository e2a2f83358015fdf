//! What the units of a program declare, or the first fault of a name (JLS 6, 7, 8, 9).
//!
//! `declare` numbers the classes of all units, reads their headers, finds the faults of names, and, where there is none, gives
//! `Scopes`: where each class is written, which classes its header names, and what it declares (`declared_classes` of
//! `specs/Scopes.antt`). No name of them has a fault.
#![tactic(auto)]

ghost use Rattle.je_names.specs.Laws.{NoScopesBesideAFault, ScopesAreOne};

mod declaring;
mod program;

pub use declaring::declare;
pub use name_judge::Refusal;
pub use program::Scopes;

/// Two scopes of the same units are alike, and units that have scopes have no fault of a name.
#[tactic(auto, using(crate::proofs::One::scopes_one, crate::proofs::One::no_scopes))]
pub fn scopes_are_one()
    ensures one { ScopesAreOne }
    ensures faultless { NoScopesBesideAFault }
{}
