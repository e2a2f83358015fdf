//! The rules of Joe-E, the places where a program breaks them, and the list of these.
//!
//! A rule's definition puts the breaks of a program together as a set (`specs/Breaks.antt`). A walk over the program adds what it
//! meets to a `Found`, which contracts see as the list of what was found so far: `followed_by found.old (breaks_of x)` says that
//! the breaks of `x` were added. `in_order` gives the list of the set: each of its members once, in order. `list_is_one` has the
//! law that a set has one such list.
#![tactic(auto)]

mod breaks;
mod found;
mod rules;

ghost use Rattle.rule_breaks.specs.Breaks.{ListIsOne};

pub use breaks::Break;
pub use found::{Found, merged};
pub use rules::ConfinementRule;

/// A set of breaks has one list, and one alone, that is in order.
pub fn list_is_one()
    ensures { ListIsOne }
{}
