//! What is followed of variables, and how a statement ends by how its parts end (JLS 16).
//!
//! JLS 16 follows by one text which variables are definitely assigned and which are definitely unassigned. A `Rule` says which
//! of the two is followed, and `specs/Rules.antt` has the steps in which they differ. `Ends` has the variables that are so after
//! a statement and before each exit of it by a jump; `specs/Ends.antt` says what becomes of them at the end of a loop, a
//! `switch`, a `finally` or behind a label. A `Site` is a place where classes stand in a body (`specs/Sites.antt`).
#![tactic(auto)]

mod ends;
mod rules;
mod sites;

pub use ends::{
    Ends, bottom, end_labelled, end_loop, end_switch, enter, going_on, jump, jumping, one_of,
    past_finally, pick,
};
pub use rules::{Follow, Rule, all_marked, declared, entered, handled, marked, none_marked};
pub use sites::{Site, stands_at};
