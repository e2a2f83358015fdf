//! What all rules of flow speak of: their faults, of which the first in reading order is kept, the ways by which a
//! statement is left other than by its end, and constant conditions.
//!
//! `FirstFault` is seen as an option of a fault. A contract says by `first_of` which faults were added: those of a set,
//! put together as the definitions put it together (`specs/FaultSets.antt`). `kept_is_first` has the law that what is
//! kept is the first of the set, and is there exactly where the set has a fault.
#![tactic(auto)]

mod constants;
mod faults;
mod jumps;
mod switches;

ghost use Rattle.flow_base.specs.way.Kept.{KeptIsFirst};

pub use constants::{boolean_constant, constant_in_form, is_constantly};
pub use faults::{FaultKind, FirstFault, FlowFault};
pub use jumps::{Way, is_same};
pub use switches::has_default;

/// The fault that is kept of a set is its first, and none is kept exactly where there is none.
pub fn kept_is_first()
    ensures { KeptIsFirst }
{}
