//! The steps of typing statements, of what the parts of a statement came to: `specs/` has them, and there is a function for
//! each of those of conditions and jumps.
//!
//! `Ok` comes only where the step gives, with that statement; `Err` with a fault only where the step is faulty with it; else
//! memory was wanting.
#![tactic(auto)]

mod conditions;
mod jumps;
mod returning;
mod selecting;
mod throwing;

pub use conditions::{do_loop, if_statement, loop_statement, no_condition};
pub use jumps::{jump, labelled};
pub use returning::{Returning, returned};
pub use selecting::selector;
pub use throwing::{caught_class, thrown};
