//! Which of several methods, or constructors, the arguments of a call choose (JLS 6.6.1, 15.12.2).
//!
//! Contracts see a `Candidate` by `candidate_seen` (`specs/View.antt`) as that of `call_typing`, a `Choice` by
//! `choice_seen`, and each call as the definition of its name in `Overloads` there; `choose` gives the `choice`. It
//! costs the candidates that it is given, and the pairs of those that accept the arguments.
#![tactic(auto)]

mod accepting;
mod candidate;
mod choosing;
mod preferring;

pub use accepting::{accepts, is_accessible, is_private};
pub use candidate::Candidate;
pub use choosing::{Choice, choose, chosen};
pub use preferring::{most_specific, preferred};
