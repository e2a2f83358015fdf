//! What is asked of methods that override others, and of the methods of a class together (JLS 8.1.1.1, 8.4.2, 8.4.5, 8.4.6,
//! 8.4.8, 8.8.2, 9.4.1): the code for `Overrides` of `overriding`.
//!
//! A function answers `Ok` where its step comes to nothing, and else the step's fault (`IsFault` of `je_typing`), or want of
//! memory. Those that ask something of what a class inherits are handed it.
#![tactic(auto)]

mod above;
mod clashing;
mod implementing;
mod inherited;
mod overrides;

pub use above::good_method;
pub use clashing::{are_same_erased, is_override, no_constructor_clash};
pub use implementing::{all_implemented, good_implementations};
pub use inherited::no_inherited_clash;
