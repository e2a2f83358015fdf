//! Which class is written at a place of the text: the one of the body behind a `new`, and the one that a name declares.
//!
//! `spots` looks through all classes once; a look-up takes constant time. Contracts say by `AreSpotsOf` (`specs/Spots.antt`)
//! that it comes to the first class of which the test of `body_typing` or of `body_typing` holds.
#![tactic(auto)]

mod places;
mod starts;
mod written;

pub use places::{ClassSpots, spots};
