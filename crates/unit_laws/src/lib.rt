//! A whole file is read as the one unit that spells its tokens, and as none exactly where no unit does.
#![tactic(auto)]

mod laws;

pub use laws::{unit_is_one, units_are_read};
