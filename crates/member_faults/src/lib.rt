//! The faults of the fields of a class.
#![tactic(auto)]

mod fields;
mod written;

pub use fields::judge_fields;
pub use written::{constants_of, members_of};
