//! What a name means at a place in a class, and the classes that headers name.
#![tactic(auto)]

mod headers;
mod look;
mod meaning;
mod member;
mod reading;
mod scope;
mod settling;

pub use headers::Headers;
pub use look::{Look, Part, Place};
pub use meaning::{Meaning, is_accessible};
pub use member::add_all;
pub use reading::{Reading, are_accessible};
pub use settling::settle;
