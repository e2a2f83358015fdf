//! What the members of Integer, Long, Math and String do to numbers: written as texts, read from texts, measured.
//!
//! Contracts see a text as the list of its UTF-16 units. A member's answer is the function of `specs/` that has
//! its name there; a text that writes no number gives `None`. Memory is the one error of those that make a text.
#![tactic(auto)]

mod measures;
mod reading;
mod writing;

pub use measures::{
    bit_count, int_absolute, int_greater, int_less, long_absolute, long_greater, long_less,
};
pub use reading::{parsed_int, parsed_long};
pub use writing::{hex_text, int_text, long_text, truth_text, unit_text};
