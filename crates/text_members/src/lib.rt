//! What the members of String and StringBuilder do to texts, as functions of UTF-16 units.
//!
//! Contracts see a text as the list of its units. A member's answer is the function of `specs/` that has its
//! name there; an int that means no place of the text gives `None`. Memory is the one error of those that make
//! a text. What has to do with numbers is in `text_numbers`.
#![tactic(auto)]

mod changes;
mod comparing;
mod finding;
mod parts;

pub use changes::{append, appended, copied, has_room, joined, replaced, with_unit, without_unit};
pub use comparing::{compared, count_as_int, hash_code, is_same_text};
pub use finding::{index_of, index_of_unit, is_prefix, is_suffix};
pub use parts::{place_among, substring, substring_from, trimmed, unit_at};
