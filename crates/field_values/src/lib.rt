//! What a source writes of fields: the value of each, and which have none; and the constants of the library
//! (JLS 4.12.4, 8.3).
//!
//! All is by class, and then by the place of a field. Contracts see written values by `value_at`, which fields have
//! none by `blank_seen` of `body_scopes`, constants by `constant_at` of `body_places`, and a count for each class by
//! `count_at`.
#![tactic(auto)]

mod blank;
mod constants;
mod counts;
mod values;

pub use blank::blank_fields;
pub use constants::{is_same_constant, library_constants, shifted};
pub use counts::count_of;
pub use values::{FieldValue, all_field_values};
