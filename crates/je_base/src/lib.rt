//! What every phase speaks of: spans, names by number, texts of UTF-16 units, want of memory.
//!
//! `Names` is seen as the list of its texts, `Units` as the list of its UTF-16 units; `Span` and `NameId` are plain data.
#![tactic(auto)]

mod memory;
mod names;
mod span;
mod units;

pub use memory::Memory;
pub use names::Names;
pub use span::{NameId, Span};
pub use units::Units;
