//! The taming text: which members of the library are enabled, which markers its classes are given, and which of them may be
//! extended.
//!
//! `Taming::read` reads a TOML text and answers a `Taming`, or the first fault by table and rule. Contracts see a `Taming` as the
//! list of its rows (`rows`), a row for each table of the text, with classes and members by their places in the library's
//! tables. `enabled`, `honorary` and `may_extend` say what the rows say of a member or a class. What a text enables is tame.
#![tactic(auto)]

mod fault;
mod judge;
mod laws;
mod marker;
mod reader;
mod shape;
mod table;
mod taming;

pub use fault::{TamingFault, TamingRule};
pub use laws::{what_is_enabled_is_tame, what_is_said_is_one};
pub use marker::Marker;
pub use taming::Taming;
