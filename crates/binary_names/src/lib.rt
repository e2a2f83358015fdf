//! The binary names of the classes of a source (JLS 13.1).
//!
//! `numbers` gives the number of each local and anonymous class, and `repeated_names` tells which classes have the binary
//! name of an earlier one. Contracts see the classes by `source_of` of `name_sites`, and each answer is a definition of
//! `je_scopes` on them. Both take a walk over the classes, and a step for each byte of their simple names: no name is made
//! whole, and none is compared with each of the others.
#![tactic(auto)]

mod counts;
mod names;
mod numbering;
mod repeating;
mod texts;

pub use names::repeated_names;
pub use numbering::numbers;
