//! The classes of all units by number, and the maps by which names are found among them.
//!
//! `collect` gives `Sites`. Contracts see it by `source_of` (`specs/View.antt`) as the source of `je_scopes`: the texts of
//! names, what each unit imports, and where each class is written. Each of its functions gives what a definition of
//! `je_scopes` says of that source, by a map or in constant time, but for two: `local_named` looks through the local classes
//! in scope, and a full name costs its length. A class past the last is one with nothing in it, which nothing is round.
#![tactic(auto)]

mod by_name;
mod collecting;
mod header;
mod imports;
mod indexes;
mod library;
mod sites;

pub use collecting::collect;
pub use header::is_local;
pub use sites::{Outside, Sites};
