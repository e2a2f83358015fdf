//! What the productions of the parser are read with, and what they may ask of what reads the height below.
//!
//! A production is generic over what reads the trees below it: expressions, initializers, statements, block statements,
//! blocks, members and class bodies. `specs/way/Readers.antt` has a sentence for each: what it reads is what the reading
//! function of `parse_laws` reads at the setting's height, and the height that it gives is right.
#![tactic(auto)]

mod boxes;
mod settings;

pub use boxes::{boxed, boxed_statement};
pub use settings::Setting;
