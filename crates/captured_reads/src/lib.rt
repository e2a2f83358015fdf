//! The classes that stand in a body, and which of the body's locals they read (JLS 8.1.3, 14.3, 15.9.5).
//!
//! `standing` lists the local and anonymous classes that stand directly in a body, each with the place where it stands and the reads
//! of the body's locals in it and in the classes inside it (`specs/Standing.antt`). Definite assignment asks for each such read
//! whether the local is assigned before the class (JLS 16).
#![tactic(auto)]

mod bodies;
mod captured;
mod expressions;
mod nesting;
mod reads;
mod scopes;
mod statements;
mod walks;

pub use captured::standing;
pub use nesting::{LocalClass, Nesting};
pub use reads::{CapturedRead, Standing};
pub use scopes::LocalName;
pub use walks::{Around, Met, Placed, Walk};
