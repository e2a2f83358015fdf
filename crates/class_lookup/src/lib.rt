//! Look-up in the classes of a core program: the classes above one.
#![tactic(auto)]

mod walk;

pub use walk::classes_above;
