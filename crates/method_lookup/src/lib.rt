//! Look-up of a method by its name and the types of arguments in a class of a core program.
#![tactic(auto)]

mod candidates;
mod choice;
mod methods;
mod passing;
mod ways;

pub use methods::find_method;
