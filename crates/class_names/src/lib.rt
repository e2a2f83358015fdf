//! Names of classes as texts: the words of the library, which have a number in the names of each program, and the binary
//! names of classes.
#![tactic(auto)]

mod binary_names;
mod words;

pub use binary_names::binary_name;
pub use words::library_words;
