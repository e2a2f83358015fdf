//! Whether the fields, methods and initializers of a core program's classes fit.
//!
//! `field_fits`, `method_fits` and `initializer_fits` are the tests `is_field_fit`, `is_method_fit` and
//! `is_initializer_fit` of `je_fitting`, which decide its judgements.
#![tactic(auto)]

mod bodies;
mod fields;
mod heads;
mod initializers;
mod methods;
mod overriding;
mod variables;

pub use fields::field_fits;
pub use heads::{is_interface, names_interface};
pub use initializers::initializer_fits;
pub use methods::method_fits;
pub use overriding::stands_for;
pub use variables::{is_guest, results_agree};
