//! Types of a source with their type arguments, as headers and signatures write them (JLS 4.2 to 4.5, 8.1.2, 10.1).
//!
//! `source_type` gives a `SrcTy` for a type that is written at a place in a class. Contracts see it by `shown`
//! (`specs/View.antt`) as the `SourceType` of `je_scopes`.
#![tactic(auto)]

mod counting;
mod resolving;
mod types;
mod written;

pub use counting::arity;
pub use resolving::{base_of, parameter_types, source_type};
pub use types::{SrcBase, SrcTy};
pub use written::name_span;
