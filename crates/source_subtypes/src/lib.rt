//! Types of a source over the headers of classes: type arguments put in for type variables, erasure, the types above a type,
//! and subtypes (JLS 4.5, 4.6, 4.10).
//!
//! `ClassHeads` are the headers of all classes by number, which contracts see by `heads_of` as the list of heads of
//! `source_types`; a type they see by `shown` of `name_types`. What a call answers is what the definition of its name in
//! `source_types` says, whatever the headers are.
#![tactic(auto)]

mod above;
mod copying;
mod dims;
mod equality;
mod erasure;
mod heads;
mod substitution;
mod subtypes;

pub use above::{object, supertypes};
pub use copying::{all_copied, copied};
pub use equality::{are_same, is_same};
pub use erasure::erased;
pub use heads::{ClassHead, ClassHeads};
pub use substitution::{Arguments, all_substituted, argument, substituted};
pub use subtypes::is_subtype;
