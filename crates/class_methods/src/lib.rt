//! Which methods a class has, its own and those that it inherits, and which of them overrides another one (JLS 8.4.2, 8.4.8,
//! 9.2, 9.4.1).
//!
//! Contracts see a `Method` by `method_seen` (`specs/View.antt`) as that of `overriding`, and each call as the definition of its
//! name there. Of the methods above a class they see which there are, in whatever order (`HasSame` of `specs/Above.antt`).
#![tactic(auto)]

mod above;
mod declaring;
mod erasures;
mod hierarchy;
mod inheriting;
mod method;
mod seen;
mod signatures;

pub use above::{methods_above, overrides};
pub use declaring::{own, push_own};
pub use erasures::{erasure, unbounded};
pub use hierarchy::Hierarchy;
pub use method::{Method, is_same_method, own_method};
pub use signatures::{are_same_types, have_one_name, have_one_signature, is_subsignature};
