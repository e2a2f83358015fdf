//! Scopes in bodies: the locals and local classes at a place, with the final locals that have their value there, as a walk
//! over statements changes them; and which final variables may be assigned.
//!
//! Contracts see a `Scope` by `scope_seen`, as that of `body_typing`. What a walk adds to a scope it takes away again
//! by the scope's `Depth`: while a scope `Extends` an earlier one, `leave` gives that back.
#![tactic(auto)]

mod blank;
mod finals;
mod scope;

pub use blank::is_blank;
pub use finals::not_final;
pub use scope::{Depth, Scope};
