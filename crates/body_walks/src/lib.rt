//! What walks over bodies are judged by, and what they meet: locals of the bodies round them, classes of which they
//! make objects, and classes whose bodies stand in them.
//!
//! Contracts see of `Bodies` the program (`program_in`) and what is known of all classes (`known_in`), as those of
//! `name_typing` and `body_typing`; a `Met` by `met_seen`, as that of `body_typing`, and a `Standing` by
//! `standing_seen`, as a scope of `body_typing`. What is met comes behind what was met before; an `Err` says that
//! memory was wanting.
#![tactic(auto)]

mod bodies;
mod keeping;
mod met;
mod walk;

pub use bodies::Bodies;
pub use body_type_steps::{anonymous_type, bare_type, body_type, outer, typed_local};
pub use core_making::{CapturedLocal, Scope, captures_for, written_span};
pub use keeping::{copied_frame, copied_local, standing};
pub use met::{Met, Standing};
pub use walk::{add_all_met, add_met};
