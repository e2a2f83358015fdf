//! What is known of all classes where bodies are walked: the locals that each captures, the bodies round it, and which
//! of its fields are final without an initializer; what a new object of a class gets from round it (JLS 8.1.3, 15.9.2);
//! and classes of the core program (JLS 8, 9, 13.1), made of what is declared and of what their members come to.
//!
//! Contracts see what is `Known` by `known_seen`, as that of `body_typing`. `core_class` gives `core_class` of
//! `class_typing`, of whatever members `IsMadeOf` (`specs/Parts.antt`) says that the class is made of.
#![tactic(auto)]

mod above;
mod capturing;
mod classes;
mod fields;
mod known;
mod making;
mod program_classes;
mod ways;
mod written;

pub use body_scopes::Scope;
pub use capturing::captures_for;
pub use classes::{core_class, counted};
pub use known::{CapturedLocal, Known};
pub use making::{Making, Parts};
pub use written::{enclosing, is_enum_sort, written_span};
