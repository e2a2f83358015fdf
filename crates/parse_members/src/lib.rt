//! The productions of members and type declarations. Each is generic over what reads the
//! expressions, initializers, statements, blocks and members below it, so none of them recurs.
//!
//! What each gives, with trees seen by `je_ast`'s views and a slice by its list, is what the
//! function of the same name in `parse_laws` reads at the setting's height; Err is want of memory
//! alone.
#![tactic(auto)]

mod bodies;
mod constructors;
mod enums;
mod members;
mod methods;
mod types_declared;

pub use bodies::class_body;
pub use constructors::{ConstructorHead, constructor_head, first_call};
pub use members::{begins_initializer, member};
pub use methods::{MethodHead, method_head};
pub use types_declared::{begins_local_class, declaration, local_class};
