//! Expressions of the core program in memory with their types in the source, and what is asked of such types.
//!
//! Contracts see a `TypedExpr` by `seen` (`specs/Seen.antt`), as a node of `je_typing`; each test is its definition of the
//! same name there.
#![tactic(auto)]

mod elements;
mod needed;
mod operators;
mod typed;
mod types;

pub use elements::{element_type, is_reference};
pub use needed::need_type;
pub use operators::core_op;
pub use typed::{TypedExpr, null_ty, of_base, primitive_ty, string_ty};
pub use types::{
    is_boolean, is_numeric, is_void, operand_base, operands, primitive, promoted, promoted_base,
    result_base, wider_if,
};
