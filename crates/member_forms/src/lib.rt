//! The forms of members of a class whose expressions and statements are judged: fields with their constants and
//! initializers, the code of methods, constructors and initializers, and what no source writes of a class (JLS 8);
//! whether constructors lead back to themselves by the words `this` at their heads (JLS 8.8.7).
//!
//! Contracts see what a class is judged by as the parts that `class_typing` goes by (`specs/Seen.antt`), and cite its
//! definitions by them (`specs/Walks.antt`). `Ok` comes only where the definition gives, with that; `Err` with a fault
//! only where it is faulty with it; else memory was wanting, as it is where a class has more members than a place can
//! name.
#![tactic(auto)]

mod constructors;
mod counting;
mod cycles;
mod done;
mod fields;
mod initializers;
mod methods;
mod parameters;
mod scopes;
mod unwritten;
mod walk;

pub use constructors::{ConstructorHead, constructor_call, constructor_code};
pub use counting::{declared_at, fields_behind, methods_behind, next};
pub use creation_steps::implicit_constructor_call;
pub use cycles::{OwnCall, no_cycle};
pub use done::{MembersDone, follow, nothing};
pub use fields::{initialized, uninitialized};
pub use initializers::{initializer_code, initializer_scope};
pub use methods::method_code;
pub use parameters::{add_parameters, nothing_met, returning_of};
pub use scopes::{class_span, context_of, field_scope, number, scope_in};
pub use statement_forms::{
    Bodies, Done, Met, Progress, Standing, Walk, add_all_met, block_of, variable_constant,
};
pub use unwritten::{
    anonymous_code, chosen_for, default_constructor, is_without_constructor, scope_at,
};
pub use walk::{ClassWalk, alloc};
