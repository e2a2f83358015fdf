//! What is read of names, types, modifiers, parameters and heads is what the grammar spells.
//!
//! Each function here is a law of reading functions of `parse_laws` beside the relations of `je_grammar`, for each list of
//! tokens. `specs/Laws.antt` has the forms: what is read spells the tokens before the rest (`Sound`); a tree that spells
//! them, of at most the height that was asked, is what is read, or its rest goes on with it and something longer is
//! (`Exact`), or it is what is read where its rest doesn't go on with it (`Complete`); nothing is longer than what is read
//! (`Longest`). `specs/Heads.antt` has the relations of heads, and `specs/Ahead.antt` what looking ahead is to find.
#![tactic(auto)]

mod parts_of_heads;
mod written_types;

pub use parts_of_heads::{
    formals_are_read, method_heads_are_read, modifiers_are_read, supertypes_are_read,
    throws_are_read, type_heads_are_read, type_parameters_are_read,
};
pub use written_types::{
    dims_are_read, elements_are_read, looks_ahead, names_are_read, plain_types_are_read,
    references_are_read, types_are_read,
};
