//! The forms of statements in a body, of what a walk made of their parts: blocks, jumps, labels, the enhanced `for`,
//! `switch` and its groups, the clauses of a `try`, local variables with their constants (JLS 14); what statements come
//! to, and what a walk has so far.
//!
//! Contracts see a `Progress` by `progress_seen`, and what statements come to by `done_in`, as those of `body_typing`.
//! `Ok` comes only where the step there gives, with what it gives; `Err` with a fault only where the step is faulty
//! with it; else memory was wanting.
#![tactic(auto)]

mod catches;
mod constants;
mod done;
mod for_each;
mod heads;
mod labelling;
mod local_variables;
mod locals;
mod loops;
mod progress;
mod selecting;
mod simple;
mod switches;
mod switching;
mod walk;

pub use body_walks::{
    Bodies, Met, Standing, add_all_met, add_met, anonymous_type, copied_frame, standing,
    written_span,
};
pub use catches::{Clause, clauses};
pub use constants::variable_constant;
pub use done::{Done, alone, block_of, follow, nothing, one, parts, performed};
pub use for_each::{Each, begins, element, turns};
pub use heads::{EachHead, add_element};
pub use labelling::{is_loop, labelled_code, start_of, with_label};
pub use local_variables::{assigned_to, new_name};
pub use locals::local_of;
pub use loops::for_code;
pub use progress::{Progress, add_number, next_number, next_numbers};
pub use selecting::{constant_place, enum_of, place_node, selected_by};
pub use simple::{empty_statement, jump_statement};
pub use switches::{Groups, WalkedGroup, add_group, grouped, no_groups};
pub use switching::{WrittenGroup, groups};
pub use walk::{Walk, alloc};
