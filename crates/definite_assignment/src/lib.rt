//! Which variables of a program are read before they are definitely assigned, and which final ones are assigned where they aren't
//! definitely unassigned (JLS 16).
//!
//! `judge_program` adds the faults of a whole program by one of the two rules to those found: those of its initializers, methods
//! and constructors, and by the rule of assignment one for each blank final field that a constructor, or the static initializers
//! of its class, leave unassigned (`specs/Programs.antt`). By that rule the locals of a body that a class in it reads are to be assigned
//! where the class stands.
#![tactic(auto)]

mod programs;

pub use programs::judge_program;
