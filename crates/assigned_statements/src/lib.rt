//! Which variables are definitely assigned, or definitely unassigned, after statements and before their exits (JLS 16.2).
//!
//! `walk_statement` goes from the set of the variables that are so before to that of those that are so after, by the text of
//! JLS 16.2 (`specs/Statements.antt`), and adds the faults of the expressions on its way, and of the local classes where
//! they are declared.
//!
//! A loop asks what a turn of it leaves, were all variables unassigned before. By the text its body is walked twice for that, and
//! loops in one another two to the power of their depth times. So `pairs` walks a body once from two sets at a time: no variable
//! looks at another, and what a loop leaves from any set is picked from what it leaves from all variables and from none.
#![tactic(auto)]

mod pairs;
mod simple_pairs;
mod statements;
mod untouched;

pub use statements::walk_statement;
