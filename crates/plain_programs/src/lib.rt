//! Whether a core program is plain.
//!
//! A plain program has no native method and no `finally`, assigns static fields in static initializers alone, and comes to no wild
//! member of the library: it names none, joins no text from a wild `toString()`, and implements no interface's method by one.
//! `is_plain` tells it; contracts see the sentences of `IsPlain`, which the test `is_plain` of `specs/way` decides.
#![tactic(auto)]

mod classes;
mod expressions;
mod implementing;
mod nodes;
mod program;
mod statements;
mod wild;

ghost use Rattle.plain_programs.specs.Laws.{PlainIsDecided};

pub use program::is_plain;
pub use wild::is_wild;

/// A program is plain exactly where the test of its classes, bodies and nodes in turn passes.
pub fn plain_is_decided()
    ensures { PlainIsDecided }
{}
