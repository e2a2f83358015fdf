//! What calls and creations mean: definitions (JLS 8.8, 15.9, 15.12).
//!
//! `specs/Methods.antt` says which methods a type has under a name, `specs/Overloads.antt` which of several candidates arguments
//! choose, `specs/Calls.antt` what a call comes to, `specs/Constructors.antt` and `specs/Creations.antt` the same of constructors
//! and of new objects. Each step comes to a node with its type, or to a fault (`Judged` of `je_typing`).
#![tactic(auto)]

ghost use Rattle.call_typing.specs.Laws.{ChoicesAreRight};

/// What arguments choose is one of the most specific of the candidates that accept them and may be named, one with a body where
/// there is one. There is no method where none accepts them, and none is accessible where none of those may be named.
pub fn choices_are_right()
    ensures { ChoicesAreRight }
{}
