//! What the expressions and statements of a body come to: core nodes with their types, or the first fault (JLS 14, 15).
//! Definitions alone.
//!
//! `specs/Expressions.antt` is the walk over an expression's parts, and each form is one step of a chapter of its own,
//! in `je_typing`, `name_typing`, `body_types` and `call_typing`. `specs/FinalVariables.antt` says which final
//! variables may be assigned, and `specs/Mentions.antt` which names and classes an expression mentions.
//!
//! `specs/Statements.antt` is the walk over statements, and each form is one step on what its parts came to: those of
//! `statement_steps`, of `specs/LocalVariables.antt`, `specs/LocalClasses.antt`, `specs/ForEach.antt`,
//! `specs/Switches.antt` and `specs/Catches.antt`. `specs/Bodies.antt` says what the walk knows at a place and what it
//! leaves behind.
#![tactic(auto)]
