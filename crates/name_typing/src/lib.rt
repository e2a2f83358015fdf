//! What names and fields mean in an expression: definitions (JLS 6.3, 6.5, 8.2, 8.3, 15.8.3, 15.8.4, 15.11).
//!
//! `specs/Fields.antt` says which fields a type has, and what a name finds of them; `specs/Variables.antt` what a simple name
//! means at a place; `specs/Accesses.antt` and `specs/Qualified.antt` what stands behind a point. Each step comes to a node with
//! its type, or to a fault (`Judged` of `je_typing`).
#![tactic(auto)]

ghost use Rattle.name_typing.specs.Fields.{FieldsAreFound};

/// Where no type is above itself, what is found under a name is what a type has under it: nothing, one field or several.
pub fn fields_are_found()
    ensures { FieldsAreFound }
{}
