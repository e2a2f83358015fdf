//! Types of a source over the headers of classes: type arguments put in for type variables, erasure, the types above a type,
//! subtypes (JLS 4.5, 4.6, 4.10). Definitions, and the law that the test for subtypes decides what it stands for.
#![tactic(auto)]

ghost use Rattle.source_types.specs.Laws.{SubtypesAreDecided};

/// Where no type is above itself, a type is a subtype of another one exactly where a chain of direct subtypes leads there.
pub fn subtypes_are_decided()
    ensures { SubtypesAreDecided }
{}
