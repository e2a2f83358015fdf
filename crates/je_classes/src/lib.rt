//! The classes of a core program: which is below which, which slots an object of one has, and which method it has for a
//! method. Definitions, the laws that the tests decide what they stand for, and the tests of classes and types.
#![tactic(auto)]

mod reach;
mod subtype;

ghost use Rattle.je_classes.specs.Fields.{FieldsAreFound};
ghost use Rattle.je_classes.specs.Laws.{BelowIsDecided, SubtypesAreDecided};
ghost use Rattle.je_classes.specs.Methods.{MethodsAreFound};

pub use reach::{class_count, class_in, is_below, reach_one, reach_supers};
pub use subtype::{is_subtype, object_class};

/// A class is below another one exactly where a chain of supers leads there.
pub fn below_is_decided()
    ensures { BelowIsDecided }
{}

/// Where nothing is above Object, a type is a subtype of another one exactly where a chain of direct subtypes leads there.
pub fn subtypes_are_decided()
    ensures { SubtypesAreDecided }
{}

/// Where no class is above itself, a field's name finds nothing, one or several in a class by the set of fields that the class has under it.
pub fn fields_are_found()
    ensures { FieldsAreFound }
{}

/// Where no class is above itself, a method's name and the types of arguments choose, in a class, among the methods that the class has and that accept
/// them: one of the most specific, or several, by the sets of these.
pub fn methods_are_found()
    ensures { MethodsAreFound }
{}
