//! What is known of an elaborated program by its headers and signatures, which have no fault (`specs/Laws.antt`).
//!
//! The crate has no code: each function states a law of `signature_typing` and `class_typing`.
#![tactic(auto)]

ghost use Rattle.je_core.specs.Core.{CoreProgram};
ghost use Rattle.je_scopes.specs.Source.{Source};
ghost use Rattle.elaborated_laws.specs.Elaborated.{IsElaborated};
ghost use Rattle.judged_laws.specs.Laws.{ClassesAreJudged, ClassesInheritWell, FieldsAreStatic, HeadersStand};
ghost use Rattle.judged_laws.specs.Laws.{HeadsAreAcyclic, HeadsNameClasses, MethodsAreConcrete, MethodsAreGood};
ghost use Rattle.judged_laws.specs.Laws.{SignaturesStand, VariablesStand};

/// Each class of the source of an elaborated program is judged without fault, from its header on (JLS 8, 9).
pub fn classes_are_judged()
    ensures { (source : Source) (program : CoreProgram) (e : IsElaborated source program) →
        ClassesAreJudged source program e }
{}

/// No fault of overriding stands at a method of a class of the source, one that no source writes of an enum among them
/// (JLS 8.4.2, 8.4.8, 8.9).
pub fn methods_are_good()
    ensures { (source : Source) (program : CoreProgram) (e : IsElaborated source program) →
        MethodsAreGood source program e }
{}

/// Where no name has a fault, and headers name classes, no class and no type variable is above itself
/// (JLS 8.1.2, 8.1.4, 9.1.3).
pub fn heads_are_acyclic()
    ensures { (source : Source) (program : CoreProgram) (e : IsElaborated source program) →
        HeadsAreAcyclic source program e }
{}

/// A method has a body, unless it is abstract or native, one of an interface is abstract, and a constructor is neither
/// static nor abstract and gives nothing. Where what headers name is sound, what they throw is there
/// (JLS 8.4.3, 8.4.6, 8.4.7, 8.8, 9.4).
pub fn signatures_stand()
    ensures { (source : Source) (program : CoreProgram) (e : IsElaborated source program) →
        SignaturesStand source program e }
{}

/// A static method and a private one aren't abstract (JLS 8.4.3).
pub fn methods_are_concrete()
    ensures { (source : Source) (program : CoreProgram) (e : IsElaborated source program) →
        MethodsAreConcrete source program e }
{}

/// Where headers name classes, a class that may be extended stands above each class but Object, and interfaces beside
/// it and above interfaces (JLS 8.1.4, 8.1.5, 9.1.3, 15.9.5).
pub fn headers_stand()
    ensures { (source : Source) (program : CoreProgram) (e : IsElaborated source program) →
        HeadersStand source program e }
{}

/// Where no name has a fault, the bound of a type variable is a class or a type variable, and has its erasure
/// (JLS 4.4, 4.6).
pub fn variables_stand()
    ensures { (source : Source) (program : CoreProgram) (e : IsElaborated source program) →
        VariablesStand source program e }
{}

/// Where no name has a fault, and no class with a body behind `new` is below a type variable, what headers name as
/// above their classes are classes (JLS 8.1.4, 8.1.5, 9.1.3).
pub fn heads_are_classes()
    ensures { (source : Source) (program : CoreProgram) (e : IsElaborated source program) →
        HeadsNameClasses source program e }
{}

/// No fault of overriding stands at what a class of the source inherits, and unless it is abstract, it has a body for
/// each method (JLS 8.1.1.1, 8.4.8).
pub fn classes_inherit_well()
    ensures { (source : Source) (program : CoreProgram) (e : IsElaborated source program) →
        ClassesInheritWell source program e }
{}

/// Where no instance is round interfaces, they have no hidden fields, and their fields are static (JLS 8.1.3, 9.3).
pub fn fields_are_static()
    ensures { (source : Source) (program : CoreProgram) (e : IsElaborated source program) →
        FieldsAreStatic source program e }
{}
