//! What elaboration gives: the core program has the classes of its source, with their headers, fields and methods.
//!
//! `specs/Elaborated.antt` says by what a program is elaborated, `specs/Laws.antt` what its classes are. What the
//! laws ask has a record each (`specs/Premises.antt`, `specs/Sound.antt`). `HasSites` holds of all units
//! (`sources_stand`). The others are to be met where an elaboration cites the laws: `HasWords` by the words of the
//! files (`class_names`, the lexer), `HeadsAreClasses` and `VariablesAreSound` by the grammar, names and the
//! signatures that were judged (`judged_laws`), `TypesAreSound` and `MethodsAreSound` by names and signatures together. The crate has no code: each function
//! states a law of `class_typing`.
#![tactic(auto)]

ghost use Rattle.je_core.specs.Core.{CoreProgram};
ghost use Rattle.je_scopes.specs.Source.{Source};
ghost use Rattle.elaborated_laws.specs.Elaborated.{IsElaborated};
ghost use Rattle.elaborated_laws.specs.Laws.{ClassesAreThere, ConstructorsAreNamed, DefaultsStand, FieldsStand};
ghost use Rattle.elaborated_laws.specs.Laws.{HiddenFieldsFit, KindsStand};
ghost use Rattle.elaborated_laws.specs.Laws.{MethodsAreDeclared, MethodsAreThere, MethodsStand, ProgramsAreElaborated};
ghost use Rattle.elaborated_laws.specs.Laws.{SourcesAreRepresented, SourcesStand, SupersStand, TextsStand};

/// What an elaborated program is: the library's classes, and what the members of each class of the source come to.
pub fn programs_are_elaborated()
    ensures { ProgramsAreElaborated }
{}

/// A class of an elaborated program is of the kind of its header (JLS 8.1.1, 9.1.1).
pub fn kinds_stand()
    ensures { (source : Source) (program : CoreProgram) (e : IsElaborated source program) →
        KindsStand source program e }
{}

/// The classes that a header names stand directly above its class (JLS 8.1.4, 8.1.5, 9.1.3).
pub fn supers_stand()
    ensures { (source : Source) (program : CoreProgram) (e : IsElaborated source program) →
        SupersStand source program e }
{}

/// The fields of a class stand at their places, the hidden ones first, with their erased types (JLS 8.1.3, 8.3, 8.9).
pub fn fields_stand()
    ensures { (source : Source) (program : CoreProgram) (e : IsElaborated source program) →
        FieldsStand source program e }
{}

/// The hidden fields of a class are those that fit: the one with the instance round it, those with captured locals, and
/// an enum's two (JLS 8.1.3, 8.9).
pub fn hidden_fields_fit()
    ensures { (source : Source) (program : CoreProgram) (e : IsElaborated source program) →
        HiddenFieldsFit source program e }
{}

/// The constant strings of a class of the source are texts of the program, each once (JLS 3.10.5).
pub fn texts_stand()
    ensures { (source : Source) (program : CoreProgram) (e : IsElaborated source program) →
        TextsStand source program e }
{}

/// Methods and constructors of a class stand at their places, with their erased types and flags (JLS 8.4, 8.8, 8.9).
pub fn methods_stand()
    ensures { (source : Source) (program : CoreProgram) (e : IsElaborated source program) →
        MethodsStand source program e }
{}

/// A class has no methods but those that it declares, at their places and with their names, constructors aside (JLS 8.4).
pub fn methods_are_declared()
    ensures { (source : Source) (program : CoreProgram) (e : IsElaborated source program) →
        MethodsAreDeclared source program e }
{}

/// Where names and types are sound, an elaborated program has what the classes of its source declare.
pub fn sources_are_represented()
    ensures { (source : Source) (program : CoreProgram) (e : IsElaborated source program) →
        SourcesAreRepresented source program e }
{}

/// Where their types are sound, and static and private ones have bodies, an elaborated program has the methods that the
/// classes of its source declare.
pub fn methods_are_there()
    ensures { (source : Source) (program : CoreProgram) (e : IsElaborated source program) →
        MethodsAreThere source program e }
{}

/// What the other laws ask of where classes are written, and of member classes, holds of all units (JLS 7.3, 8.5, 8.9).
pub fn sources_stand()
    ensures { SourcesStand }
{}

/// A declared class without constructors has the default one behind its methods (JLS 8.8.9).
pub fn defaults_stand()
    ensures { (source : Source) (program : CoreProgram) (e : IsElaborated source program) →
        DefaultsStand source program e }
{}

/// Each class of the source is in the program.
pub fn classes_are_there()
    ensures { (source : Source) (program : CoreProgram) (e : IsElaborated source program) →
        ClassesAreThere source program e }
{}

/// The name of constructors is the word `new`.
pub fn constructors_are_named()
    ensures { (source : Source) (program : CoreProgram) (e : IsElaborated source program) →
        ConstructorsAreNamed source program e }
{}
