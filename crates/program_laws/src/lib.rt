//! What is elaborated fits: of each part of an elaborated program the law that it fits, and of the whole
//! (`specs/Laws.antt`).
//!
//! What the laws ask beside that has a record each (`specs/Premises.antt`), which is to be met where an elaboration
//! cites the laws. `SourceIsSound` puts together the premises of `elaborated_laws` and `judged_laws`, and says that
//! members are as the grammar gives them; of files, `written_laws` gives that, and the same of headers. Of
//! `BodiesStand`, scopes give `scope` (`scope_laws`), and the walk over bodies gives what is met in them
//! (`body_typing`). Of `PartsStand`, headers and signatures give what it asks of headers, constants and methods
//! (`signature_typing`, `override_laws`), and the walk over bodies the types of locals. `ImplementationsAgree` asks
//! of bridges to inherited methods what headers without fault don't say of every class. That the classes of the
//! library fit is proved (`library_fits`).
//!
//! The crate has no code: each function states a law of `class_typing`.
#![tactic(auto)]

ghost use Rattle.je_core.specs.Core.{CoreProgram};
ghost use Rattle.je_scopes.specs.Source.{Source};
ghost use Rattle.elaborated_laws.specs.Elaborated.{IsElaborated};
ghost use Rattle.program_laws.specs.Laws.{BridgesFit, ClassesFit, CodeFits, FieldsFit, InitializersFit, MethodsFit};
ghost use Rattle.program_laws.specs.Laws.{ProgramFits};

use library_fits::library_fits;

/// The code of a class of the source fits: its initializers, and the bodies of its methods and constructors
/// (JLS 8.3.2, 8.4, 8.6, 8.7, 8.8).
pub fn code_fits()
    ensures { (source : Source) (program : CoreProgram) (e : IsElaborated source program) →
        CodeFits source program e }
{}

/// The fields of a class of the source fit (JLS 8.3).
pub fn fields_fit()
    ensures { (source : Source) (program : CoreProgram) (e : IsElaborated source program) →
        FieldsFit source program e }
{}

/// The initializers of a class of the source fit (JLS 8.3.2, 8.6, 8.7).
pub fn initializers_fit()
    ensures { (source : Source) (program : CoreProgram) (e : IsElaborated source program) →
        InitializersFit source program e }
{}

/// The methods and constructors of a class of the source fit, with what they override (JLS 8.4, 8.8).
pub fn methods_fit()
    ensures { (source : Source) (program : CoreProgram) (e : IsElaborated source program) →
        MethodsFit source program e }
{}

/// The bridges of a class of the source fit (JLS 8.4.8, 15.12.4.5).
pub fn bridges_fit()
    ensures { (source : Source) (program : CoreProgram) (e : IsElaborated source program) →
        BridgesFit source program e }
{}

/// A class of the source fits, with its hidden fields and initializers (JLS 8.1, 9.1).
pub fn classes_fit()
    ensures { (source : Source) (program : CoreProgram) (e : IsElaborated source program) →
        ClassesFit source program e }
{}

/// An elaborated program fits.
pub fn programs_fit()
    ensures { (source : Source) (program : CoreProgram) (e : IsElaborated source program) →
        ProgramFits source program e }
{
    library_fits();
}
