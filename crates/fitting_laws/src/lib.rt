//! What the elaboration of an expression gives fits (`specs/`): `Fits` of `je_fitting`, where the core program has
//! what the headers and the declarations of its classes say (`Represented`, `Methods`), and the body is that of the
//! place.
//!
//! The crate has no code: each function states laws of `name_typing`, `call_typing`, `je_typing` and `body_typing`.
#![tactic(auto)]

ghost use Rattle.std.specs.Prelude.{List};
ghost use Rattle.je_core.specs.Core.{CoreProgram};
ghost use Rattle.je_fitting.specs.Expressions.{Body};
ghost use Rattle.source_types.specs.Heads.{ClassHead};
ghost use Rattle.name_typing.specs.Program.{Program};
ghost use Rattle.fitting_laws.specs.Names.{AssignedNamesFit, AssignedSelectsFit, MembersFit, NamesBeforeFit};
ghost use Rattle.fitting_laws.specs.Names.{OuterThisFits, SelectsBeforeFit, SelectsFit, SimpleNamesFit, SuperFieldsFit};
ghost use Rattle.fitting_laws.specs.Names.{ThisFits, UpdatedNamesFit};
ghost use Rattle.fitting_laws.specs.ArraysMade.{ArraysWithFit, NewArraysFit};
ghost use Rattle.fitting_laws.specs.Calls.{CallsOnFit, ReceiversFit, SimpleCallsFit, SuperCallsFit};
ghost use Rattle.fitting_laws.specs.Creations.{AnonymousCreationsFit, CreationsFit};
ghost use Rattle.fitting_laws.specs.Walk.{ExpressionsFit};

/// `this` fits (JLS 15.8.3).
pub fn this_fits()
    ensures { (p : Program) (program : CoreProgram) (body : Body) → ThisFits p program body }
{}

/// The instance of a class round the body fits (JLS 15.8.4).
pub fn outer_this_fits()
    ensures { (p : Program) (program : CoreProgram) (body : Body) → OuterThisFits p program body }
{}

/// A simple name that is read fits, or is a constant that does (JLS 6.5.6.1).
pub fn simple_names_fit()
    ensures { (p : Program) (program : CoreProgram) (body : Body) → SimpleNamesFit p program body }
{}

/// A simple name that is assigned fits where it may be assigned, and the core program may assign it there.
pub fn assigned_names_fit()
    ensures { (p : Program) (program : CoreProgram) (body : Body) →
        AssignedNamesFit p program body }
{}

/// One that is read and assigned does so too.
pub fn updated_names_fit()
    ensures { (p : Program) (program : CoreProgram) (body : Body) → UpdatedNamesFit p program body }
{}

/// A field of a value, or the length of an array, fits where the value does (JLS 10.7, 15.11.1).
pub fn members_fit()
    ensures { (p : Program) (program : CoreProgram) (body : Body) → MembersFit p program body }
{}

/// A field by `super` fits (JLS 15.11.2).
pub fn super_fields_fit()
    ensures { (p : Program) (program : CoreProgram) (body : Body) → SuperFieldsFit p program body }
{}

/// What a simple name before a point means fits, or is a class that is there (JLS 6.5.2).
pub fn names_before_fit()
    ensures { (p : Program) (program : CoreProgram) (body : Body) → NamesBeforeFit p program body }
{}

/// So does one name more.
pub fn selects_before_fit()
    ensures { (p : Program) (program : CoreProgram) (body : Body) →
        SelectsBeforeFit p program body }
{}

/// The last name, as what is assigned, fits (JLS 6.5.6.2, 15.11).
pub fn assigned_selects_fit()
    ensures { (p : Program) (program : CoreProgram) (body : Body) →
        AssignedSelectsFit p program body }
{}

/// The last name, as a value, fits.
pub fn selects_fit()
    ensures { (p : Program) (program : CoreProgram) (body : Body) → SelectsFit p program body }
{}

/// A new array fits where its lengths do (JLS 15.10).
pub fn new_arrays_fit()
    ensures { (program : CoreProgram) (body : Body) (heads : List ClassHead) →
        NewArraysFit program body heads }
{}

/// An array of elements fits where these do (JLS 10.6).
pub fn arrays_with_fit()
    ensures { (program : CoreProgram) (body : Body) (heads : List ClassHead) →
        ArraysWithFit program body heads }
{}

/// What stands before a call fits where it does as a qualifier (JLS 15.12.1).
pub fn receivers_fit()
    ensures { (p : Program) (program : CoreProgram) (body : Body) → ReceiversFit p program body }
{}

/// A call on a value or on a class fits where the value and the arguments do (JLS 15.12).
pub fn calls_on_fit()
    ensures { (p : Program) (program : CoreProgram) (body : Body) → CallsOnFit p program body }
{}

/// A call by a simple name fits where its arguments do.
pub fn simple_calls_fit()
    ensures { (p : Program) (program : CoreProgram) (body : Body) → SimpleCallsFit p program body }
{}

/// A call by `super` does so too.
pub fn super_calls_fit()
    ensures { (p : Program) (program : CoreProgram) (body : Body) → SuperCallsFit p program body }
{}

/// A new object fits where its arguments, and what it gets from round its class, do (JLS 15.9).
pub fn creations_fit()
    ensures { (p : Program) (program : CoreProgram) (body : Body) → CreationsFit p program body }
{}

/// One of a class with a body behind `new` does so too (JLS 15.9.5).
pub fn anonymous_creations_fit()
    ensures { (p : Program) (program : CoreProgram) (body : Body) →
        AnonymousCreationsFit p program body }
{}

/// What the walk over an expression gives fits, where what it names and makes is there (JLS 15).
pub fn expressions_fit()
    ensures { ExpressionsFit }
{}
