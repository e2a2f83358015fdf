//! What headers and signatures without fault say of methods that override others (`specs/`): those with one name and
//! erasure override each other as the language says, and the methods of a core program that has what is declared stand
//! for those that they override, as fitting classes ask.
//!
//! The crate has no code: each function states a law of `overriding`.
#![tactic(auto)]

ghost use Rattle.std.specs.Prelude.{List};
ghost use Rattle.je_core.specs.Core.{CoreProgram};
ghost use Rattle.source_types.specs.Heads.{ClassHead};
ghost use Rattle.declarations.specs.Declarations.{DeclaredClass};
ghost use Rattle.name_typing.specs.Program.{Program};
ghost use Rattle.override_laws.specs.Bridging.{InheritedAreImplemented, OverridesBridge};
ghost use Rattle.override_laws.specs.Fitting.{MethodsOverrideWell, OverridesStand};
ghost use Rattle.override_laws.specs.Inherited.{ImplementationsStand};
ghost use Rattle.override_laws.specs.Laws.{OneErasureOverrides, OwnErasuresDiffer};

/// A method without fault overrides each of its name and erasure that a class above declares, and may do so
/// (JLS 8.4.2, 8.4.8).
pub fn one_erasure_overrides()
    ensures { (heads : List ClassHead) (classes : List DeclaredClass) →
        OneErasureOverrides heads classes }
{}

/// No two methods of a class without fault have one name and erasure (JLS 8.4.2).
pub fn own_erasures_differ()
    ensures { (heads : List ClassHead) (classes : List DeclaredClass) →
        OwnErasuresDiffer heads classes }
{}

/// A method without fault stands in the core program for each of its erased signature above its class: neither is
/// static, and its result is the other one's or below (JLS 8.4.5, 8.4.8).
pub fn overrides_stand()
    ensures { (p : Program) (program : CoreProgram) → OverridesStand p program }
{}

/// Where the core program has no other classes above others, and no other methods, than headers and declarations say,
/// each method of a class without fault stands for all that it overrides by its erased signature.
pub fn methods_override_well()
    ensures { (p : Program) (program : CoreProgram) → MethodsOverrideWell p program }
{}

/// A method with a body that a class without fault inherits stands for each abstract one of its erased signature that
/// the class inherits beside it, unless that one overrides it (JLS 8.4.8).
pub fn implementations_stand()
    ensures { (p : Program) (program : CoreProgram) → ImplementationsStand p program }
{}

/// A method with a body, without fault, fits a bridge for each that it overrides (JLS 8.4.8, 15.12.4.5).
pub fn overrides_bridge()
    ensures { (p : Program) (program : CoreProgram) → OverridesBridge p program }
{}

/// Each abstract method that a class without fault inherits, where the class isn't abstract, is implemented by one that it
/// inherits too, and that fits a bridge for it (JLS 8.1.1.1, 8.4.8).
pub fn inherited_are_implemented()
    ensures { (p : Program) (program : CoreProgram) → InheritedAreImplemented p program }
{}
