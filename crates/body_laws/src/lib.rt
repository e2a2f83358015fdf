//! What the elaboration of a body gives fits (`specs/Laws.antt`): `Fits` of `je_fitting`, for the statements that
//! `body_typing` gives, where the core program has what the classes declare, and the body has the locals that are
//! declared in it.
//!
//! The crate has no code: each function states laws of `body_typing`.
#![tactic(auto)]

ghost use Rattle.body_laws.specs.Laws.{BodiesFit, LocalsAreTyped};

/// The statements of a block fit (JLS 14.2).
pub fn bodies_fit()
    ensures { BodiesFit }
{}

/// The locals that the statements of a block declare have types of variables (JLS 4.3, 14.4, 14.14, 14.20).
pub fn locals_are_typed()
    ensures { LocalsAreTyped }
{}
