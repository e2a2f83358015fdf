//! What the elaboration of the members of a class gives fits (`specs/Laws.antt`): `Fits` of `je_fitting`, for the code
//! that `class_typing` gives, where the core program has what the classes declare.
//!
//! The crate has no code: each function states laws of `class_typing`.
#![tactic(auto)]

ghost use Rattle.class_fitting_laws.specs.Laws.{ClassMembersFit, MembersFit};

/// The code of the members that a class writes fits (JLS 8.2).
pub fn members_fit()
    ensures { MembersFit }
{}

/// So does that of all its members, with a default constructor, and what no source writes of an enum and of a class
/// with a body behind `new` (JLS 8.8.9, 8.9, 15.9.5.1).
pub fn class_members_fit()
    ensures { ClassMembersFit }
{}
