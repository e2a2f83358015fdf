//! The library's part of type soundness: a tame member of the library that can run gives what it is declared to give,
//! or throws, on a receiver and arguments that fit it; it never comes to `Wrong`. Definitions and laws alone.
//!
//! - `specs/Laws.antt`: which members are tame, when a program comes to no others, and the laws.
//!
//! Proofs go by the members: what arguments come to (`proofs/Arguments.antt`), what receivers hold (`Holders.antt`),
//! each member of a class (`Texts.antt`, `Builders.antt`, `Numbers.antt`, `RowObjects.antt`, `Throwables.antt`), then
//! the classes in the order of the table (`Classes.antt`, `Members.antt`), and what a program comes to
//! (`Reached.antt`).
#![tactic(auto)]

ghost use Rattle.library_sound.specs.Laws.{MakersAreSafe, MembersAreSafe, OthersAreTame, PlainIsAllowed, TameIsSafe};

use je_classes::subtypes_are_decided;

/// A tame method of the library, or a constructor that is handed its object, is safe.
pub fn members_are_safe()
    ensures { MembersAreSafe }
{
    subtypes_are_decided();
}

/// So is a tame constructor that makes its object itself: those of strings, builders and rows.
pub fn makers_are_safe()
    ensures { MakersAreSafe }
{
    subtypes_are_decided();
}

/// So the library is safe for a program that comes to tame members of it alone.
pub fn tame_is_safe()
    ensures { TameIsSafe }
{
    subtypes_are_decided();
}

/// Each expression in a body of a plain program names no wild member, and joins no text that a wild one gives.
pub fn plain_is_allowed()
    ensures { PlainIsAllowed }
{}

/// A member of the library that isn't wild, as plain programs are asked to name none, is tame.
pub fn others_are_tame()
    ensures { OthersAreTame }
{
    subtypes_are_decided();
}
