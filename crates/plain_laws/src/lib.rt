//! What follows from no break of the rules of Joe-E: a program is plain (`specs/Laws.antt`).
#![tactic(auto)]

ghost use Rattle.plain_laws.specs.Laws.{StringsAreNotWild, TameIsNotWild, UnbrokenIsPlain};

/// Where each member that a taming text enables is tame, guests may use no wild one.
#[tactic(auto, using(crate::proofs::Tamed::tame_is_not_wild))]
pub fn tame_is_not_wild()
    ensures { TameIsNotWild }
{}

/// Where the library stands, the `toString()` that is found in String isn't wild.
#[tactic(auto, using(crate::proofs::Texts::strings_are_not_wild))]
pub fn strings_are_not_wild()
    ensures { StringsAreNotWild }
{}

/// A program that fits and breaks no rule is plain.
#[tactic(auto, using(crate::proofs::Programs::unbroken_is_plain))]
pub fn unbroken_is_plain()
    ensures { UnbrokenIsPlain }
{}
