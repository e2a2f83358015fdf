//! What follows from no break of the rules on what a program uses (`specs/Laws.antt`).
#![tactic(auto)]

ghost use Rattle.use_laws.specs.Laws.{EmptyListIsUnbroken, UnbrokenBodiesArePlain, UnbrokenUsesArePlain};

/// A body without breaks has no `finally`, names no wild member of the library, and joins no text by one, where the taming text
/// enables none.
#[tactic(auto, using(crate::proofs::Plain::unbroken_is_plain))]
pub fn unbroken_bodies_are_plain()
    ensures { UnbrokenBodiesArePlain }
{}

/// A program without breaks has such bodies alone in its own classes, and none of these implements a method of an interface by a wild
/// member.
#[tactic(auto, using(crate::proofs::Programs::unbroken_uses))]
pub fn unbroken_uses_are_plain()
    ensures { UnbrokenUsesArePlain }
{}

/// A set of breaks whose list is empty has no break.
#[tactic(auto, using(crate::proofs::Programs::empty_is_unbroken))]
pub fn empty_list_is_unbroken()
    ensures { EmptyListIsUnbroken }
{}
