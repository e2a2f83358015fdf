//! The load of a program that fits: the world that it begins in is sound.
//!
//! `specs/Beginnings.antt` has the statement.
#![tactic(auto)]

ghost use Rattle.load_sound.specs.Beginnings.{FirstWorldsAreSound};

/// Where a program fits, and each device has an interface of the library, the world before the load is sound.
pub fn first_worlds_are_sound()
    ensures { FirstWorldsAreSound }
{}
