//! Which worlds are sound for a program: nothing in them stands where it may not, so that evaluation meets no value of
//! a wrong kind. Definitions, and the laws of them that need no evaluation.
//!
//! - `specs/Values.antt`: when a value fits a type.
//! - `specs/Objects.antt`: which objects there may be, and what their slots hold.
//! - `specs/Worlds.antt`: sound worlds.
//! - `specs/Calls.antt`: what a call from outside may be made on, and with what.
//! - `specs/Laws.antt`: what is known of a sound world, and which steps keep it so.
//!
//! Each step of evaluation that looks at the world has its law here: a new object, a slot, a class variable and a
//! builder's units written, a slot, a class variable and a constant string read.
#![tactic(auto)]

ghost use Rattle.je_sound.specs.Laws.{CallsAreDecided, CallsAreDispatched, CallsAreThere, DefaultsFit, FieldsAreInherited};
ghost use Rattle.je_sound.specs.Laws.{FieldsAreThere, FitsAbove, FitsOn};
ghost use Rattle.je_sound.specs.Laws.{FitsOverUnits, FitsOverWrites, FreshInstancesFit, NewObjectsKeep, SlotsHold};
ghost use Rattle.je_sound.specs.Laws.{StaticsAreTyped, StaticsHold, StaticWritesKeep, TextsAreThere, UnitsKeep};
ghost use Rattle.je_sound.specs.Laws.{WorldsAreDecided, WritesKeep};

use je_classes::subtypes_are_decided;

/// A world is sound exactly where the test of its objects, static fields and constant strings passes.
pub fn worlds_are_decided()
    ensures { WorldsAreDecided }
{}

/// A call fits exactly where the test of its class, method, receiver and arguments passes.
pub fn calls_are_decided()
    ensures { CallsAreDecided }
{}

/// A value that fits a type fits each type above it, and a variable begins with a value that fits it.
pub fn values_fit()
    ensures above { FitsAbove }
    ensures defaults { DefaultsFit }
{
    subtypes_are_decided();
}

/// A value fits on when objects are made, a slot is written, or the units of a builder change.
pub fn values_fit_on()
    ensures made { FitsOn }
    ensures written { FitsOverWrites }
    ensures units { FitsOverUnits }
{}

/// A new instance of a class of a program that fits is one that a sound world may have, and a sound world stays sound
/// with one more such object.
pub fn new_objects_are_sound()
    ensures fresh { FreshInstancesFit }
    ensures kept { NewObjectsKeep }
{}

/// In a sound world each slot holds what it is declared for, and the world stays sound where such a value is put there,
/// or where the units of a builder change.
pub fn slots_are_sound()
    ensures holds { SlotsHold }
    ensures kept { WritesKeep }
    ensures units { UnitsKeep }
{}

/// So does each class variable, whose place has the type that the field is declared with; and the place of a constant
/// string has a text.
pub fn statics_are_sound()
    ensures typed { StaticsAreTyped }
    ensures holds { StaticsHold }
    ensures kept { StaticWritesKeep }
    ensures texts { TextsAreThere }
{}

/// In a program that fits, an instance has a method for each instance method that stands in its class or above it, and
/// the instance fields of each class above its own, each in the slot that it has there.
pub fn members_are_inherited()
    ensures methods { CallsAreDispatched }
    ensures fields { FieldsAreInherited }
{}

/// So what fits a class has the instance fields of that class, where the program has the library's classes, and an
/// instance that fits a class has a method for each instance method of that class.
pub fn members_are_there()
    ensures fields { FieldsAreThere }
    ensures methods { CallsAreThere }
{}
