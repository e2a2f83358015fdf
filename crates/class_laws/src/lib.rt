//! Laws on the classes of a core program: where no class is above itself, subclasses and subtypes are partial orders, and what a name
//! finds goes by the set of what a class has under it; and which method an object has for a method, as a relation.
//!
//! The crate has no code: each function states laws of `je_classes`, whose tests decide these orders and look-ups.
#![tactic(auto)]

ghost use Rattle.std.specs.Prelude.{◌≡◌, []};
ghost use Rattle.je_classes.specs.Hierarchy.{IsAcyclic, object_class, supers_of};
ghost use Rattle.class_laws.specs.Answers.{FieldsGoBySets, MethodsGoBySets};
ghost use Rattle.class_laws.specs.Examples.{chain};
ghost use Rattle.class_laws.specs.Implementing.{DispatchIsDecided};
ghost use Rattle.class_laws.specs.Orders.{BelowIsAntisymmetric, BelowIsReflexive, BelowIsTransitive, SubtypeIsAntisymmetric, SubtypeIsReflexive, SubtypeIsTransitive};

use je_classes::{fields_are_found, methods_are_found, subtypes_are_decided};

/// To be below a class is a partial order, where no class is above itself.
#[tactic(auto, using(crate::proofs::ClassOrder::reflexive, crate::proofs::ClassOrder::transitive, crate::proofs::ClassOrder::antisymmetric))]
pub fn subclasses_are_ordered()
    ensures reflexive { BelowIsReflexive }
    ensures transitive { BelowIsTransitive }
    ensures antisymmetric { BelowIsAntisymmetric }
{}

/// Among references to be a subtype is a partial order, where no class is above itself and none above Object.
#[tactic(auto, using(crate::proofs::TypeOrder::reflexive, crate::proofs::TypeOrder::transitive, crate::proofs::TypeOrder::antisymmetric))]
pub fn subtypes_are_ordered()
    ensures reflexive { SubtypeIsReflexive }
    ensures transitive { SubtypeIsTransitive }
    ensures antisymmetric { SubtypeIsAntisymmetric }
{
    subtypes_are_decided();
}

/// What a name finds in a class, and what a name and arguments choose there, go by the sets of the class's fields under that name,
/// and of its methods under it that accept the arguments.
#[tactic(auto, using(crate::proofs::FieldAnswers::fields_go_by_sets, crate::proofs::MethodAnswers::methods_go_by_sets))]
pub fn answers_go_by_sets()
    ensures fields { FieldsGoBySets }
    ensures methods { MethodsGoBySets }
{
    fields_are_found();
    methods_are_found();
}

/// The method that dispatch gives is the one that an object has for a method, in every program.
#[tactic(auto, using(crate::proofs::Dispatching::dispatch_decided))]
pub fn dispatch_is_decided()
    ensures { DispatchIsDecided }
{}

/// What these laws ask of a program holds of one of Object and two classes below it.
#[tactic(auto, using(crate::proofs::Chain::chain_is_acyclic, crate::proofs::Chain::object_is_first))]
pub fn a_chain_is_acyclic()
    ensures acyclic { IsAcyclic chain }
    ensures object { supers_of chain object_class ≡ [] }
{}
