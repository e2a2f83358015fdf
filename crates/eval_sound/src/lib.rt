//! Evaluation of a program that fits meets no value of a wrong kind: from a sound world it never comes to `Wrong`.
//! Definitions and laws alone.
//!
//! - `specs/Safety.antt`: when a run is safe where a node stands, which ends fit.
//! - `specs/Nodes.antt`: what is true of each expression in a body.
//! - `specs/Premises.antt`: what evaluation rests on beside a program that fits, first of all the library's members.
//! - `specs/Laws.antt`: evaluation is safe.
//!
//! Proofs go by the form of evaluation: a lemma for each combinator (`proofs/Moves.antt`), each step (`Steps.antt`,
//! `Made.antt`, `Arrays.antt`, `Updates.antt`), each form of expression (`Expressions.antt`, `Changes.antt`,
//! `Forms.antt`) and of statement (`Statements.antt`), for methods (`Bodies.antt`), new instances (`News.antt`),
//! strings that are joined (`Joined.antt`), the start of classes (`Starts.antt`) and constructors
//! (`Constructors.antt`); then one induction on the depth of nodes (`Evaluation.antt`), and calls from outside
//! (`Calls.antt`).
#![tactic(auto)]

ghost use Rattle.eval_sound.specs.Laws.{CallsAreSafe, EndsAreNotWrong, EvaluationIsSafe, LoadsAreSafe};

use je_classes::subtypes_are_decided;

/// Where a program fits, what it needs of the library is there, and the premises on its nodes hold, evaluation is
/// safe: each expression, each statement, each body of a constructor and each further turn of a loop that fits goes
/// on with a value of its type in a sound world, takes a way out of its place, or ends as a run may end; it never
/// comes to `Wrong`.
pub fn evaluation_is_safe()
    ensures { EvaluationIsSafe }
{
    subtypes_are_decided();
}

/// So a call that fits, from a sound world, ends in a sound world whose objects have grown from that one's, with a
/// reply of its type, an exception, or without units. Such an end isn't `Wrong`.
pub fn calls_are_safe()
    ensures end { CallsAreSafe }
    ensures not_wrong { EndsAreNotWrong }
{
    subtypes_are_decided();
}

/// So does a load, with any number of units, over devices of the library's interfaces.
pub fn loads_are_safe()
    ensures { LoadsAreSafe }
{
    subtypes_are_decided();
}
