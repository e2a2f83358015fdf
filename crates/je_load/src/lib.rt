//! The load of a program: definitions, worked rows, and what a load leaves.
//!
//! - `specs/Loading.antt`: the world that a load begins in, the start of each class, and how a load ends.
//!
//! `proofs/Rows.antt` shows a cycle of classes, a superclass before its class, an exception out of an initializer that
//! passes a `try` round it, and in which class units are spent. The crate has no code: the machine
//! of `je_interp` runs a load.
#![tactic(auto)]

ghost use Rattle.std.specs.Prelude.{◌≡◌, ℕ, List, Option};
ghost use Rattle.je_core.specs.Core.{CoreProgram};
ghost use Rattle.je_core.specs.declared.types.ClassId.{ClassId};
ghost use Rattle.je_core.specs.declared.value.Value.{Value};
ghost use Rattle.je_java.specs.Steps.{State, AllStarted, Done};
ghost use Rattle.je_load.specs.Loading.{load_within};

/// A load that comes to its end leaves all classes started, as it is asked of what stands outside a call.
#[tactic(auto, using(crate::proofs::Growing::done_all_started))]
pub fn a_load_starts_all_classes()
    ensures { (program : CoreProgram) (interfaces : List ClassId) (units : ℕ)
        (reply : Option Value) (state : State) →
        load_within units program interfaces ≡ Done reply state → AllStarted state.outside }
{}
