// Where text goes.

ghost use Rattle.std.specs.Prelude.{◌≡◌, ◌≤◌, ℕ, List, OnOk, IfSome, IsErrOf};
ghost use Rattle.std.specs.declared.option.Option.{Option};
ghost use Rattle.planned_faults.specs.Counts.{Rose};
ghost use Rattle.planned_faults.specs.Plan.{Plan, after_one, IsPlanned, FailsNext};
ghost use Rattle.je_top.specs.Sink.{grown, GrewByFront};

use thiserror::Error;

/// Why a piece of text wasn't taken whole.
#[derive(Clone, Copy, Debug, PartialEq, Eq, Error)]
pub enum SinkFault {
    /// The piece, or the end of it, couldn't be written.
    #[error("the text could not be written")]
    Failed,
    /// Want of memory.
    #[error("out of memory")]
    Memory,
}

/// Takes text, piece by piece. A count of faults says when a put failed. It never falls.
pub trait Sink {
    /// The bytes that were taken so far, where that is told.
    ghost taken: { Self → Option (List ℕ) };

    /// The count of faults.
    ghost faults: { Self → ℕ };

    /// The puts that are to fail, where that is told.
    ghost plan: { Self → Option Plan };

    /// No put fails any more.
    ghost is_calm: { Self → Type 0 };

    /// Takes a piece of text: all of it, or after `Failed` a front of it, or after `Memory` nothing.
    fn put(&mut self, piece: &[u8]) -> Result<(), SinkFault>
        // What was taken.
        ensures ok { OnOk result (taken self.new ≡ grown (taken self.old) piece.now) }
        ensures front { IsErrOf result SinkFault.Failed →
            GrewByFront (taken self.old) (taken self.new) piece.now }
        ensures memory { IsErrOf result SinkFault.Memory → taken self.new ≡ taken self.old }

        // Which puts fail. A put that was to fail takes nothing.
        ensures plan { plan self.new ≡ after_one (plan self.old) }
        ensures planned { IsErrOf result SinkFault.Failed → IsPlanned (plan self.old) }
        ensures fails { IfSome (plan self.old) (λ p.
            FailsNext p → IsErrOf result SinkFault.Failed) }
        ensures nothing { IsErrOf result SinkFault.Failed →
            IfSome (plan self.old) (λ _. taken self.new ≡ taken self.old) }

        // When the count rises.
        ensures failed { IsErrOf result SinkFault.Failed →
            Rose (faults self.old) (faults self.new) }
        ensures ok_count { OnOk result (faults self.new ≡ faults self.old) }
        ensures memory_count { IsErrOf result SinkFault.Memory → faults self.new ≡ faults self.old }
        ensures never_falls { faults self.old ≤ faults self.new }
        ensures calm { is_calm self.old → is_calm self.new × (faults self.new ≡ faults self.old) };
}
