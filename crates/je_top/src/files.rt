// Files by name.

ghost use Rattle.std.specs.Prelude.{◌≡◌, ◌≤◌, ℕ, List, ⊤, OnOk, IfSome, MatchOption, IsErrOf};
ghost use Rattle.std.specs.declared.option.Option.{Option};
ghost use Rattle.planned_faults.specs.Counts.{Rose};
ghost use Rattle.planned_faults.specs.Plan.{Plan, after_one, IsPlanned, FailsNext};
ghost use Rattle.je_top.specs.Plan.{FailsIfHeld};
ghost use Rattle.je_top.specs.Files.{Held, IsWhole, IsFront, IsMissing, SaysMissing, KeepsCount, LeavesNothing, last_after};

use thiserror::Error;

/// Why a file wasn't read whole.
#[derive(Clone, Copy, Debug, PartialEq, Eq, Error)]
pub enum FileFault {
    /// No file of that name is there.
    #[error("no such file")]
    NotThere,
    /// The file has more than `FILE_LIMIT` bytes.
    #[error("the file is too long")]
    TooLong,
    /// The file is there, and reading it failed.
    #[error("the file could not be read")]
    Failed,
    /// Want of memory.
    #[error("out of memory")]
    Memory,
}

/// Files that can be read by name.
///
/// A count of faults says when a read failed. It never falls. Files tell what they hold, or they don't; where they
/// don't, the count also rises with each answer that can't be told from a fault.
pub trait Files {
    /// The bytes of each name that has a file, where that is told.
    ghost held: { Self → Option Held };

    /// The count of faults.
    ghost faults: { Self → ℕ };

    /// The name of the last read that answered `Failed`, empty before the first.
    ghost last: { Self → List ℕ };

    /// The reads that are to fail, where that is told.
    ghost plan: { Self → Option Plan };

    /// No read fails any more.
    ghost is_calm: { Self → Type 0 };

    /// Reads the whole file of a name, in place of what `into` held. After `TooLong`, `into` has the file's first
    /// `FILE_LIMIT + 1` bytes; after any other refusal it is empty.
    fn read(&mut self, name: &str, into: &mut Vec<u8>) -> Result<(), FileFault>
        ensures held { held self.new ≡ held self.old }

        // What each answer says of the file.
        ensures ok { OnOk result (IsWhole (held self.old) name.now into.new.items) }
        ensures not_there { IsErrOf result FileFault.NotThere →
            IsMissing (held self.old) name.now (Rose (faults self.old) (faults self.new)) }
        ensures missing { IfSome (held self.old) (λ files.
            files name.now ≡ None → SaysMissing result) }
        ensures too_long { IsErrOf result FileFault.TooLong →
            IsFront (held self.old) name.now into.new.items }
        ensures nothing { LeavesNothing result into.new.items }

        // Which reads fail. A name that isn't held is missing all the same.
        ensures plan { plan self.new ≡ after_one (plan self.old) }
        ensures planned { IsErrOf result FileFault.Failed → IsPlanned (plan self.old) }
        ensures fails { IfSome (plan self.old) (λ p.
            FailsNext p → FailsIfHeld (held self.old) name.now result) }

        // When the count rises.
        ensures failed { IsErrOf result FileFault.Failed →
            Rose (faults self.old) (faults self.new) }
        ensures untold { IsErrOf result FileFault.TooLong →
            MatchOption (held self.old) (Rose (faults self.old) (faults self.new)) (λ _. ⊤) }
        ensures keeps_count { KeepsCount (held self.old) result
            (faults self.new ≡ faults self.old) }
        ensures never_falls { faults self.old ≤ faults self.new }
        ensures last { last self.new ≡ last_after result name.now (last self.old) }
        ensures calm { is_calm self.old → is_calm self.new × (faults self.new ≡ faults self.old) };
}
