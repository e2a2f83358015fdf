// Reading the files that a command names.

ghost use Rattle.std.specs.Prelude.{◌≡◌, ◌≤◌, ◌<◌, ℕ, All, IfErr, IfOk, IfSome, OnOk, length, map, string_bytes};
ghost use Rattle.std.specs.List.{AllZip};
ghost use Rattle.planned_faults.specs.Counts.{Rose, Grew};
ghost use Rattle.planned_faults.specs.Plan.{after_one, FailsNext, IsPlanned};
ghost use Rattle.je_top.specs.Files.{file_limit, IsWhole};
ghost use Rattle.je_top.specs.Plan.{after_many, FailsAmong};
ghost use Rattle.je_top.specs.Reading.{IsCaused, IsFailed, Stops, StopsAmong};
ghost use Rattle.je_top.specs.Stop.{Ends, EndsEarly};

use crate::files::{FileFault, Files};
use crate::outcome::Outcome;
use je_base::Memory;
use std::alloc::{AllocFailed, Global};

/// Why a command ends before its last step.
#[derive(Drop)]
pub enum Stop<'a> {
    /// Want of memory.
    Memory,
    /// This is what it comes to.
    Ends(Outcome<'a>),
}

impl<'a> From<Memory> for Stop<'a> {
    ghost use Rattle.je_top.specs.declared.reading.Stop.TheVariants.{Memory as memory};

    ghost from_gives = { λ _ e. e ≡ memory };

    fn from(_: Memory) -> Self {
        Stop::Memory
    }
}

impl<'a, T: Drop> From<AllocFailed<T>> for Stop<'a> {
    ghost use Rattle.je_top.specs.declared.reading.Stop.TheVariants.{Memory as memory};

    ghost from_gives = { λ _ e. e ≡ memory };

    fn from(_: AllocFailed<T>) -> Self {
        Stop::Memory
    }
}

/// The bytes of a file, where it is read whole.
pub fn read_whole<'a, F: Files>(
    alloc: Global,
    name: &'a str,
    files: &mut F,
) -> Result<Vec<u8>, Stop<'a>>
    ensures whole { IfOk result (λ bytes. IsWhole (F.held files.old) name.now bytes.items) }
    ensures stops { IfErr result (Ends (Stops (F.held files.old) name.now)) }
    ensures caused { IfErr result (Ends (IsCaused (F.held files.old)
        (Rose (F.faults files.old) (F.faults files.new)) (F.last files.new))) }
    ensures one_read { F.plan files.new ≡ after_one (F.plan files.old) }
    ensures planned { IfErr result (Ends (λ o. IsFailed o → IsPlanned (F.plan files.old))) }
    ensures fails { IfSome (F.plan files.old) (λ p. FailsNext p
        → IfSome (F.held files.old) (λ told. IfSome (told name.now) (λ _.
        EndsEarly IsFailed result))) }
    ensures same { OnOk result (F.faults files.new ≡ F.faults files.old) }
    ensures grew { IfErr result (Ends (λ o. IfSome (F.held files.old) (λ _.
        Grew (F.faults files.old) (F.faults files.new) → IsFailed o))) }
    ensures held { F.held files.new ≡ F.held files.old }
    ensures never_falls { F.faults files.old ≤ F.faults files.new }
    ensures calm { F.is_calm files.old
        → F.is_calm files.new × (F.faults files.new ≡ F.faults files.old) }
{
    let mut bytes = Vec::new(alloc);
    match files.read(name, &mut bytes) {
        Ok(()) => Ok(bytes),
        Err(FileFault::NotThere) => Err(Stop::Ends(Outcome::Missing { name })),
        Err(FileFault::TooLong) => Err(Stop::Ends(Outcome::TooLong { name })),
        Err(FileFault::Failed) => Err(Stop::Ends(Outcome::Failed { name })),
        Err(FileFault::Memory) => Err(Stop::Memory),
    }
}

#[tactic(auto, using(crate::proofs::ReadingLemmas::stops_at))]
/// The bytes of files in their order, where each is read whole. The first that isn't ends the reading.
pub fn read_sources<'a, F: Files>(
    alloc: Global,
    names: &'a [String],
    files: &mut F,
) -> Result<Vec<Vec<u8>>, Stop<'a>>
    ensures whole { IfOk result (λ sources. AllZip (IsWhole (F.held files.old))
        (map string_bytes names.now) (map (λ file. file.items) sources.items)) }
    ensures count { IfOk result (λ sources. length sources.items ≡ length names.now) }
    ensures small { IfOk result (λ sources.
        All (λ file. length file.items ≤ file_limit) sources.items) }
    ensures stops { IfErr result (Ends (StopsAmong (F.held files.old)
        (map string_bytes names.now))) }
    ensures caused { IfErr result (Ends (IsCaused (F.held files.old)
        (Rose (F.faults files.old) (F.faults files.new)) (F.last files.new))) }
    ensures reads { (n : ℕ) × (n ≤ length names.now)
        × (F.plan files.new ≡ after_many n (F.plan files.old)) }
    ensures planned { IfErr result (Ends (λ o. IsFailed o →
        FailsAmong (length names.now) (F.plan files.old))) }
    ensures same { OnOk result (F.faults files.new ≡ F.faults files.old) }
    ensures grew { IfErr result (Ends (λ o. IfSome (F.held files.old) (λ _.
        Grew (F.faults files.old) (F.faults files.new) → IsFailed o))) }
    ensures held { F.held files.new ≡ F.held files.old }
    ensures never_falls { F.faults files.old ≤ F.faults files.new }
    ensures calm { F.is_calm files.old
        → F.is_calm files.new × (F.faults files.new ≡ F.faults files.old) }
{
    let mut sources = Vec::new(alloc);
    for name in names {
        sources.push(read_whole(alloc, name, files)?)?;
    }
    Ok(sources)
}
