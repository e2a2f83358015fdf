// What a call comes to.

ghost use Rattle.std.specs.Prelude.{◌≡◌, ◌≤◌, ◌+◌, ℕ, ⊤, All, IfErr, IfOk, IfSome, Ok, length, map, string_bytes};
ghost use Rattle.planned_faults.specs.Counts.{Rose, Grew};
ghost use Rattle.planned_faults.specs.Plan.{after_one, FailsNext, IsPlanned};
ghost use Rattle.source_units.specs.Files.{bytes_of};
ghost use Rattle.taming_db.specs.Taming.{Says};
ghost use Rattle.taming_db.specs.View.{rows};
ghost use Rattle.je_top.specs.Due.{asked, AsksFor, first_file, first_of as the_first_of, HasTamingFault, IsDue};
ghost use Rattle.je_top.specs.Due.{IsDueForCheck, IsDueForRun, IsJudged};
ghost use Rattle.je_top.specs.Files.{file_limit};
ghost use Rattle.je_top.specs.Outcome.{outcome_view};
ghost use Rattle.je_top.specs.Plan.{after_many, AreReads, FailsAmong, IsPlannedFor};
ghost use Rattle.je_top.specs.Reading.{IsCaused, IsFailed};
ghost use Rattle.je_top.specs.Stop.{ComesTo, Ends, EndsEarly};
ghost use Rattle.je_top.specs.Words.{source_limit};

use crate::files::Files;
use crate::judging::judge;
use crate::outcome::Outcome;
use crate::reading::{Stop, read_sources, read_whole};
use crate::refusal::Refusal;
use crate::running::ran;
use crate::words::{Command, command_of};
use je_base::Memory;
use std::alloc::Global;
use taming_db::{Taming, TamingFault};

/// What the words of a command line come to.
pub fn outcome_of<'a, F: Files>(
    alloc: Global,
    words: &'a [String],
    files: &mut F,
) -> Result<Outcome<'a>, Stop<'a>>
    ensures due { ComesTo (IsDue (F.held files.old) (asked words.now)) result }
    ensures caused { ComesTo (IsCaused (F.held files.old)
        (Rose (F.faults files.old) (F.faults files.new)) (F.last files.new)) result }
    ensures reads { AreReads (asked words.now) (F.plan files.old) (F.plan files.new) }
    ensures planned { ComesTo (λ o. IsFailed o
        → IsPlannedFor (asked words.now) (F.plan files.old)) result }
    ensures fails { IfSome (F.plan files.old) (λ p. IfSome (F.held files.old) (λ told.
        FailsNext p → AsksFor (first_file (asked words.now)) told (λ _. ⊤)
        → ComesTo IsFailed result)) }
    ensures grew { ComesTo (λ o. IfSome (F.held files.old) (λ _.
        Grew (F.faults files.old) (F.faults files.new) → IsFailed o)) result }
    ensures held { F.held files.new ≡ F.held files.old }
    ensures never_falls { F.faults files.old ≤ F.faults files.new }
    ensures calm { F.is_calm files.old
        → F.is_calm files.new × (F.faults files.new ≡ F.faults files.old) }
{
    match command_of(words) {
        None => Ok(Outcome::Usage),
        Some(Command::Run { file }) => run(alloc, file, files),
        Some(Command::Check { taming, sources }) => check(alloc, taming, sources, files),
    }
}

/// What `run FILE` comes to.
fn run<'a, F: Files>(
    alloc: Global,
    file: &'a String,
    files: &mut F,
) -> Result<Outcome<'a>, Stop<'a>>
    ensures due { ComesTo (IsDueForRun (F.held files.old) (string_bytes file.now)) result }
    ensures caused { ComesTo (IsCaused (F.held files.old)
        (Rose (F.faults files.old) (F.faults files.new)) (F.last files.new)) result }
    ensures one_read { F.plan files.new ≡ after_one (F.plan files.old) }
    ensures planned { ComesTo (λ o. IsFailed o → IsPlanned (F.plan files.old)) result }
    ensures fails { IfSome (F.plan files.old) (λ p. FailsNext p
        → IfSome (F.held files.old) (λ told. IfSome (told (string_bytes file.now)) (λ _.
        ComesTo IsFailed result))) }
    ensures grew { ComesTo (λ o. IfSome (F.held files.old) (λ _.
        Grew (F.faults files.old) (F.faults files.new) → IsFailed o)) result }
    ensures held { F.held files.new ≡ F.held files.old }
    ensures never_falls { F.faults files.old ≤ F.faults files.new }
    ensures calm { F.is_calm files.old
        → F.is_calm files.new × (F.faults files.new ≡ F.faults files.old) }
{
    let bytes = read_whole(alloc, file, files)?;
    Ok(ran(alloc, file, bytes)?)
}

/// What `check TAMING FILE...` comes to.
#[tactic(auto, using(crate::proofs::CheckLemmas::dues, crate::proofs::ReadingLemmas::fails_behind))]
fn check<'a, F: Files>(
    alloc: Global,
    taming: &'a str,
    sources: &'a [String],
    files: &mut F,
) -> Result<Outcome<'a>, Stop<'a>>
    requires { length sources.now ≤ source_limit }
    ensures due { ComesTo (IsDueForCheck (F.held files.old) taming.now
        (map string_bytes sources.now)) result }
    ensures caused { ComesTo (IsCaused (F.held files.old)
        (Rose (F.faults files.old) (F.faults files.new)) (F.last files.new)) result }
    ensures reads { (n : ℕ) × (n ≤ length sources.now)
        × (F.plan files.new ≡ after_many n (after_one (F.plan files.old))) }
    ensures planned { ComesTo (λ o. IsFailed o
        → FailsAmong (length sources.now + 1) (F.plan files.old)) result }
    ensures fails { IfSome (F.plan files.old) (λ p. FailsNext p
        → IfSome (F.held files.old) (λ told. IfSome (told taming.now) (λ _.
        ComesTo IsFailed result))) }
    ensures grew { ComesTo (λ o. IfSome (F.held files.old) (λ _.
        Grew (F.faults files.old) (F.faults files.new) → IsFailed o)) result }
    ensures held { F.held files.new ≡ F.held files.old }
    ensures never_falls { F.faults files.old ≤ F.faults files.new }
    ensures calm { F.is_calm files.old
        → F.is_calm files.new × (F.faults files.new ≡ F.faults files.old) }
{
    let text = read_whole(alloc, taming, files)?;
    let taming = taming_of(alloc, &text)?;
    let read = read_sources(alloc, sources, files)?;
    Ok(judged(alloc, taming, sources, &read)?)
}

/// What a taming text says, where it has no fault.
fn taming_of<'a>(alloc: Global, text: &[u8]) -> Result<Taming, Stop<'a>>
    ensures says { IfOk result (λ taming. Says text.now (Ok (rows taming))) }
    ensures fault { IfErr result (Ends (HasTamingFault text.now)) }
{
    match Taming::read(alloc, text) {
        Ok(taming) => Ok(taming),
        Err(TamingFault::Memory) => Err(Stop::Memory),
        Err(TamingFault::Refused { table, rule }) => {
            Err(Stop::Ends(Outcome::TamingRefused { table, rule }))
        }
    }
}

/// What the program in these files comes to under a taming text. `sources` are their names.
fn judged<'a>(
    alloc: Global,
    taming: Taming,
    sources: &'a [String],
    files: &[Vec<u8>],
) -> Result<Outcome<'a>, Memory>
    requires count { length files.now ≤ source_limit }
    requires small { All (λ file. length file.items ≤ file_limit) files.now }
    ensures { IfOk result (λ o. IsJudged (map string_bytes sources.now) (bytes_of files.now)
        (rows taming) (outcome_view o)) }
{
    match judge(alloc, files, taming) {
        Ok(_) => Ok(Outcome::Accepted),
        Err(Refusal::Memory) => Err(Memory),
        Err(Refusal::Found(found)) => Ok(Outcome::Refused { sources, found }),
        Err(Refusal::Misfit(_, _)) => Ok(Outcome::NotBuilt {
            name: first_of(sources),
        }),
    }
}

/// The first of some names.
fn first_of(names: &[String]) -> &str
    ensures { result.now ≡ the_first_of (map string_bytes names.now) }
{
    match names {
        [first, ..] => first.as_str(),
        [] => "",
    }
}
