// The top call.

ghost use Rattle.std.specs.Prelude.{⊤, ◌≡◌, ◌≤◌, ◌↔◌, ◌⊎◌, IfSome, IfNone, Some, None};
ghost use Rattle.planned_faults.specs.Counts.{Rose, Grew};
ghost use Rattle.planned_faults.specs.Plan.{after_one, FailsNext, IsPlanned};
ghost use Rattle.je_top.specs.Calls.{Puts, PutsFront, UnlessCut, UnlessFailed, UnlessMemory};
ghost use Rattle.je_top.specs.Due.{asked, asked_file, AsksFor, CanRun, first_file, IsDue, LacksMain};
ghost use Rattle.je_top.specs.Outcome.{Outcome as SomeOutcome, outcome_view, status_of};
ghost use Rattle.je_top.specs.Plan.{AreReads, IsPlannedFor};
ghost use Rattle.je_top.specs.Reading.{IsFailed};
ghost use Rattle.je_top.specs.Sink.{grown, GrewByFront};
ghost use Rattle.je_top.specs.Texts.{text_of as the_text_of};

use crate::deciding::outcome_of;
use crate::files::Files;
use crate::outcome::Outcome;
use crate::reading::Stop;
use crate::sink::{Sink, SinkFault};
use crate::status::Status;
use crate::texts::text_of;
use std::alloc::Global;

/// Does what the words of a command line say, and puts its text to `out`.
///
/// `check TAMING FILE...` judges the program in 1 to 16 files under a taming text: it is accepted, or what is found in
/// it is reported. `run FILE` judges the file under a taming text that enables nothing; where it is accepted, its classes
/// are initialized, without devices, and then `static int main()` of its first class is called with 1,000,000 units. The
/// words are judged first, then the taming text is read and judged, then the files are read, then they are judged and
/// run. The first refusal ends the call. A fault of `files` or `out` comes only where its count of faults rose, and want
/// of memory may come in place of any answer.
///
/// The statuses are `Ok`, `Refused`, `Usage`, `ReadFault`, `WriteFault`, `Memory`, `TamingRefused`, `InitFailed`,
/// `NotThere`, `TooLong` and `NotBuilt`.
pub fn joee<F: Files, O: Sink>(
    alloc: Global,
    words: &[String],
    files: &mut F,
    out: &mut O,
) -> Status
    // What was put: the text of what is due, which has this status.
    ensures text { UnlessCut result (Puts (F.held files.old)
        (Rose (F.faults files.old) (F.faults files.new)) (F.last files.new)
        (asked words.now) result (O.taken out.old) (O.taken out.new)) }
    ensures front { result ≡ Status.WriteFault
        → PutsFront (F.held files.old)
        (Rose (F.faults files.old) (F.faults files.new)) (F.last files.new)
        (asked words.now) (O.taken out.old) (O.taken out.new) }
    ensures memory { result ≡ Status.Memory → O.taken out.new ≡ O.taken out.old }

    // Where each status and each text comes: over files that tell, exactly where it is that of what is due.
    ensures usage { UnlessCut result ((result ≡ Status.Usage) ↔ (asked words.now ≡ None)) }
    ensures due { UnlessFailed result (IfSome (F.held files.old) (λ told.
        (o : SomeOutcome) → IsDue (Some told) (asked words.now) o → ¬ IsFailed o
        → result ≡ status_of o)) }
    ensures told { UnlessFailed result (IfSome (F.held files.old) (λ told.
        (o : SomeOutcome) → IsDue (Some told) (asked words.now) o → ¬ IsFailed o
        → O.taken out.new ≡ grown (O.taken out.old) (the_text_of o))) }
    ensures runs { UnlessFailed result (IfSome (F.held files.old) (λ told.
        AsksFor (asked_file words.now) told CanRun → result ≡ Status.Ok)) }
    ensures not_built { UnlessFailed result (IfSome (F.held files.old) (λ told.
        AsksFor (asked_file words.now) told LacksMain → result ≡ Status.NotBuilt)) }

    // Faults come only where a count rose, and where one grew nothing else comes.
    ensures read_fault { result ≡ Status.ReadFault
        → Rose (F.faults files.old) (F.faults files.new) }
    ensures last { result ≡ Status.ReadFault
        → IfSome (asked_file words.now) (λ name. name ≡ F.last files.new) }
    ensures read_grew { IfSome (F.held files.old) (λ _.
        Grew (F.faults files.old) (F.faults files.new)
        → UnlessCut result (result ≡ Status.ReadFault)) }
    ensures not_there_untold { result ≡ Status.NotThere
        → IfNone (F.held files.old) (Rose (F.faults files.old) (F.faults files.new)) }
    ensures too_long_untold { result ≡ Status.TooLong
        → IfNone (F.held files.old) (Rose (F.faults files.old) (F.faults files.new)) }
    ensures write_fault { result ≡ Status.WriteFault → Rose (O.faults out.old) (O.faults out.new) }
    ensures write_grew { Grew (O.faults out.old) (O.faults out.new) → result ≡ Status.WriteFault }

    // How often is read and put, and which reads and puts fail.
    ensures reads { AreReads (asked words.now) (F.plan files.old) (F.plan files.new) }
    ensures one_put { UnlessMemory result (O.plan out.new ≡ after_one (O.plan out.old)) }
    ensures planned_read { result ≡ Status.ReadFault
        → IsPlannedFor (asked words.now) (F.plan files.old) }
    ensures planned_put { result ≡ Status.WriteFault → IsPlanned (O.plan out.old) }
    ensures read_fails { IfSome (F.plan files.old) (λ p. IfSome (F.held files.old) (λ told.
        FailsNext p → AsksFor (first_file (asked words.now)) told (λ _. ⊤)
        → UnlessCut result (result ≡ Status.ReadFault))) }
    ensures put_fails { IfSome (O.plan out.old) (λ p. FailsNext p
        → UnlessMemory result (result ≡ Status.WriteFault)) }

    // What is due comes, where no count of faults rose.
    ensures completes { IfSome (F.held files.old) (λ told.
        (o : SomeOutcome) → IsDue (Some told) (asked words.now) o → ¬ IsFailed o
        → ¬ Rose (F.faults files.old) (F.faults files.new)
        → ¬ Rose (O.faults out.old) (O.faults out.new)
        → (result ≡ status_of o) ⊎ (result ≡ Status.Memory)) }
    ensures completes_run { IfSome (F.held files.old) (λ told.
        AsksFor (asked_file words.now) told CanRun
        → ¬ Rose (F.faults files.old) (F.faults files.new)
        → ¬ Rose (O.faults out.old) (O.faults out.new)
        → (result ≡ Status.Ok) ⊎ (result ≡ Status.Memory)) }

    // What stays.
    ensures held { F.held files.new ≡ F.held files.old }
    ensures reads_never_fall { F.faults files.old ≤ F.faults files.new }
    ensures puts_never_fall { O.faults out.old ≤ O.faults out.new }
    ensures calm_files { F.is_calm files.old
        → F.is_calm files.new × (F.faults files.new ≡ F.faults files.old) }
    ensures calm_out { O.is_calm out.old
        → O.is_calm out.new × (O.faults out.new ≡ O.faults out.old) }
{
    match outcome_of(alloc, words, files) {
        Ok(outcome) => put(alloc, &outcome, out),
        Err(Stop::Ends(outcome)) => put(alloc, &outcome, out),
        Err(Stop::Memory) => Status::Memory,
    }
}

/// Puts the text that tells of an outcome.
fn put<O: Sink>(alloc: Global, outcome: &Outcome, out: &mut O) -> Status
    ensures status { UnlessCut result (result ≡ status_of (outcome_view outcome.now)) }
    ensures text { UnlessCut result (O.taken out.new ≡
        grown (O.taken out.old) (the_text_of (outcome_view outcome.now))) }
    ensures front { result ≡ Status.WriteFault → GrewByFront (O.taken out.old) (O.taken out.new)
        (the_text_of (outcome_view outcome.now)) }
    ensures memory { result ≡ Status.Memory → O.taken out.new ≡ O.taken out.old }
    ensures write_fault { result ≡ Status.WriteFault → Rose (O.faults out.old) (O.faults out.new) }
    ensures write_grew { Grew (O.faults out.old) (O.faults out.new) → result ≡ Status.WriteFault }
    ensures one_put { UnlessMemory result (O.plan out.new ≡ after_one (O.plan out.old)) }
    ensures planned_put { result ≡ Status.WriteFault → IsPlanned (O.plan out.old) }
    ensures put_fails { IfSome (O.plan out.old) (λ p. FailsNext p
        → UnlessMemory result (result ≡ Status.WriteFault)) }
    ensures never_falls { O.faults out.old ≤ O.faults out.new }
    ensures calm { O.is_calm out.old → O.is_calm out.new × (O.faults out.new ≡ O.faults out.old) }
{
    let Ok(text) = text_of(alloc, outcome) else {
        return Status::Memory;
    };
    match out.put(&text) {
        Ok(()) => outcome.status(),
        Err(SinkFault::Failed) => Status::WriteFault,
        Err(SinkFault::Memory) => Status::Memory,
    }
}
