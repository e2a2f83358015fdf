// Files in memory, judged.

ghost use Rattle.std.specs.Prelude.{◌≡◌, ◌≤◌, ◌^◌, ℕ, List, All, IfErr, IfOk, length, map};
ghost use Rattle.je_core.specs.Core.{CoreProgram};
ghost use Rattle.je_fitting.specs.Program.{FitsProgram};
ghost use Rattle.je_types.specs.Views.{program_of};
ghost use Rattle.je_verify.specs.Broken.{IsRefused as BreaksRules};
ghost use Rattle.je_verify.specs.Views.{taming_of, typed_of};
ghost use Rattle.je_top.specs.Judgement.{IsAccepted, IsRefused, of_break};
ghost use Rattle.source_programs.specs.Findings.{ComesTo, IsFrontFault};
ghost use Rattle.source_units.specs.Files.{bytes_of};
ghost use Rattle.taming_db.specs.Rows.{Row};
ghost use Rattle.taming_db.specs.View.{rows as rows_of};

use crate::refusal::Refusal;
use host_text::{Finding, Rule};
use je_base::{Memory, Names};
use je_verify::{Accepted, VerifyFault, verify};
use rule_breaks::Break;
use source_programs::{FrontFault, front};
use std::alloc::Global;
use taming_db::Taming;

/// The program of 1 to 16 files of at most 1 MiB each, with the names by their numbers, where it is accepted under the
/// taming text.
///
/// # Errors
///
/// `Found` exactly where a phase before the rules has a finding, with the first one, or where rules are broken, with
/// all breaks, in order and each once; `Misfit` exactly where no phase before the rules has one and the core program
/// doesn't fit; and `Memory` for want of memory.
#[tactic(auto, using(crate::proofs::Judged::judgements))]
pub fn judge(alloc: Global, files: &[Vec<u8>], taming: Taming) -> Result<(Accepted, Names), Refusal>
    requires count { length files.now ≤ 16 }
    requires small { All (λ file. length file.items ≤ 2 ^ 20) files.now }
    ensures ok { IfOk result (λ r.
        IsAccepted (bytes_of files.now) r.1 (program_of (typed_of r.0)) (rows_of taming)) }
    ensures text { IfOk result (λ r. taming_of r.0 ≡ taming) }
    ensures err { IfErr result (IsRefused (bytes_of files.now) (rows_of taming)) }
{
    match front(alloc, files) {
        Err(fault) => Err(before_rules(alloc, fault)),
        Ok((typed, names)) => match verify(alloc, typed, taming) {
            Ok(accepted) => Ok((accepted, names)),
            Err((fault, _, _)) => Err(of_rules(alloc, fault)),
        },
    }
}

// A fault of the phases before the rules as a refusal.
#[tactic(auto, using(crate::proofs::Judged::judgements))]
fn before_rules(alloc: Global, fault: FrontFault) -> Refusal
    ensures { (files : List (List ℕ)) (rows : List Row) → IsFrontFault files fault →
        IsRefused files rows result }
{
    match fault {
        FrontFault::Memory => Refusal::Memory,
        FrontFault::Misfit(class, name) => Refusal::Misfit(class, name),
        FrontFault::Found(finding) => match Vec::from_slice(alloc, &[finding]) {
            Ok(found) => Refusal::Found(found),
            Err(_) => Refusal::Memory,
        },
    }
}

// Broken rules as a refusal.
#[tactic(auto, using(crate::proofs::Judged::judgements))]
fn of_rules(alloc: Global, fault: VerifyFault) -> Refusal
    ensures { (files names : List (List ℕ)) (program : CoreProgram) (rows : List Row) →
        ComesTo files names program → FitsProgram program → BreaksRules program rows fault →
        IsRefused files rows result }
{
    match fault {
        VerifyFault::Memory => Refusal::Memory,
        VerifyFault::Refused(breaks) => match findings(alloc, &breaks) {
            Ok(found) => Refusal::Found(found),
            Err(Memory) => Refusal::Memory,
        },
    }
}

// Breaks as findings, in their order.
fn findings(alloc: Global, breaks: &[Break]) -> Result<Vec<Finding>, Memory>
    ensures { IfOk result (λ found. found.items ≡ map of_break breaks.now) }
{
    Ok(breaks.iter().map(|b| finding(*b)).collect(alloc)?)
}

// A break of a rule as a finding.
fn finding(found: Break) -> Finding
    ensures { result ≡ of_break found }
{
    Finding {
        rule: Rule::Confinement(found.rule),
        span: found.span,
    }
}
