// What the source in a file comes to, where it is run.

ghost use Rattle.std.specs.Prelude.{◌≡◌, ◌≤◌, IfOk, length, string_bytes};
ghost use Rattle.je_types.specs.Views.{program_of};
ghost use Rattle.je_top.specs.Files.{file_limit};
ghost use Rattle.je_top.specs.Outcome.{outcome_view};
ghost use Rattle.je_top.specs.Runs.{of_program as outcome_of_program, RunsTo};

use crate::judging::judge;
use crate::outcome::Outcome;
use crate::refusal::Refusal;
use class_names::binary_name;
use je_base::{Memory, Names};
use je_core::Value;
use je_interp::RunEnd;
use je_types::Typed;
use least_taming::least_taming;
use main_runs::run_main;
use std::alloc::Global;
use std::slice;

/// What the source in a file of this name comes to: what is found in it under a taming text that enables nothing, or
/// how its run ends.
#[tactic(auto, using(crate::proofs::RunLemmas::comings))]
pub fn ran<'a>(alloc: Global, file: &'a String, bytes: Vec<u8>) -> Result<Outcome<'a>, Memory>
    requires { length bytes.items ≤ file_limit }
    ensures { IfOk result
        (λ o. RunsTo (string_bytes file.now) bytes.items (outcome_view o)) }
{
    let taming = least_taming(alloc)?;
    let mut sources = Vec::new(alloc);
    sources.push(bytes)?;
    match judge(alloc, &sources, taming) {
        Ok((accepted, names)) => Ok(of_program(alloc, file, accepted.typed(), &names)?),
        Err(Refusal::Memory) => Err(Memory),
        Err(Refusal::Found(found)) => Ok(Outcome::Refused {
            sources: slice::from_ref(file),
            found,
        }),
        Err(Refusal::Misfit(_, _)) => Ok(Outcome::NotBuilt { name: file }),
    }
}

/// How the run of a program ends, for who reads of it.
fn of_program<'a>(
    alloc: Global,
    file: &'a str,
    typed: &Typed,
    names: &Names,
) -> Result<Outcome<'a>, Memory>
    ensures { IfOk result
        (λ o. outcome_view o ≡ outcome_of_program file.now names.now (program_of typed.now)) }
{
    match run_main(alloc, typed, names)? {
        Some(RunEnd::Done(Some(Value::Int(value)))) => Ok(Outcome::Replied { value }),
        Some(RunEnd::Thrown(_)) => Ok(Outcome::Thrown),
        Some(RunEnd::Spent) => Ok(Outcome::Spent),
        Some(RunEnd::LoadThrownIn(class)) => Ok(Outcome::InitThrown {
            class: binary_name(alloc, typed.program(), names, class)?,
        }),
        Some(RunEnd::LoadSpentIn(class)) => Ok(Outcome::InitSpent {
            class: binary_name(alloc, typed.program(), names, class)?,
        }),
        _ => Ok(Outcome::NotBuilt { name: file }),
    }
}
