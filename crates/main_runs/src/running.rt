// The run of a `main`.

ghost use Rattle.std.specs.Prelude.{◌≡◌, ◌<◌, ◌+◌, ◌^◌, IfOk, length};
ghost use Rattle.je_core.specs.View.{program_view};
ghost use Rattle.je_classes.specs.Members.{methods_of};
ghost use Rattle.je_java.specs.Classes.{statics_of};
ghost use Rattle.je_types.specs.Views.{program_of};
ghost use Rattle.main_runs.specs.Mains.{first_class as the_first_class, main_call as the_main_call, main_run};

use crate::mains::{first_class, main_of};
use je_core::{Memory, Names, Program, Slots};
use je_interp::{Call, Receiver, RunEnd, run_program};
use je_types::Typed;
use std::alloc::Global;

/// The units of a run.
const MAIN_UNITS: u64 = 1_000_000;

// The call of a method of the first class, without receiver and arguments.
fn main_call(alloc: Global, number: u32) -> Call
    ensures { result ≡ the_main_call number }
{
    Call {
        class: first_class(),
        method: number,
        receiver: Receiver::None,
        args: Slots::new(alloc),
    }
}

// The run of the `main` of a program whose classes, variables and methods have numbers.
fn run_numbered(alloc: Global, program: &Program, names: &Names) -> Result<Option<RunEnd>, Memory>
    requires classes { length (program_view program.now).classes < 2 ^ 32 }
    requires variables { statics_of (program_view program.now).classes +
        length (program_view program.now).texts < 2 ^ 32 }
    requires methods { length (methods_of (program_view program.now) the_first_class) < 2 ^ 32 }
    ensures { IfOk result (λ end. end ≡ main_run names.now (program_view program.now)) }
{
    let Some(number) = main_of(program, names) else {
        return Ok(None);
    };
    let call = main_call(alloc, number as u32);
    run_program(alloc, program, &[], call, MAIN_UNITS)
}

/// Loads a program without devices and then calls its `main` with 1,000,000 units: how that ends; None exactly where it
/// has no `main`, or where load or call comes to what no program does that fits its types.
#[tactic(auto, using(crate::proofs::Numbers::typed_methods))]
pub fn run_main(alloc: Global, typed: &Typed, names: &Names) -> Result<Option<RunEnd>, Memory>
    ensures { IfOk result (λ end. end ≡ main_run names.now (program_of typed.now)) }
{
    run_numbered(alloc, typed.program(), names)
}
