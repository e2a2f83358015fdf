// A program's run: its load, and a call behind it.

ghost use Rattle.std.specs.Prelude.{◌≡◌, ◌≤◌, ◌<◌, ◌+◌, ◌^◌, IfOk, length};
ghost use Rattle.je_core.specs.View.{program_view};
ghost use Rattle.je_interp.specs.Finish.{outcome};
ghost use Rattle.je_interp.specs.Runs.{call_end, end_told as the_end_told, run};
ghost use Rattle.je_java.specs.Classes.{statics_of};

use crate::loading::{LoadEnd, load_program};
use crate::machine::Machine;
use je_core::{ClassId, Memory, ObjId, Program, Value};
use je_heap::Heap;
use machine_parts::frame::{Call, Next};
use std::alloc::Global;

/// How a program's run ends, in its load or in the call behind it.
#[derive(Clone, Copy, PartialEq, Eq, Debug)]
pub enum RunEnd {
    /// In the load the initializers of that class have thrown.
    LoadThrownIn(ClassId),
    /// In the load the units were spent, and the initializers of that class were the innermost.
    LoadSpentIn(ClassId),
    /// The call is done, with the method's result, or none where that is `void`.
    Done(Option<Value>),
    /// The call has thrown the exception of that number.
    Thrown(ObjId),
    /// The call's next cost is greater than the units left.
    Spent,
}

// How a call ends, by what its machine answers; none where no call ends so.
fn end_told(next: Next) -> Option<RunEnd>
    ensures { result ≡ the_end_told next }
{
    match next {
        Next::Done(reply) => Some(RunEnd::Done(reply)),
        Next::Thrown(exception) => Some(RunEnd::Thrown(exception)),
        Next::Spent => Some(RunEnd::Spent),
        Next::More | Next::ThrownInStart { .. } => None,
    }
}

// A call over a heap in which all classes have been started, to its end; None where it comes to what no program does
// that fits its types.
fn run_call(
    alloc: Global,
    program: &Program,
    heap: &mut Heap,
    call: Call,
    units: u64,
) -> Result<Option<RunEnd>, Memory>
    requires { units ≤ 100000000 }
    ensures { IfOk result (λ end. end ≡ call_end
        (outcome (program_view program.now) units call heap.old.world)) }
{
    let mut machine = Machine::start(alloc, program, call, units)?;
    match machine.try_run(heap, program)? {
        Some(next) => Ok(end_told(next)),
        None => Ok(None),
    }
}

/// Loads a program over devices with these interfaces, and then, from the world that the load has left, makes a call,
/// which may take so many units, at most 100,000,000: how that ends; None exactly where load or call comes to what no
/// program does that fits its types.
pub fn run_program(
    alloc: Global,
    program: &Program,
    interfaces: &[ClassId],
    call: Call,
    units: u64,
) -> Result<Option<RunEnd>, Memory>
    requires classes { length (program_view program.now).classes < 2 ^ 32 }
    requires variables { statics_of (program_view program.now).classes +
        length (program_view program.now).texts < 2 ^ 32 }
    requires devices { length interfaces.now ≤ 2 ^ 32 }
    requires units { units ≤ 100000000 }
    ensures { IfOk result (λ end.
        end ≡ run (program_view program.now) interfaces.now units call) }
{
    let (mut heap, loaded) = load_program(alloc, program, interfaces)?;
    match loaded {
        Some(LoadEnd::Loaded) => run_call(alloc, program, &mut heap, call, units),
        Some(LoadEnd::ThrownIn(class)) => Ok(Some(RunEnd::LoadThrownIn(class))),
        Some(LoadEnd::SpentIn(class)) => Ok(Some(RunEnd::LoadSpentIn(class))),
        None => Ok(None),
    }
}
