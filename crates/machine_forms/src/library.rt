// Members of library classes, which have no body: what a call of one comes to.

ghost use Rattle.std.specs.Prelude.{◌≡◌, ◌≤◌, IfOk};
ghost use Rattle.je_java.specs.LibraryMembers.{run_library as the_run_library};
ghost use Rattle.tamed_lib.specs.Outcomes.{outcome_ways};
ghost use Rattle.machine_forms.specs.way.Running.{Runs};

use je_core::{ClassId, Memory, ObjId, Program, Slots, Value};
use je_heap::Heap;
use machine_parts::frame::{Context, Made};
use machine_parts::make::instance;
use tamed_lib::LibraryOutcome;

/// What a member of a library class comes to.
#[derive(Drop)]
pub enum Ran {
    /// A value; null where the member is `void`.
    Value(Value),
    /// An exception, which was made.
    Throws(ObjId),
    Spent,
    Wrong,
}

// Makes the exception that a member throws.
fn settle(
    context: &mut Context,
    heap: &mut Heap,
    program: &Program,
    outcome: LibraryOutcome,
) -> Result<Ran, Memory>
    ensures goes { IfOk result (Runs program.now context.old heap.old context.new heap.new
        (λ p. outcome_ways p outcome)) }
    ensures frames { context.new.frames ≡ context.old.frames }
    ensures env { context.new.env ≡ context.old.env }
    ensures units { context.new.units ≤ context.old.units }
    ensures begun { context.new.begun ≡ context.old.begun }
{
    match outcome {
        LibraryOutcome::Value(value) => Ok(Ran::Value(value)),
        LibraryOutcome::Raises(class) => match instance(context, heap, program, class)? {
            Made::Object(exception) => Ok(Ran::Throws(exception)),
            Made::Spent => Ok(Ran::Spent),
            Made::Wrong => Ok(Ran::Wrong),
        },
        LibraryOutcome::Spent => Ok(Ran::Spent),
        LibraryOutcome::Wrong => Ok(Ran::Wrong),
    }
}

/// Runs the method or constructor of a number of a library class, on its receiver, which is null where it has none, and its
/// arguments: it takes what it costs from the units left.
pub fn run_library(
    context: &mut Context,
    heap: &mut Heap,
    program: &Program,
    own: ClassId,
    at: usize,
    this: Value,
    values: &Slots,
) -> Result<Ran, Memory>
    ensures goes { IfOk result (Runs program.now context.old heap.old context.new heap.new
        (λ p. the_run_library p own at this values.now)) }
    ensures frames { context.new.frames ≡ context.old.frames }
    ensures env { context.new.env ≡ context.old.env }
    ensures units { context.new.units ≤ context.old.units }
    ensures begun { context.new.begun ≡ context.old.begun }
{
    // no row of the table is so far behind
    if at >= 4294967296 {
        return Ok(Ran::Wrong);
    }
    let mut left = context.units;
    let outcome = tamed_lib::run_library(
        context.alloc,
        program,
        heap,
        &mut left,
        own,
        at as u32,
        this,
        values,
    )?;
    context.units = left;
    settle(context, heap, program, outcome)
}
