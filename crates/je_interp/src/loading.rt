// The load of a program, to its end.

ghost use Rattle.std.specs.Prelude.{◌≡◌, ◌≤◌, ◌<◌, ◌+◌, ◌^◌, IfOk, IsSome, OnErr, Some, length, option_map};
ghost use Rattle.je_core.specs.View.{program_view};
ghost use Rattle.je_java.specs.Classes.{statics_of};
ghost use Rattle.je_load.specs.Loading.{end_of, load};
ghost use Rattle.je_interp.specs.Finish.{finish, LacksMemory};
ghost use Rattle.je_interp.specs.Loads.{end_seen, load_end as the_load_end};

use crate::machine::Machine;
use je_core::{ClassId, Memory, Program};
use je_heap::Heap;
use load_world::world_before;
use machine_parts::frame::Next;
use std::alloc::Global;

/// How a load ends.
#[derive(Clone, Copy, PartialEq, Eq, Debug)]
pub enum LoadEnd {
    /// All classes have been started, and the heap has the world that they left.
    Loaded,
    /// The initializers of that class have thrown.
    ThrownIn(ClassId),
    /// The units were spent, and the initializers of that class were the innermost.
    SpentIn(ClassId),
}

// How a load ends, by what its machine answers and the class that it is in; none where no load ends so.
fn load_end(next: Next, class: Option<ClassId>) -> Option<LoadEnd>
    ensures { result ≡ the_load_end next class }
{
    match next {
        Next::Done(None) => Some(LoadEnd::Loaded),
        Next::ThrownInStart { class, .. } => Some(LoadEnd::ThrownIn(class)),
        Next::Spent => class.map(LoadEnd::SpentIn),
        _ => None,
    }
}

impl Machine {
    /// Steps a load to its end; None exactly where it comes to what no program does that fits its types.
    pub fn try_load(
        &mut self,
        heap: &mut Heap,
        program: &Program,
    ) -> Result<Option<LoadEnd>, Memory>
        ensures end { IfOk result (λ end.
            end_of (finish (program_view program.now) self.old heap.old) ≡
            option_map (end_seen heap.new.world) end) }
        ensures memory { OnErr result (LacksMemory self.new) }
    {
        match self.try_run(heap, program)? {
            Some(next) => Ok(load_end(next, self.class_at())),
            None => Ok(None),
        }
    }

    /// Steps a load to its end.
    pub fn run_load(&mut self, heap: &mut Heap, program: &Program) -> Result<LoadEnd, Memory>
        requires { IsSome (end_of (finish (program_view program.now) self.old heap.old)) }
        ensures end { IfOk result (λ end.
            end_of (finish (program_view program.now) self.old heap.old) ≡
            Some (end_seen heap.new.world end)) }
        ensures memory { OnErr result (LacksMemory self.new) }
    {
        match self.try_load(heap, program)? {
            Some(end) => Ok(end),
            None => unreachable!(),
        }
    }
}

/// Loads a program over devices with these interfaces, from a new heap with the world before the load: the heap at the
/// load's end, and the end; None exactly where the load comes to what no program does that fits its types.
pub fn load_program(
    alloc: Global,
    program: &Program,
    interfaces: &[ClassId],
) -> Result<(Heap, Option<LoadEnd>), Memory>
    requires classes { length (program_view program.now).classes < 2 ^ 32 }
    requires variables { statics_of (program_view program.now).classes +
        length (program_view program.now).texts < 2 ^ 32 }
    requires devices { length interfaces.now ≤ 2 ^ 32 }
    ensures { IfOk result (λ (heap, end). load (program_view program.now) interfaces.now ≡
        option_map (end_seen heap.world) end) }
{
    let mut heap = world_before(alloc, program, interfaces)?;
    let mut machine = Machine::load(alloc, program)?;
    let end = machine.try_load(&mut heap, program)?;
    Ok((heap, end))
}
