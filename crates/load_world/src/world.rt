// The world of a program before its load.

ghost use Rattle.std.specs.Prelude.{◌≡◌, ◌≤◌, ◌<◌, ◌+◌, ◌^◌, IfOk, None, length};
ghost use Rattle.je_core.specs.View.{program_view};
ghost use Rattle.je_heap.specs.Contents.{saved_of};
ghost use Rattle.je_java.specs.Classes.{statics_of};
ghost use Rattle.je_load.specs.Loading.{world_before as the_world_before};

use crate::objects::{add_capabilities, add_texts};
use crate::variables::first_statics;
use je_core::{ClassId, Memory, Program};
use je_heap::Heap;
use std::alloc::Global;

/// A heap with the world of a program before its load, over devices with these interfaces. No turn has begun.
pub fn world_before(
    alloc: Global,
    program: &Program,
    interfaces: &[ClassId],
) -> Result<Heap, Memory>
    requires variables { statics_of (program_view program.now).classes +
        length (program_view program.now).texts < 2 ^ 32 }
    requires devices { length interfaces.now ≤ 2 ^ 32 }
    ensures world { IfOk result (λ heap. heap.world ≡
        the_world_before (program_view program.now) interfaces.now) }
    ensures turn { IfOk result (λ heap. heap.turn ≡ None) }
    ensures saved { IfOk result (λ heap. saved_of heap ≡ 0) }
{
    let statics = first_statics(alloc, program, interfaces.len() as u64)?;
    let mut heap = Heap::of(alloc, statics);
    add_capabilities(&mut heap, interfaces)?;
    add_texts(alloc, &mut heap, &program.texts)?;
    Ok(heap)
}
