// The classes that are come by on ways upwards.

ghost use Rattle.std.specs.Prelude.{◌≡◌, IfOk};
ghost use Rattle.je_core.specs.View.{program_view};
ghost use Rattle.class_lookup.specs.Above.{AreAbove};

use je_classes::{class_count, class_in, reach_one, reach_supers};
use je_core::{ClassId, Memory, Program};
use std::alloc::Global;

/// The classes above one that are there, itself included, each once.
pub fn classes_above(
    alloc: Global,
    program: &Program,
    class: ClassId,
) -> Result<Vec<ClassId>, Memory>
    ensures { IfOk result (λ above. AreAbove (program_view program.now) class above.items) }
{
    let count = class_count(program);
    let mut reached = Vec::new(alloc);
    reach_one(&mut reached, count, class)?;
    for at in 0..count {
        let Some(next) = class_in(&reached, at) else {
            return Ok(reached);
        };
        reach_supers(&mut reached, program, next)?;
    }
    Ok(reached)
}
