// Whether a program is plain.

ghost use Rattle.std.specs.Prelude.{◌≡◌, ◌<◌, ◌^◌, IfOk, length};
ghost use Rattle.je_core.specs.View.{program_view};
ghost use Rattle.je_classes.specs.Hierarchy.{IsAcyclic};
ghost use Rattle.plain_programs.specs.way.Deciding.{is_plain as the_is_plain};

use crate::classes::class_is_plain;
use je_classes::class_count;
use je_core::{ClassId, Memory, Program};
use std::alloc::Global;

/// Whether a program is plain: by `plain_is_decided`, exactly where `IsPlain` holds of it. No class may be above itself, and
/// fewer than 2^31 may be there.
pub fn is_plain(alloc: Global, program: &Program) -> Result<bool, Memory>
    requires acyclic { IsAcyclic (program_view program.now) }
    requires few { length (program_view program.now).classes < 2 ^ 31 }
    ensures { IfOk result (λ plain. plain ≡ the_is_plain (program_view program.now)) }
{
    for at in 0..class_count(program) {
        if !class_is_plain(alloc, program, ClassId(at as u32))? {
            return Ok(false);
        }
    }
    Ok(true)
}
