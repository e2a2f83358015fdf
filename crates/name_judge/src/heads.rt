// The faults of the types that headers name.

ghost use Rattle.std.specs.Prelude.{◌≡◌, OnOk};
ghost use Rattle.std.specs.List.{Contains};
ghost use Rattle.je_ast.specs.Types.{type_view};
ghost use Rattle.je_scopes.specs.Laws.{HasLibrary};
ghost use Rattle.je_scopes.specs.Settled.{heads_of};
ghost use Rattle.je_scopes.specs.Faults.{of_head, of_heads};
ghost use Rattle.name_faults.specs.View.{Adds};
ghost use Rattle.type_faults.specs.Program.{source_in};
ghost use Rattle.name_judge.specs.Cycles.{AreCyclesOf};

use crate::cycles::Cycles;
use je_ast::TyName;
use je_base::Memory;
use je_core::ClassId;
use name_faults::{FaultKind, Faults};
use name_lookup::{Part, Place};
use name_types::name_span;
use type_faults::Program;

/// Finds the faults of the types that a class names as above it: one names the class itself or one that depends on it, as a
/// qualifier too, or it has a fault as any type (JLS 8.1.4, 8.1.5, 9.1.3).
pub fn judge_heads(
    program: &Program,
    cycles: &Cycles,
    class: ClassId,
    faults: &mut Faults,
) -> Result<(), Memory>
    requires library { HasLibrary (source_in program.now) }
    requires cycles { AreCyclesOf (source_in program.now) cycles.now }
    ensures { OnOk result (Adds faults.old faults.new (of_heads (source_in program.now) class.0)) }
{
    let mut at = 0;
    while let Some(head) = program.sites.head(class, at) {
        judge_head(program, cycles, class, head, faults)?;
        at += 1;
    }
    Ok(())
}

fn judge_head(
    program: &Program,
    cycles: &Cycles,
    class: ClassId,
    head: &TyName,
    faults: &mut Faults,
) -> Result<(), Memory>
    requires library { HasLibrary (source_in program.now) }
    requires cycles { AreCyclesOf (source_in program.now) cycles.now }
    requires named { Contains (heads_of (source_in program.now) class.0) (type_view head.now) }
    ensures { OnOk result
        (Adds faults.old faults.new
        (of_head (source_in program.now) class.0 (type_view head.now))) }
{
    let meant = program
        .headers
        .head_meaning(program.alloc, program.sites, class, head)?;
    let back = cycles.lead_back(program, class, meant.named.as_slice())?;
    faults.add_where(back, FaultKind::Cycle, name_span(head));
    let part = Part::Header;
    program.judge_type(Place { class, part }, head, faults)
}
