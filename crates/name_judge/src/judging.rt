// The faults of all names of a program.

ghost use Rattle.std.specs.Prelude.{◌≡◌, ◌<◌, IfErr, None, OnOk, length, map};
ghost use Rattle.std.specs.List.{flat_map};
ghost use Rattle.je_ast.specs.View.{unit_view};
ghost use Rattle.je_scopes.specs.Headers.{is_guest as is_a_guest};
ghost use Rattle.je_scopes.specs.Laws.{HasLibrary};
ghost use Rattle.je_scopes.specs.Settled.{settled};
ghost use Rattle.je_scopes.specs.Source.{imports_of};
ghost use Rattle.je_scopes.specs.Faults.{first_fault, guests, of_class};
ghost use Rattle.name_walk.specs.View.{written_view};
ghost use Rattle.name_sites.specs.View.{source_of};
ghost use Rattle.name_lookup.specs.View.{known_of};
ghost use Rattle.name_lookup.specs.Table.{AreHeadersOf};
ghost use Rattle.name_faults.specs.View.{Adds};
ghost use Rattle.type_faults.specs.Program.{source_in};
ghost use Rattle.name_judge.specs.Cycles.{AreCyclesOf};
ghost use Rattle.name_judge.specs.Refused.{IsRefused};

use crate::cycles::Cycles;
use crate::heads::judge_heads;
use crate::methods::judge_methods;
use crate::parameters::judge_parameters;
use crate::refusal::Refusal;
use crate::taken::TakenNames;
use je_ast::Unit;
use je_base::Memory;
use je_core::ClassId;
use member_faults::judge_fields;
use name_faults::{Faults, judge_imports};
use name_lookup::Headers;
use name_sites::Sites;
use name_walk::Written;
use std::alloc::Global;
use type_faults::Program;

/// Whether the names of a program, which has these units, are without a fault; the first one in reading order, where there is
/// one (JLS 6, 7, 8, 9).
pub fn judge<'a>(
    alloc: Global,
    sites: &'a Sites<'a>,
    headers: &'a Headers,
    units: &[Unit],
) -> Result<(), Refusal>
    requires library { HasLibrary (source_of sites.now) }
    requires fits { AreHeadersOf (source_of sites.now) headers.now }
    requires settled { settled (source_of sites.now) ≡ known_of headers.now }
    requires imports { (source_of sites.now).imports ≡ map imports_of (map unit_view units.now) }
    ensures ok { OnOk result (first_fault (source_of sites.now) ≡ None) }
    ensures err { IfErr result (IsRefused (source_of sites.now)) }
{
    let program = Program::new(alloc, sites, headers);
    let cycles = Cycles::of(&program)?;
    let taken = TakenNames::of(alloc, sites, units)?;
    let mut faults = Faults::none();
    judge_imports(alloc, sites, units, &mut faults)?;
    judge_classes(&program, &cycles, &taken, &mut faults)?;
    match faults.first() {
        Some(fault) => Err(Refusal::Fault(fault)),
        None => Ok(()),
    }
}

// Finds the faults of all classes that the units declare.
fn judge_classes(
    program: &Program,
    cycles: &Cycles,
    taken: &TakenNames,
    faults: &mut Faults,
) -> Result<(), Memory>
    requires library { HasLibrary (source_in program.now) }
    requires cycles { AreCyclesOf (source_in program.now) cycles.now }
    requires taken { source_of taken.now.sites.now ≡ source_in program.now }
    ensures { OnOk result (Adds faults.old faults.new
        (flat_map (of_class (source_in program.now)) (guests (source_in program.now)))) }
{
    for at in 0..program.sites.len() {
        let class = ClassId(at as u32);
        if is_guest(program.sites.written(class)) {
            judge_class(program, cycles, taken, class, faults)?;
        }
    }
    Ok(())
}

// Whether a unit declares a class.
fn is_guest(written: Written) -> bool
    ensures { result ≡ is_a_guest (written_view written.entry) }
{
    !matches!(written, Written::Library)
}

// Finds the faults of a class.
fn judge_class(
    program: &Program,
    cycles: &Cycles,
    taken: &TakenNames,
    class: ClassId,
    faults: &mut Faults,
) -> Result<(), Memory>
    requires library { HasLibrary (source_in program.now) }
    requires cycles { AreCyclesOf (source_in program.now) cycles.now }
    requires taken { source_of taken.now.sites.now ≡ source_in program.now }
    requires within { class.0 < length (source_in program.now).sites }
    ensures { OnOk result (Adds faults.old faults.new (of_class (source_in program.now) class.0)) }
{
    taken.judge_class_name(class, faults);
    judge_parameters(program, class, faults)?;
    judge_heads(program, cycles, class, faults)?;
    judge_fields(program, class, faults)?;
    judge_methods(program, class, faults)
}
