// The faults of imports.

ghost use Rattle.std.specs.Prelude.{◌≡◌, [], Some, OnOk, map, slice_get};
ghost use Rattle.std.specs.List.{flat_map};
ghost use Rattle.je_ast.specs.Types.{name_view};
ghost use Rattle.je_ast.specs.View.{unit_view};
ghost use Rattle.je_scopes.specs.Source.{imports_of};
ghost use Rattle.je_scopes.specs.Looks.{found};
ghost use Rattle.je_scopes.specs.Faults as fault;
ghost use Rattle.name_sites.specs.Number.{number_in, number_of};
ghost use Rattle.name_sites.specs.View.{source_of};
ghost use Rattle.name_faults.specs.Imports.{in_unit};
ghost use Rattle.name_faults.specs.View.{Adds};

use crate::faults::{FaultKind, Faults};
use je_ast::{Name, Unit};
use je_base::Memory;
use je_core::ClassId;
use name_sites::Sites;
use std::alloc::Global;

/// Finds the faults of what all units import, which are the units of these classes: an import names no class of the library in
/// full, or another class than an earlier one of its simple name (JLS 7.5.1).
pub fn judge_imports(
    alloc: Global,
    sites: &Sites,
    units: &[Unit],
    faults: &mut Faults,
) -> Result<(), Memory>
    requires { (source_of sites.now).imports ≡ map imports_of (map unit_view units.now) }
    ensures { OnOk result (Adds faults.old faults.new
        (flat_map (fault.of_imports (source_of sites.now).texts [])
        (source_of sites.now).imports)) }
{
    for (at, unit) in units.iter().enumerate() {
        judge_unit(alloc, sites, at, &unit.imports, faults)?;
    }
    Ok(())
}

// Finds the faults of what a unit imports.
fn judge_unit(
    alloc: Global,
    sites: &Sites,
    unit: usize,
    imports: &[Name],
    faults: &mut Faults,
) -> Result<(), Memory>
    requires { slice_get (source_of sites.now).imports unit ≡ Some (map name_view imports.now) }
    ensures { OnOk result (Adds faults.old faults.new
        (fault.of_imports (source_of sites.now).texts [] (map name_view imports.now))) }
{
    for import in imports {
        judge_import(alloc, sites, unit, import, faults)?;
    }
    Ok(())
}

// Finds the fault of an import of a unit, by what its simple name means there: the first import of that name.
fn judge_import(
    alloc: Global,
    sites: &Sites,
    unit: usize,
    import: &Name,
    faults: &mut Faults,
) -> Result<(), Memory>
    ensures { OnOk result (Adds faults.old faults.new
        (in_unit (source_of sites.now) unit (name_view import.now))) }
{
    let Some(class) = sites.full_name(alloc, import.parts.as_slice())? else {
        faults.add_where(true, FaultKind::Unknown, import.span);
        return Ok(());
    };
    let Some(last) = import.parts.last() else {
        return Ok(());
    };
    let other = is_other(class, sites.at_top(unit, last.name));
    faults.add_where(other, FaultKind::Twice, import.span);
    Ok(())
}

// Whether a class is another one than this.
fn is_other(class: ClassId, meant: Option<ClassId>) -> bool
    ensures { result ≡ fault.is_other (Some class.0) (found (number_in meant)) }
{
    match meant {
        Some(meant) => class.0 != meant.0,
        None => false,
    }
}
