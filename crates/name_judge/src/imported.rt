// The simple names under which units import classes.

ghost use Rattle.std.specs.Prelude.{◌≡◌, ◌||◌, IfOk, OnOk, Some, map};
ghost use Rattle.std.specs.List.{list_any};
ghost use Rattle.je_base.specs.declared.span.NameId.{NameId};
ghost use Rattle.je_ast.specs.Types.{name_view};
ghost use Rattle.je_ast.specs.View.{unit_view};
ghost use Rattle.je_scopes.specs.Source.{imports_of};
ghost use Rattle.je_scopes.specs.Faults.{imports_name, is_imported};
ghost use Rattle.name_sites.specs.View.{source_of};
ghost use Rattle.name_faults.specs.Met.{is_met};

use je_ast::{Name, Unit};
use je_base::Memory;
use name_faults::Met;
use name_sites::Sites;
use std::alloc::Global;

/// The simple names of all classes that the units of a program import.
pub fn imported_names(alloc: Global, sites: &Sites, units: &[Unit]) -> Result<Met, Memory>
    requires { (source_of sites.now).imports ≡ map imports_of (map unit_view units.now) }
    ensures { IfOk result
        (λ met. (x : NameId) → is_met met x ≡ is_imported (source_of sites.now) (Some x)) }
{
    let mut met = Met::none(alloc);
    for unit in units {
        meet_imports(alloc, sites, &unit.imports, &mut met)?;
    }
    Ok(met)
}

// Meets the simple names of the classes that a unit imports.
fn meet_imports(alloc: Global, sites: &Sites, imports: &[Name], met: &mut Met) -> Result<(), Memory>
    ensures { OnOk result ((x : NameId) → is_met met.new x ≡ (is_met met.old x
        || list_any (imports_name (source_of sites.now).texts (Some x))
        (map name_view imports.now))) }
{
    for import in imports {
        meet_import(alloc, sites, import, met)?;
    }
    Ok(())
}

// Meets the simple name of an import, if it names a class of the library in full.
fn meet_import(alloc: Global, sites: &Sites, import: &Name, met: &mut Met) -> Result<(), Memory>
    ensures { OnOk result ((x : NameId) → is_met met.new x ≡ (is_met met.old x
        || imports_name (source_of sites.now).texts (Some x) (name_view import.now))) }
{
    let Some(last) = import.parts.last() else {
        return Ok(());
    };
    if sites.full_name(alloc, import.parts.as_slice())?.is_none() {
        return Ok(());
    }
    met.meet(last.name)?;
    Ok(())
}
