// What units import.

ghost use Rattle.std.specs.Prelude.{◌≡◌, ℕ, Option, Some, IfOk, OnOk, map};
ghost use Rattle.je_base.specs.declared.span.NameId.{NameId};
ghost use Rattle.je_ast.specs.Types.{name_view};
ghost use Rattle.je_scopes.specs.Looks.{found, or_further};
ghost use Rattle.je_scopes.specs.Scope.{first_import, last_part};
ghost use Rattle.name_sites.specs.ByName.{kept};
ghost use Rattle.name_sites.specs.Imports.{in_unit, import_named, imports_among};

use crate::by_name::ByName;
use crate::library::full_name;
use je_ast::{Identifier, Name, Unit};
use je_base::{Memory, Names};
use std::alloc::Global;

/// The class that each unit imports under each name: the first import that names a class of the library (JLS 7.5.1).
pub fn imported_by_name(alloc: Global, names: &Names, units: &[Unit]) -> Result<ByName, Memory>
    ensures { IfOk result (λ m. (u : ℕ) (x : NameId) → found (kept m (Some u) x) ≡
        first_import names.now x (imports_among units.now u)) }
{
    let mut imported = ByName::new(alloc);
    for (at, unit) in units.iter().enumerate() {
        keep_imports(alloc, names, &mut imported, at, &unit.imports)?;
    }
    Ok(imported)
}

#[tactic(auto, using(crate::proofs::ImportSteps::no_imports))]
fn keep_imports(
    alloc: Global,
    names: &Names,
    imported: &mut ByName,
    unit: usize,
    imports: &[Name],
) -> Result<(), Memory>
    ensures { OnOk result ((p : Option ℕ) (x : NameId) → found (kept imported.new p x) ≡
        or_further (found (kept imported.old p x))
        (in_unit unit p (first_import names.now x (map name_view imports.now)))) }
{
    for import in imports {
        keep_import(alloc, names, imported, unit, import)?;
    }
    Ok(())
}

#[tactic(auto, using(crate::proofs::ImportSteps::nameless_kept))]
fn keep_import(
    alloc: Global,
    names: &Names,
    imported: &mut ByName,
    unit: usize,
    import: &Name,
) -> Result<(), Memory>
    ensures { OnOk result ((p : Option ℕ) (x : NameId) → found (kept imported.new p x) ≡
        or_further (found (kept imported.old p x))
        (in_unit unit p (import_named names.now x (name_view import.now)))) }
{
    let Some(last) = last_identifier(&import.parts) else {
        return Ok(());
    };
    match full_name(alloc, names, &import.parts)? {
        Some(class) => imported.keep(Some(unit), last.name, class),
        None => Ok(()),
    }
}

fn last_identifier(parts: &[Identifier]) -> Option<Identifier>
    ensures { result ≡ last_part parts.now }
{
    parts.last().copied()
}
