// How the classes of all units are collected.

ghost use Rattle.std.specs.Prelude.{◌≡◌, ◌<◌, ◌≤◌, ◌^◌, IfOk, length, map};
ghost use Rattle.je_ast.specs.View.{unit_view};
ghost use Rattle.je_scopes.specs.Source.{source};
ghost use Rattle.name_walk.specs.Sizes.{units_size};
ghost use Rattle.name_sites.specs.View.{source_of};

use crate::imports::imported_by_name;
use crate::indexes::{declared_by_name, tops};
use crate::library::implicit_classes;
use crate::sites::Sites;
use je_ast::Unit;
use je_base::{Memory, Names};
use name_walk::walk;
use std::alloc::Global;

/// The classes of the library, and then those of all units, whose names have their texts in `names`.
#[tactic(auto, using(crate::proofs::Firsts::firsts), unfolding(crate::specs::View::source_of, je_scopes::specs::Sites::sites))]
pub fn collect<'a>(alloc: Global, units: &'a [Unit], names: &'a Names) -> Result<Sites<'a>, Memory>
    requires small { units_size (map unit_view units.now) ≤ 2 ^ 26 }
    requires few_names { length names.now < 2 ^ 32 }
    ensures { IfOk result (λ s. source_of s ≡ source names.now (map unit_view units.now)) }
{
    let classes = walk(alloc, units)?;
    let tops = tops(alloc, &classes)?;
    let declared = declared_by_name(alloc, &classes)?;
    let imported = imported_by_name(alloc, names, units)?;
    let implicit = implicit_classes(alloc, names)?;
    Ok(Sites {
        names,
        units,
        classes,
        tops,
        declared,
        imported,
        implicit,
    })
}
