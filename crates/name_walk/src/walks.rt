// All units.

ghost use Rattle.std.specs.Prelude.{◌≡◌, ◌≤◌, ◌+◌, ◌∷◌, [], ◌++◌, length, map, IfOk, OnOk};
ghost use Rattle.je_ast.specs.View.{unit_view};
ghost use Rattle.je_scopes.specs.Sites.{at_top, in_units, library_sites, sites};
ghost use Rattle.name_walk.specs.View.{NameEarlier, sites_of};
ghost use Rattle.name_walk.specs.Sizes.{units_size};
ghost use Rattle.name_walk.specs.Collected.{collected, spot_of};

use crate::collector::Collector;
use crate::site::{ClassSite, Written};
use crate::trees::unit;
use je_ast::Unit;
use je_base::Memory;
use je_core::Sort;
use je_table::class_rows;
use std::alloc::Global;

/// The classes of the library, and then those of all units. There are at most as many of these as the units are large.
pub fn walk<'a>(alloc: Global, units: &'a [Unit]) -> Result<Vec<ClassSite<'a>>, Memory>
    ensures sites { IfOk result
        (λ classes. sites_of classes.items ≡ sites (map unit_view units.now)) }
    ensures earlier { IfOk result (λ classes. NameEarlier classes.items) }
    ensures few { IfOk result
        (λ classes. length classes.items ≤ 39 + units_size (map unit_view units.now)) }
{
    let mut collector = Collector::new(alloc);
    library(&mut collector)?;
    all_units(&mut collector, units)?;
    Ok(collector.into_classes())
}

// The classes of the library, where no class was met yet.
fn library(collector: &mut Collector) -> Result<(), Memory>
    requires none { collected collector.old ≡ [] }
    requires top { spot_of collector.old ≡ at_top 0 }
    ensures { OnOk result (collected collector.new ≡ library_sites) }
{
    let count = library_size();
    'rows: while collector.len() < count {
        collector.push(Written::Library, Sort::Class, false)?;
    }
    Ok(())
}

// How many classes the library has.
fn library_size() -> usize
    ensures { result ≡ 39 }
{
    class_rows().len()
}

fn all_units<'a>(collector: &mut Collector<'a>, units: &'a [Unit]) -> Result<(), Memory>
    ensures { OnOk result
        (collected collector.new ≡ in_units 0 (map unit_view units.now) (collected collector.old)) }
{
    for (at, unit_here) in units.iter().enumerate() {
        unit(collector, unit_here, at)?;
    }
    Ok(())
}
