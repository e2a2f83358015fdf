// The numbers of local and anonymous classes.

ghost use Rattle.std.specs.Prelude.{◌≡◌, ◌<◌, ℕ, IfOk, length, slice_index};
ghost use Rattle.je_scopes.specs.BinaryNames.{number_in};
ghost use Rattle.name_sites.specs.View.{source_of};
ghost use Rattle.binary_names.specs.Names.{AreCounted};

use crate::counts::Counts;
use je_base::Memory;
use je_core::ClassId;
use name_sites::{Sites, is_local};
use std::alloc::Global;

/// Of each local and anonymous class how many of its simple name there are directly in the class round it, up to and
/// including this one; 0 for every other class (JLS 13.1).
pub fn numbers(alloc: Global, sites: &Sites) -> Result<Vec<usize>, Memory>
    ensures count { IfOk result (λ ns. length ns.items ≡ length (source_of sites.now).sites) }
    ensures numbers { IfOk result
        (λ ns. (c : ℕ) → c < length (source_of sites.now).sites → slice_index ns.items c ≡
        number_in (source_of sites.now) c) }
{
    let mut counts = Counts::new(alloc);
    let mut numbers = Vec::new(alloc);
    for at in 0..sites.len() {
        numbers.push(next_number(&mut counts, sites, ClassId(at as u32))?)?;
    }
    Ok(numbers)
}

ghost use Rattle.std.specs.Prelude.{◌^◌, OnOk, suc};
ghost use Rattle.name_sites.specs.Number.{number_in as place_number};

// The number of a class, where those before it were counted.
fn next_number(counts: &mut Counts, sites: &Sites, class: ClassId) -> Result<usize, Memory>
    requires within { class.0 < length (source_of sites.now).sites }
    requires few { class.0 < 2 ^ 27 }
    requires counted { AreCounted (source_of sites.now) class.0 counts.old }
    ensures counted { OnOk result (AreCounted (source_of sites.now) (suc class.0) counts.new) }
    ensures number { IfOk result (λ n. n ≡ number_in (source_of sites.now) class.0) }
{
    if !is_local(sites.sort(class)) {
        return Ok(0);
    }
    let place = place_of(sites.outside(class).within);
    counts.next(place, sites.name(class))
}

// The number of a class, where there is one.
fn place_of(class: Option<ClassId>) -> Option<usize>
    ensures { result ≡ place_number class }
{
    match class {
        Some(class) => Some(class.0 as usize),
        None => None,
    }
}
