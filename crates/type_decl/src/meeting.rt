// What was met, and which classes it places.

ghost use Rattle.std.specs.Prelude.{◌≡◌, ◌++◌, [], IfOk, List, is_some, length, map};
ghost use Rattle.std.specs.List.{list_any};
ghost use Rattle.class_typing.specs.Places.{class_standing, is_placed};
ghost use Rattle.je_scopes.specs.Sites.{Site};
ghost use Rattle.member_forms.specs.Bodies.{met_seen};
ghost use Rattle.name_sites.specs.View.{source_of};
ghost use Rattle.type_decl.specs.way.Asked.{is_asked};
ghost use Rattle.type_decl.specs.way.Seen.{ArePlaced};
ghost use Rattle.type_decl.specs.way.Telling.{tells as the_tells};

use crate::walk::AllMet;
use class_places::{Stands, placed_by};
use je_base::Memory;
use je_core::ClassId;
use member_forms::Met;
use name_sites::Sites;
use std::alloc::Global;

/// Where nothing was met.
pub fn nothing_met<'a>(alloc: Global, sites: &Sites<'a>) -> Result<AllMet<'a>, Memory>
    ensures nothing { IfOk result (λ all. map met_seen all.met.items ≡ []) }
    ensures placed { IfOk result (ArePlaced (source_of sites.now).sites) }
{
    Ok(AllMet {
        met: Vec::new(alloc),
        stands: Stands::none(alloc, sites.len())?,
    })
}

/// What was met newly, behind what was met before.
pub fn met_behind<'a>(all: AllMet<'a>, mut new: Vec<Met<'a>>) -> Result<AllMet<'a>, Memory>
    ensures met { IfOk result (λ m. map met_seen m.met.items ≡
        map met_seen all.entry.met.items ++ map met_seen new.entry.items) }
    ensures placed { IfOk result (λ m. (sites : List Site) → ArePlaced sites all.entry →
        ArePlaced sites m) }
{
    let AllMet {
        mut met,
        mut stands,
    } = all;
    let from = met.len();
    met.append(&mut new)?;
    stands.add_all(&met, from);
    Ok(AllMet { met, stands })
}

fn tells_one(met: &Met) -> bool
    ensures { result ≡ the_tells (met_seen met.now) }
{
    match met {
        Met::Stands { .. } | Met::StandsBehindNew { .. } => true,
        Met::Captures { .. } | Met::Makes { .. } => false,
    }
}

/// Whether any of it tells where a class stands.
pub fn tells(met: &[Met]) -> bool
    ensures { result ≡ list_any the_tells (map met_seen met.now) }
{
    for one in met {
        if tells_one(one) {
            return true;
        }
    }
    false
}

/// Which classes stand where something was met.
pub fn placed(alloc: Global, sites: &Sites, met: &[Met]) -> Result<Vec<bool>, Memory>
    ensures { IfOk result (λ asked. is_asked asked.items ≡
        is_placed (source_of sites.now).sites (map met_seen met.now)) }
{
    let mut stands = Stands::none(alloc, sites.len())?;
    stands.add_all(met, 0);
    let mut asked = Vec::new(alloc);
    for at in 0..sites.len() {
        asked.push(placed_by(sites, &stands, met, ClassId(at as u32)).is_some())?;
    }
    Ok(asked)
}
