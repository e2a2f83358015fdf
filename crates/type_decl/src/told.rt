// Constants, as far as they are told by what was met.

ghost use Rattle.std.specs.Prelude.{◌≡◌, ◌<◌, ◌^◌, ◌++◌, ℕ, IfOk, map, true};
ghost use Rattle.name_sites.specs.View.{source_of};
ghost use Rattle.je_core.specs.View.{class_view};
ghost use Rattle.je_scopes.specs.Headers.{is_guest};
ghost use Rattle.body_places.specs.Places.{frame_seen};
ghost use Rattle.body_places.specs.Tables.{constant_at};
ghost use Rattle.class_typing.specs.Elaboration.{constants_behind, constants_first};
ghost use Rattle.class_typing.specs.Elaboration.{constants_told as the_constants_told, is_guest_class};
ghost use Rattle.class_typing.specs.Places.{round_met as the_round_met};
ghost use Rattle.type_decl.specs.way.Asked.{is_asked};
ghost use Rattle.program_tables.specs.Known.{round_seen};
ghost use Rattle.library_classes.specs.Library.{all_due};
ghost use Rattle.library_classes.specs.Numbers.{number_in};
ghost use Rattle.member_forms.specs.Bodies.{met_seen};
ghost use Rattle.name_walk.specs.View.{written_view};
ghost use Rattle.type_decl.specs.way.Seen.{ArePlaced, IsFirst};

use crate::judging::Fields;
use crate::meeting::{met_behind, nothing_met, placed, tells};
use crate::rounds::constants_told;
use crate::walk::{AllMet, BodiesMet, Walk, alloc};
use body_places::{Constant, Frame};
use class_places::round_met;
use field_values::{FieldValue, library_constants};
use je_base::Memory;
use je_core::{Class, ClassId};
use member_forms::Met;
use name_sites::Sites;
use name_walk::Written;
use std::alloc::Global;

/// What the first walk goes by: the classes of a program, of which it isn't known what they capture, and what is
/// written as the values of their fields.
#[derive(Clone, Copy)]
pub struct FirstWalk<'a> {
    pub walk: Walk<'a>,
    pub values: &'a [Vec<FieldValue<'a>>],
}

/// The bodies round each class.
pub fn all_rounds(alloc: Global, sites: &Sites, all: &AllMet) -> Result<Vec<Vec<Frame>>, Memory>
    requires { ArePlaced (source_of sites.now).sites all.now }
    ensures { IfOk result (λ rounds. round_seen rounds.items ≡
        the_round_met (source_of sites.now).sites (map met_seen all.now.met.items)) }
{
    let mut rounds = Vec::new(alloc);
    for at in 0..sites.len() {
        rounds.push(round_met(alloc, sites, &all.stands, &all.met, ClassId(at as u32))?)?;
    }
    Ok(rounds)
}

fn is_written(written: Written) -> bool
    ensures { result ≡ is_guest (written_view written.entry) }
{
    match written {
        Written::Library => false,
        Written::Declared { .. } | Written::Anonymous { .. } => true,
    }
}

// Which classes a program writes.
fn guests(alloc: Global, sites: &Sites) -> Result<Vec<bool>, Memory>
    ensures { IfOk result (λ asked. is_asked asked.items ≡ is_guest_class (source_of sites.now)) }
{
    let mut asked = Vec::new(alloc);
    for at in 0..sites.len() {
        asked.push(is_written(sites.written(ClassId(at as u32))))?;
    }
    Ok(asked)
}

// The bodies round a class, if it is asked; else nothing, which is quickly made.
fn round_if(
    alloc: Global,
    sites: &Sites,
    all: &AllMet,
    asked: &[bool],
    at: usize,
) -> Result<Vec<Frame>, Memory>
    requires placed { ArePlaced (source_of sites.now).sites all.now }
    requires few { at < 2 ^ 32 }
    ensures { IfOk result (λ round. is_asked asked.now at ≡ true → map frame_seen round.items ≡
        the_round_met (source_of sites.now).sites (map met_seen all.now.met.items) at) }
{
    match asked.get(at) {
        Some(true) => round_met(alloc, sites, &all.stands, &all.met, ClassId(at as u32)),
        Some(false) | None => Ok(Vec::new(alloc)),
    }
}

// The bodies round the classes that are asked.
fn rounds_asked(
    alloc: Global,
    sites: &Sites,
    all: &AllMet,
    asked: &[bool],
) -> Result<Vec<Vec<Frame>>, Memory>
    requires { ArePlaced (source_of sites.now).sites all.now }
    ensures { IfOk result (λ rounds. (c : ℕ) → is_asked asked.now c ≡ true →
        round_seen rounds.items c ≡ the_round_met (source_of sites.now).sites
        (map met_seen all.now.met.items) c) }
{
    let mut rounds = Vec::new(alloc);
    for at in 0..sites.len() {
        rounds.push(round_if(alloc, sites, all, asked, at)?)?;
    }
    Ok(rounds)
}

// The constants of the classes that are asked, beside those that are known of the others.
fn told(
    first: &FirstWalk,
    sites: &Sites,
    all: &AllMet,
    asked: &[bool],
    constants: Vec<Vec<Option<Constant>>>,
) -> Result<Vec<Vec<Option<Constant>>>, Memory>
    requires begins { IsFirst (source_of sites.now) first.now }
    requires placed { ArePlaced (source_of sites.now).sites all.now }
    ensures { IfOk result (λ told. constant_at told.items ≡
        the_constants_told (source_of sites.now) (is_asked asked.now)
        (map met_seen all.now.met.items) (constant_at constants.items)) }
{
    let round = rounds_asked(alloc(&first.walk), sites, all, asked)?;
    let fields = Fields {
        values: first.values,
        round: &round,
        asked,
    };
    let told = constants_told(&first.walk.bodies, fields, constants)?;
    Ok(told)
}

/// The constants, as far as they are told without bodies.
pub fn constants_before(
    first: &FirstWalk,
    sites: &Sites,
    library: &[Class],
) -> Result<Vec<Vec<Option<Constant>>>, Memory>
    requires begins { IsFirst (source_of sites.now) first.now }
    requires library { map class_view library.now ≡ all_due (number_in (source_of sites.now).texts) }
    ensures { IfOk result (λ told. constant_at told.items ≡ constants_first (source_of sites.now)) }
{
    let alloc = alloc(&first.walk);
    let known = library_constants(alloc, library, sites)?;
    let nothing = nothing_met(alloc, sites)?;
    let asked = guests(alloc, sites)?;
    told(first, sites, &nothing, &asked, known)
}

/// What was met newly, behind what was met before, and the constants that it tells.
pub fn behind<'a>(
    first: &FirstWalk,
    sites: &Sites<'a>,
    new: Vec<Met<'a>>,
    done: BodiesMet<'a>,
) -> Result<BodiesMet<'a>, Memory>
    requires begins { IsFirst (source_of sites.now) first.now }
    requires placed { ArePlaced (source_of sites.now).sites done.all }
    ensures met { IfOk result (λ d. map met_seen d.all.met.items ≡
        map met_seen done.entry.all.met.items ++ map met_seen new.entry.items) }
    ensures placed { IfOk result (λ d. ArePlaced (source_of sites.now).sites d.all) }
    ensures constants { IfOk result (λ d. constant_at d.constants.items ≡
        constants_behind (source_of sites.now) (map met_seen done.entry.all.met.items)
        (map met_seen new.entry.items) (constant_at done.entry.constants.items)) }
{
    let BodiesMet { all, constants } = done;
    if !tells(&new) {
        let all = met_behind(all, new)?;
        return Ok(BodiesMet { all, constants });
    }
    let asked = placed(alloc(&first.walk), sites, &new)?;
    let all = met_behind(all, new)?;
    let constants = told(first, sites, &all, &asked, constants)?;
    Ok(BodiesMet { all, constants })
}
