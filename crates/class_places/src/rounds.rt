// The bodies round classes.

ghost use Rattle.std.specs.Prelude.{◌≡◌, ◌<◌, ◌∷◌, ◌++◌, IfOk, List, OnOk, length, map, option_map};
ghost use Rattle.std.specs.Option.{ForSome};
ghost use Rattle.je_scopes.specs.Headers.{site_at};
ghost use Rattle.name_sites.specs.Number.{number_in};
ghost use Rattle.name_sites.specs.View.{source_of};
ghost use Rattle.name_walk.specs.View.{context_view, round_from};
ghost use Rattle.name_typing.specs.Program.{Frame as TheFrame};
ghost use Rattle.body_places.specs.Places.{frame_seen};
ghost use Rattle.class_places.specs.First.{AreFirst};
ghost use Rattle.class_places.specs.way.Rounds.{body_seen, class_in, round_behind};
ghost use Rattle.class_typing.specs.Places.{frames_met, in_body as the_in_body, placed_by as the_placed_by, round_class as the_round_class, round_met as the_round_met, round_without_locals as the_round_without_locals};
ghost use Rattle.body_walks.specs.Seen.{met_seen};

use crate::first::Stands;
use body_places::Frame;
use body_walks::{Met, Standing, copied_frame};
use je_base::Memory;
use je_core::ClassId;
use name_sites::{Sites, is_local};
use name_walk::Context;
use std::alloc::Global;

/// The class that stands in a body, of a class and those round it: the innermost that does.
#[tactic(auto, using(crate::proofs::Outwards::stands_here, crate::proofs::Outwards::stands_further))]
pub fn in_body(sites: &Sites, class: ClassId) -> Option<ClassId>
    ensures { number_in result ≡ the_in_body (source_of sites.now).sites class.0 }
{
    let mut next = Some(class);
    while let Some(here) = next {
        if is_local(sites.sort(here)) {
            return Some(here);
        }
        next = sites.outside(here).within;
    }
    None
}

/// What tells where a class stands: the first of what was met that tells it of the class that stands in a body, of that
/// class and those round it.
pub fn placed_by<'m, 'a>(
    sites: &Sites,
    stands: &Stands,
    met: &'m [Met<'a>],
    class: ClassId,
) -> Option<&'m Met<'a>>
    requires { AreFirst (length (source_of sites.now).sites) (map met_seen met.now) stands.now }
    ensures { option_map (λ m. met_seen m.now) result ≡
        the_placed_by (source_of sites.now).sites (map met_seen met.now) class.0 }
{
    let standing = in_body(sites, class)?;
    stands.first(met, standing)
}

// The class directly round another one, and the context in which that stands there.
#[derive(Clone, Copy)]
struct Round {
    class: ClassId,
    context: Context,
}

fn round_of(sites: &Sites, class: ClassId) -> Option<Round>
    ensures round { (site_at (source_of sites.now).sites class.0).spot.round ≡
        round_from (source_of sites.now).sites (class_in result) }
    ensures context { ForSome result (λ r. context_view r.context ≡
        (site_at (source_of sites.now).sites class.0).spot.context) }
    ensures earlier { ForSome result (λ r. r.class.0 < class.0) }
{
    let outside = sites.outside(class);
    match outside.within {
        Some(class) => Some(Round {
            class,
            context: outside.context,
        }),
        None => None,
    }
}

// The body of a class that a member class of it stands in.
fn member_body(alloc: Global, round: Round) -> Frame
    ensures { frame_seen result ≡ body_seen round }
{
    Frame {
        class: round.class,
        locals: Vec::new(alloc),
        local_classes: Vec::new(alloc),
        context: round.context,
        initializer: None,
    }
}

// The bodies round a class where no locals are known.
#[tactic(auto, using(crate::proofs::Outwards::goes_on))]
fn round_without_locals(alloc: Global, sites: &Sites, class: ClassId) -> Result<Vec<Frame>, Memory>
    ensures { IfOk result (λ bodies. map frame_seen bodies.items ≡
        the_round_without_locals (source_of sites.now).sites class.0) }
{
    let mut bodies = Vec::new(alloc);
    let mut here = class;
    while let Some(round) = round_of(sites, here) {
        bodies.push(member_body(alloc, round))?;
        here = round.class;
    }
    Ok(bodies)
}

// The bodies of a scope behind others.
fn add_scope(alloc: Global, scope: &Standing, bodies: &mut Vec<Frame>) -> Result<(), Memory>
    ensures { OnOk result (map frame_seen bodies.new.items ≡
        map frame_seen bodies.old.items ++ frame_seen scope.now.here ∷ map frame_seen scope.now.round.items) }
{
    bodies.push(copied_frame(alloc, &scope.here)?)?;
    for frame in &scope.round {
        bodies.push(copied_frame(alloc, frame)?)?;
    }
    Ok(())
}

// The bodies of the scope in which a class stands, behind others.
fn add_met(alloc: Global, met: &Met, bodies: &mut Vec<Frame>) -> Result<(), Memory>
    ensures { OnOk result (map frame_seen bodies.new.items ≡
        map frame_seen bodies.old.items ++ frames_met (met_seen met.now)) }
{
    match met {
        Met::Stands { scope, .. } | Met::StandsBehindNew { scope, .. } => {
            add_scope(alloc, scope, bodies)
        }
        Met::Captures { .. } | Met::Makes { .. } => Ok(()),
    }
}

// The same of a class that stands in no body itself.
#[tactic(auto, using(crate::proofs::Outwards::further, crate::proofs::Outwards::stops))]
fn member_round(sites: &Sites, class: ClassId) -> Option<Round>
    ensures steps { (given : List TheFrame) → the_round_class (source_of sites.now).sites given class.0 ≡
        round_behind (source_of sites.now).sites given result }
    ensures earlier { ForSome result (λ r. r.class.0 < class.0) }
{
    if is_local(sites.sort(class)) {
        return None;
    }
    round_of(sites, class)
}

// The bodies round a class, where it is told in which the class stands that is in a body.
#[tactic(auto, unfolding(class_typing::specs::Places::round_class))]
fn round_class(
    alloc: Global,
    sites: &Sites,
    class: ClassId,
    met: &Met,
) -> Result<Vec<Frame>, Memory>
    ensures { IfOk result (λ bodies. map frame_seen bodies.items ≡
        the_round_class (source_of sites.now).sites (frames_met (met_seen met.now)) class.0) }
{
    let mut bodies = Vec::new(alloc);
    let mut here = class;
    while let Some(round) = member_round(sites, here) {
        bodies.push(member_body(alloc, round))?;
        here = round.class;
    }
    add_met(alloc, met, &mut bodies)?;
    Ok(bodies)
}

/// The bodies round a class, the innermost first, by what was met.
#[tactic(auto, unfolding(class_typing::specs::Places::round_met))]
pub fn round_met(
    alloc: Global,
    sites: &Sites,
    stands: &Stands,
    met: &[Met],
    class: ClassId,
) -> Result<Vec<Frame>, Memory>
    requires { AreFirst (length (source_of sites.now).sites) (map met_seen met.now) stands.now }
    ensures { IfOk result (λ bodies. map frame_seen bodies.items ≡
        the_round_met (source_of sites.now).sites (map met_seen met.now) class.0) }
{
    match placed_by(sites, stands, met, class) {
        Some(met) => round_class(alloc, sites, class, met),
        None => round_without_locals(alloc, sites, class),
    }
}
