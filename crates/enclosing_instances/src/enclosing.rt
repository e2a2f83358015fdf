// The instance round a new object of an inner class (JLS 8.1.3, 8.8.7.1, 15.9.2).

ghost use Rattle.std.specs.Prelude.{◌≡◌, [], IfOk, Some, map};
ghost use Rattle.call_typing.specs.Creations.{has_enclosing as the_has_enclosing, has_round as the_has_round, is_class as the_is_class, is_inner as the_is_inner, is_member_of as the_is_member_of, is_round as the_is_round};
ghost use Rattle.je_scopes.specs.Scope.{same_place as the_same_place};
ghost use Rattle.name_lookup.specs.View.{look_view};
ghost use Rattle.name_sites.specs.Number.{number_in};
ghost use Rattle.name_types.specs.View.{shown};
ghost use Rattle.name_typing.specs.Program.{frames};
ghost use Rattle.body_places.specs.Places.{frame_seen, place_seen};
ghost use Rattle.body_places.specs.View.{program_seen};
ghost use Rattle.enclosing_instances.specs.way.Rounds.{first_round as the_first_round};

use body_places::{Frame, Place, Program, has_instance, is_instance};
use header_steps::class_of;
use je_base::Memory;
use je_core::ClassId;
use name_lookup::Look;
use name_sites::is_local;
use name_types::SrcTy;

/// Whether the objects of a class have an instance round them.
pub fn is_inner(program: &Program, class: ClassId) -> bool
    ensures { result ≡ the_is_inner (program_seen program.now) class.0 }
{
    is_instance(program.source.sites.outside(class).context)
}

fn is_class(class: ClassId, look: Look) -> bool
    ensures { result ≡ the_is_class class.0 (look_view look) }
{
    match look {
        Look::Class(found) => class.0 == found.0,
        Look::Waits(_) => false,
        Look::Nothing => false,
        Look::Variable(_, _) => false,
        Look::Unclear => false,
    }
}

// Whether a class is a member of another one, which declares or inherits it.
fn is_member_of(program: &Program, class: ClassId, of: ClassId) -> Result<bool, Memory>
    ensures { IfOk result (λ is_so. is_so ≡
        the_is_member_of (program_seen program.now) class.0 of.0) }
{
    let source = program.source;
    match source.sites.name(class) {
        Some(name) => {
            let look = source
                .headers
                .member_class(source.alloc, source.sites, of, name)?;
            Ok(is_class(class, look))
        }
        None => Ok(false),
    }
}

fn is_within(within: Option<ClassId>, class: ClassId) -> bool
    ensures { result ≡ the_same_place (number_in within) (Some class.0) }
{
    match within {
        Some(within) => within.0 == class.0,
        None => false,
    }
}

/// Whether a body is of a class that a class is local in, or a member of.
pub fn is_round(program: &Program, class: ClassId, frame: &Frame) -> Result<bool, Memory>
    ensures { IfOk result (λ is_so. is_so ≡
        the_is_round (program_seen program.now) class.0 (frame_seen frame.now)) }
{
    let sites = program.source.sites;
    if is_local(sites.sort(class)) {
        return Ok(is_within(sites.outside(class).within, frame.class));
    }
    is_member_of(program, class, frame.class)
}

// How many classes outwards the innermost such body stands, of those behind the first.
fn first_further(
    program: &Program,
    class: ClassId,
    round: &[Frame],
) -> Result<Option<usize>, Memory>
    ensures { IfOk result (λ first. first ≡ the_first_round
        (program_seen program.now) class.0 1 (map frame_seen round.now)) }
{
    for (at, frame) in round.iter().enumerate() {
        if is_round(program, class, frame)? {
            return Ok(Some(at + 1));
        }
    }
    Ok(None)
}

fn first_round(program: &Program, class: ClassId, place: Place) -> Result<Option<usize>, Memory>
    ensures { IfOk result (λ first. first ≡ the_first_round
        (program_seen program.now) class.0 0 (frames (place_seen place.entry))) }
{
    if is_round(program, class, place.here)? {
        return Ok(Some(0));
    }
    let first = first_further(program, class, place.round)?;
    Ok(first)
}

// Whether there is the instance that objects of a class need round them.
#[tactic(auto, using(crate::proofs::Rounds::by_first))]
fn has_round(program: &Program, class: ClassId, place: Place) -> Result<bool, Memory>
    ensures { IfOk result (λ has. has ≡
        the_has_round (program_seen program.now) class.0 (frames (place_seen place.entry))) }
{
    if !is_inner(program, class) {
        return Ok(true);
    }
    match first_round(program, class, place)? {
        Some(steps) => Ok(has_instance(place, steps)),
        None => Ok(false),
    }
}

/// The same of a class type, at a place.
#[tactic(auto, using(crate::proofs::Rounds::enclosing_by_class))]
pub fn has_enclosing(program: &Program, ty: &SrcTy, place: Place) -> Result<bool, Memory>
    ensures { IfOk result (λ has. has ≡
        the_has_enclosing (program_seen program.now) (shown ty.now) (frames (place_seen place.entry))) }
{
    match class_of(ty) {
        Some(class) => has_round(program, class, place),
        None => Ok(true),
    }
}

/// The same among the bodies round the class of a place alone.
pub fn has_enclosing_round(program: &Program, ty: &SrcTy, place: Place) -> Result<bool, Memory>
    ensures { IfOk result (λ has. has ≡
        the_has_enclosing (program_seen program.now) (shown ty.now) (place_seen place.entry).round) }
{
    match place.round.split_first() {
        Some((here, round)) => has_enclosing(program, ty, Place { here, round }),
        None => has_enclosing_nowhere(program, ty),
    }
}

// The same where no body stands.
#[tactic(auto, using(crate::proofs::Rounds::enclosing_by_class))]
fn has_enclosing_nowhere(program: &Program, ty: &SrcTy) -> Result<bool, Memory>
    ensures { IfOk result (λ has. has ≡
        the_has_enclosing (program_seen program.now) (shown ty.now) []) }
{
    match class_of(ty) {
        Some(class) => Ok(!is_inner(program, class)),
        None => Ok(true),
    }
}
