// What a new object gets from round its class (JLS 8.1.3, 8.8.7.1, 15.9.2).

ghost use Rattle.std.specs.Prelude.{◌≡◌, ◌+◌, ◌++◌, IfOk, None, OnOk, map, nat_eq};
ghost use Rattle.class_typing.specs.Captures.{guest_captures as the_guest_captures, local_captures, own_captures, own_or_kept as the_own_or_kept};
ghost use Rattle.je_core.specs.View.{capture_view};
ghost use Rattle.body_places.specs.Places.{place_seen};
ghost use Rattle.body_places.specs.View.{program_seen};
ghost use Rattle.core_making.specs.Known.{captured_local_seen, captured_seen, known_seen, round_seen};
ghost use Rattle.core_making.specs.way.Seen.{above_seen};
ghost use Rattle.core_making.specs.way.Upwards.{captures_of as the_captures_of};

use crate::known::{CapturedLocal, Known, captured_by};
use crate::ways::{Above, upwards};
use body_places::{Place, Program, captured_of, outer_of};
use enclosing_instances::is_inner;
use je_base::Memory;
use je_core::{Capture, ClassId};
use name_walk::Written;

// The number of a hidden field, behind so many. No memory holds more of them than a number can name.
fn field_behind(first: u32, at: usize) -> Result<u32, Memory>
    ensures { IfOk result (λ n. n ≡ first + at) }
{
    let Ok(at) = u32::try_from(at) else {
        return Err(Memory);
    };
    match first.checked_add(at) {
        Some(field) => Ok(field),
        None => Err(Memory),
    }
}

// A local of the body itself, or what the class of the body keeps of one further out.
fn own_or_kept(
    program: &Program,
    known: Known,
    place: Place,
    local: &CapturedLocal,
    class: ClassId,
    field: u32,
) -> Result<Capture, Memory>
    ensures { IfOk result (λ c. capture_view c ≡ the_own_or_kept (program_seen program.now)
        (captured_seen known.entry.captured.now) (round_seen known.entry.round.now)
        (place_seen place.entry) (captured_local_seen local.now)
        (nat_eq (place_seen place.entry).here.class local.now.owner.0) class field) }
{
    let here = place.here.class;
    let number = local.variable.number;
    let mut path = Vec::new(program.source.alloc);
    if here.0 == local.owner.0 {
        return Ok(Capture {
            class,
            field,
            local: Some(number),
            path,
        });
    }
    path.push((here, captured_of(program, here, local.owner, number)))?;
    Ok(Capture {
        class,
        field,
        local: None,
        path,
    })
}

// What the fields of a class with the values of locals begin with, behind so many fields.
fn add_locals(
    program: &Program,
    known: Known,
    place: Place,
    class: ClassId,
    first: u32,
    captures: &mut Vec<Capture>,
) -> Result<(), Memory>
    ensures { OnOk result (map capture_view captures.new.items ≡
        map capture_view captures.old.items ++ local_captures (program_seen program.now)
        (captured_seen known.entry.captured.now) (round_seen known.entry.round.now)
        (place_seen place.entry) class.0 first
        (captured_seen known.entry.captured.now class.0)) }
{
    let locals = captured_by(known, class);
    for (at, local) in locals.iter().enumerate() {
        let field = field_behind(first, at)?;
        captures.push(own_or_kept(program, known, place, local, class, field)?)?;
    }
    Ok(())
}

// What the field with the instance round an object begins with.
fn outer_capture(
    program: &Program,
    class: ClassId,
    way: &[(ClassId, u32)],
) -> Result<Capture, Memory>
    ensures { IfOk result (λ c. capture_view c ≡ record {
      class = class;
      field = (program_seen program.now).outer class.0;
      local = None;
      path = way.now;
    }) }
{
    let mut path = Vec::new(program.source.alloc);
    path.extend_from_slice(way)?;
    Ok(Capture {
        class,
        field: outer_of(program.outer, class),
        local: None,
        path,
    })
}

// What the hidden fields of a class begin with.
fn add_own(
    program: &Program,
    known: Known,
    place: Place,
    above: &Above,
    captures: &mut Vec<Capture>,
) -> Result<(), Memory>
    ensures { OnOk result (map capture_view captures.new.items ≡
        map capture_view captures.old.items ++ own_captures (program_seen program.now)
        (captured_seen known.entry.captured.now) (round_seen known.entry.round.now)
        (place_seen place.entry) above.now.class.0 above.now.way.items) }
{
    let class = above.class;
    if !is_inner(program, class) {
        return add_locals(program, known, place, class, 0, captures);
    }
    captures.push(outer_capture(program, class, &above.way)?)?;
    add_locals(program, known, place, class, 1, captures)
}

// The same of these classes, the last of them first.
fn captures_of(
    program: &Program,
    known: Known,
    place: Place,
    all: &[Above],
) -> Result<Vec<Capture>, Memory>
    ensures { IfOk result (λ cs. map capture_view cs.items ≡
        the_captures_of (program_seen program.now) (captured_seen known.entry.captured.now)
        (round_seen known.entry.round.now) (place_seen place.entry) (map above_seen all.now)) }
{
    let mut captures = Vec::new(program.source.alloc);
    let mut at = all.len();
    while at > 0 {
        at -= 1;
        add_own(program, known, place, &all[at], &mut captures)?;
    }
    Ok(captures)
}

#[tactic(auto, using(crate::proofs::Upwards::class_by_class))]
fn guest_captures(
    program: &Program,
    known: Known,
    place: Place,
    class: ClassId,
) -> Result<Vec<Capture>, Memory>
    ensures { IfOk result (λ cs. map capture_view cs.items ≡
        the_guest_captures (program_seen program.now) (captured_seen known.entry.captured.now)
        (round_seen known.entry.round.now) (place_seen place.entry) class.0) }
{
    let all = upwards(program, known, place, class)?;
    let captures = captures_of(program, known, place, &all)?;
    Ok(captures)
}

/// What a new object of a class gets from round it at a place: of each class of the program from the highest above it down the
/// instance round that class, and then the locals that it captures. Nothing for a class of the library.
#[tactic(auto, unfolding(crate::specs::Known::known_seen, class_typing::specs::Captures::captures))]
pub fn captures_for(
    program: &Program,
    known: Known,
    place: Place,
    class: ClassId,
) -> Result<Vec<Capture>, Memory>
    ensures { IfOk result (λ cs. map capture_view cs.items ≡
        (known_seen (program_seen program.now) known.entry).captures (place_seen place.entry)
        class.0) }
{
    match program.source.sites.written(class) {
        Written::Library => Ok(Vec::new(program.source.alloc)),
        Written::Declared { .. } | Written::Anonymous { .. } => {
            guest_captures(program, known, place, class)
        }
    }
}
