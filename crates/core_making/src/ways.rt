// The ways outwards to the instances round a class and those above it (JLS 8.1.3, 8.8.7.1).

ghost use Rattle.std.specs.Prelude.{◌≡◌, ◌++◌, IfOk, OnOk, Some, length, map, option_map};
ghost use Rattle.call_typing.specs.Creations.{is_round as the_is_round};
ghost use Rattle.class_typing.specs.Captures.{way_until};
ghost use Rattle.name_typing.specs.Program.{frames};
ghost use Rattle.body_places.specs.Places.{frame_seen, place_seen};
ghost use Rattle.body_places.specs.View.{program_seen};
ghost use Rattle.core_making.specs.Known.{captured_seen, round_seen};
ghost use Rattle.core_making.specs.way.Seen.{above_seen};
ghost use Rattle.core_making.specs.way.Upwards.{upwards as the_upwards, way_above};

use crate::known::{Known, bodies_round};
use crate::program_classes::superclass;
use body_places::{Frame, Place, Program, outer_of};
use enclosing_instances::is_round;
use je_base::Memory;
use je_core::ClassId;

/// A class, and the way from an instance outwards to the one round it, by the fields that lead there.
#[derive(Drop)]
pub struct Above {
    pub class: ClassId,
    pub way: Vec<(ClassId, u32)>,
}

// From these bodies outwards to the first round a class.
fn add_way(
    program: &Program,
    known: Known,
    class: ClassId,
    frames: &[Frame],
    way: &mut Vec<(ClassId, u32)>,
) -> Result<(), Memory>
    ensures { OnOk result (way.new.items ≡ way.old.items ++ way_until (program_seen program.now)
        (captured_seen known.entry.captured.now) (round_seen known.entry.round.now)
        (the_is_round (program_seen program.now) class.0) (map frame_seen frames.now)) }
{
    for frame in frames {
        if is_round(program, class, frame)? {
            return Ok(());
        }
        way.push((frame.class, outer_of(program.outer, frame.class)))?;
    }
    Ok(())
}

// The same from a place.
fn way_from(
    program: &Program,
    known: Known,
    place: Place,
    class: ClassId,
) -> Result<Vec<(ClassId, u32)>, Memory>
    ensures { IfOk result (λ way. way.items ≡ way_until (program_seen program.now)
        (captured_seen known.entry.captured.now) (round_seen known.entry.round.now)
        (the_is_round (program_seen program.now) class.0) (frames (place_seen place.entry))) }
{
    let mut way = Vec::new(program.source.alloc);
    if is_round(program, class, place.here)? {
        return Ok(way);
    }
    let here = place.here.class;
    way.push((here, outer_of(program.outer, here)))?;
    add_way(program, known, class, place.round, &mut way)?;
    Ok(way)
}

// From the instance round a class on to the one round the class above it.
fn way_on(
    program: &Program,
    known: Known,
    class: ClassId,
    above: Option<ClassId>,
    way: &[(ClassId, u32)],
) -> Result<Vec<(ClassId, u32)>, Memory>
    ensures { IfOk result (λ further. further.items ≡ way.now ++
        way_above (program_seen program.now) (captured_seen known.entry.captured.now)
        (round_seen known.entry.round.now) class.0 (option_map (λ (c : ClassId). c.0) above)) }
{
    let mut further = Vec::new(program.source.alloc);
    further.extend_from_slice(way)?;
    if let Some(above) = above {
        add_way(
            program,
            known,
            above,
            bodies_round(known, class),
            &mut further,
        )?;
    }
    Ok(further)
}

/// The classes of the program from one upwards, each with the way from a place to the instance round it.
pub fn upwards(
    program: &Program,
    known: Known,
    place: Place,
    class: ClassId,
) -> Result<Vec<Above>, Memory>
    ensures { IfOk result (λ all. map above_seen all.items ≡
        the_upwards (program_seen program.now) (captured_seen known.entry.captured.now)
        (round_seen known.entry.round.now) (length (program_seen program.now).source.sites)
        (Some class.0) (way_until (program_seen program.now)
        (captured_seen known.entry.captured.now) (round_seen known.entry.round.now)
        (the_is_round (program_seen program.now) class.0) (frames (place_seen place.entry)))) }
{
    let mut all = Vec::new(program.source.alloc);
    let mut way = way_from(program, known, place, class)?;
    let mut next = Some(class);
    let mut left = program.source.sites.len();
    while left > 0 {
        let Some(class) = next else {
            return Ok(all);
        };
        next = superclass(program, known, class);
        let further = way_on(program, known, class, next, &way)?;
        all.push(Above { class, way })?;
        way = further;
        left -= 1;
    }
    Ok(all)
}
