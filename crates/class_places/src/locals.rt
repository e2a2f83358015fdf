// The locals that each class captures, in the order of their declarations.

ghost use Rattle.std.specs.Prelude.{◌≡◌, ℕ, ◌<◌, ◌++◌, IfOk, OnOk, filter, length, map};
ghost use Rattle.class_typing.specs.Captures.{captured_locals as the_captured_locals, reversed};
ghost use Rattle.body_places.specs.Places.{frame_seen, local_seen};
ghost use Rattle.body_places.specs.View.{program_seen};
ghost use Rattle.body_walks.specs.Known.{captured_local_seen, captured_seen, round_seen};
ghost use Rattle.body_walks.specs.Seen.{met_seen};
ghost use Rattle.class_places.specs.way.Locals.{is_kept, locals_from, own};

use crate::kept::{Kept, all_kept};
use body_places::{Frame, LocalVariable, Program};
use body_walks::{CapturedLocal, Met, copied_local};
use indexmap::IndexSet;
use je_base::Memory;
use je_core::ClassId;
use std::alloc::Global;

// Those of a body.
fn add_locals(
    alloc: Global,
    all: &IndexSet<Kept>,
    class: ClassId,
    owner: ClassId,
    variables: &[LocalVariable],
    locals: &mut Vec<CapturedLocal>,
) -> Result<(), Memory>
    ensures { OnOk result (map captured_local_seen locals.new.items ≡
        map captured_local_seen locals.old.items ++ filter (is_kept all.now.keys class.0)
        (map (own owner.0) (reversed (map local_seen variables.now)))) }
{
    let mut left = variables.len();
    while left > 0 {
        left -= 1;
        let variable = &variables[left];
        let kept = Kept {
            class,
            owner,
            local: variable.number,
        };
        if all.contains(&kept) {
            let variable = copied_local(alloc, variable)?;
            locals.push(CapturedLocal { owner, variable })?;
        }
    }
    Ok(())
}

// Those of the bodies round a class.
fn locals_of(
    alloc: Global,
    all: &IndexSet<Kept>,
    class: ClassId,
    round: &[Frame],
) -> Result<Vec<CapturedLocal>, Memory>
    ensures { IfOk result (λ locals. map captured_local_seen locals.items ≡
        filter (is_kept all.now.keys class.0) (locals_from (map frame_seen round.now))) }
{
    let mut locals = Vec::new(alloc);
    let mut left = round.len();
    while left > 0 {
        left -= 1;
        let frame = &round[left];
        add_locals(alloc, all, class, frame.class, &frame.locals, &mut locals)?;
    }
    Ok(locals)
}

fn round_of(round: &[Vec<Frame>], class: ClassId) -> &[Frame]
    ensures { map frame_seen result.now ≡ round_seen round.now class.0 }
{
    match round.get(class.0 as usize) {
        Some(frames) => frames,
        None => &[],
    }
}

// Those of each class.
fn all_locals(
    program: &Program,
    all: &IndexSet<Kept>,
    round: &[Vec<Frame>],
) -> Result<Vec<Vec<CapturedLocal>>, Memory>
    ensures whole { IfOk result (λ lists. length lists.items ≡
        length (program_seen program.now).source.sites) }
    ensures each { IfOk result
        (λ lists. (c : ℕ) → c < length (program_seen program.now).source.sites →
        captured_seen lists.items c ≡
        filter (is_kept all.now.keys c) (locals_from (round_seen round.now c))) }
{
    let alloc = program.source.alloc;
    let mut lists = Vec::new(alloc);
    for at in 0..program.source.sites.len() {
        let class = ClassId(at as u32);
        lists.push(locals_of(alloc, all, class, round_of(round, class))?)?;
    }
    Ok(lists)
}

/// The locals that each class captures, by what was met in all bodies and the bodies round each class.
pub fn captured_locals(
    program: &Program,
    met: &[Met],
    round: &[Vec<Frame>],
) -> Result<Vec<Vec<CapturedLocal>>, Memory>
    ensures { IfOk result (λ lists. (c : ℕ) → captured_seen lists.items c ≡
        the_captured_locals (program_seen program.now) (map met_seen met.now)
        (round_seen round.now) c) }
{
    let all = all_kept(program, met)?;
    let lists = all_locals(program, &all, round)?;
    Ok(lists)
}
