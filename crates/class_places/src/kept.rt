// The locals that classes capture, by their numbers.

ghost use Rattle.std.specs.Prelude.{◌≡◌, IfOk, OnOk, length, map, nat_eq};
ghost use Rattle.std.specs.List.{list_any};
ghost use Rattle.je_scopes.specs.Headers.{site_at};
ghost use Rattle.name_lookup.specs.View.{numbers};
ghost use Rattle.body_places.specs.View.{program_seen};
ghost use Rattle.body_walks.specs.Seen.{met_seen};
ghost use Rattle.class_places.specs.way.Kept.{AreAll, Gains, Is, IsDirect, IsHandedOn, IsHandedTo};

use crate::users::{Users, all_users};
use body_places::Program;
use body_walks::Met;
use indexmap::IndexSet;
use je_base::Memory;
use je_core::ClassId;

/// A local of a body of a class, and a class inside that body which captures it.
#[derive(Clone, Copy, PartialEq, Eq, Hash)]
pub struct Kept {
    pub class: ClassId,
    pub owner: ClassId,
    pub local: u32,
}

// Whether a body of another class is outside a class.
fn is_outside(program: &Program, class: ClassId, owner: ClassId) -> bool
    ensures { result ≡ list_any (nat_eq owner.0)
        (site_at (program_seen program.now).source.sites class.0).spot.round }
{
    let sites = program.source.sites;
    let mut next = sites.outside(class).within;
    while let Some(round) = next {
        if owner.0 == round.0 {
            return true;
        }
        next = sites.outside(round).within;
    }
    false
}

// A local that a class captures if it is from outside that.
fn add(program: &Program, one: Kept, all: &mut IndexSet<Kept>) -> Result<(), Memory>
    ensures { OnOk result (Gains (program_seen program.now) (Is one) all.old.keys
        all.new.keys) }
{
    if is_outside(program, one.class, one.owner) {
        all.insert(one)?;
    }
    Ok(())
}

// What bodies name themselves.
fn add_direct(program: &Program, met: &[Met], all: &mut IndexSet<Kept>) -> Result<(), Memory>
    ensures { OnOk result (Gains (program_seen program.now) (IsDirect (map met_seen met.now))
        all.old.keys all.new.keys) }
{
    for one in met {
        if let Met::Captures {
            within,
            owner,
            local,
        } = one
        {
            let kept = Kept {
                class: *within,
                owner: *owner,
                local: *local,
            };
            add(program, kept, all)?;
        }
    }
    Ok(())
}

// What these capture by what another class does.
fn add_users(
    program: &Program,
    users: &[ClassId],
    one: Kept,
    all: &mut IndexSet<Kept>,
) -> Result<(), Memory>
    ensures { OnOk result (Gains (program_seen program.now)
        (IsHandedTo (numbers users.now) one) all.old.keys all.new.keys) }
{
    for user in users {
        let kept = Kept {
            class: *user,
            owner: one.owner,
            local: one.local,
        };
        add(program, kept, all)?;
    }
    Ok(())
}

// One step further from those behind a place.
fn add_step(
    program: &Program,
    users: &Users,
    start: usize,
    all: &mut IndexSet<Kept>,
) -> Result<(), Memory>
    ensures { OnOk result (Gains (program_seen program.now)
        (IsHandedOn users.now all.old.keys start (length all.old.keys)) all.old.keys
        all.new.keys) }
{
    for at in start..all.len() {
        if let Some(one) = all.get_index(at).copied() {
            add_users(program, users.of(one.class), one, all)?;
        }
    }
    Ok(())
}

/// All that classes capture.
pub fn all_kept(program: &Program, met: &[Met]) -> Result<IndexSet<Kept>, Memory>
    ensures { IfOk result
        (λ all. AreAll (program_seen program.now) (map met_seen met.now) all.keys) }
{
    let users = all_users(program, met)?;
    let mut all = IndexSet::new(program.source.alloc);
    add_direct(program, met, &mut all)?;
    let mut start = 0;
    for _ in 1..program.source.sites.len() {
        let last = all.len();
        if start == last {
            return Ok(all);
        }
        add_step(program, &users, start, &mut all)?;
        start = last;
    }
    Ok(all)
}
