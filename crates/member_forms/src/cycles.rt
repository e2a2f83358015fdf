// Calls between the constructors of a class, which a table has by the places of the constructors.

ghost use Rattle.std.specs.Prelude.{◌≡◌, ◌<◌, ℕ, IfOk, IfErr, OnOk, length, map, nat_eq, option_map};
ghost use Rattle.std.specs.List.{find};
ghost use Rattle.je_typing.specs.Answers.{IsFault};
ghost use Rattle.je_typing.specs.Judged.{gives};
ghost use Rattle.class_typing.specs.Constructors.{call_at, no_cycle as the_no_cycle};
ghost use Rattle.member_forms.specs.Calls.{called_in, leads_back_by, leads_by, or_called, own_call_seen, to_of};

use je_base::{Memory, Span};
use je_typing::{Refusal, TypeFault, TypeRule};
use std::alloc::Global;

/// A constructor, by its place in its class, that calls another one of the class by a word `this`.
#[derive(Clone, Copy, PartialEq, Eq)]
pub struct OwnCall {
    pub place: usize,
    pub word: Span,
    pub to: usize,
}

// Makes a place of a table, with nothing at those that are new.
fn reach(table: &mut Vec<Option<usize>>, place: usize) -> Result<(), Memory>
    ensures there { OnOk result (place < length table.new.items) }
    ensures same { OnOk result ((n : ℕ) → called_in table.new.items n ≡
        called_in table.old.items n) }
{
    while table.len() <= place {
        table.push(None)?;
    }
    Ok(())
}

// One call more, where a constructor has none yet.
fn add_call(table: &mut Vec<Option<usize>>, place: usize, to: usize) -> Result<(), Memory>
    ensures { OnOk result ((n : ℕ) → called_in table.new.items n ≡
        or_called (called_in table.old.items n) (nat_eq place n) to) }
{
    reach(table, place)?;
    if table[place].is_none() {
        table[place] = Some(to);
    }
    Ok(())
}

// Of each constructor the one that it calls first.
fn table_of(alloc: Global, calls: &[OwnCall]) -> Result<Vec<Option<usize>>, Memory>
    ensures { IfOk result (λ table. (n : ℕ) → called_in table.items n ≡
        to_of (call_at (map own_call_seen calls.now) n)) }
{
    let mut table = Vec::new(alloc);
    for call in calls {
        add_call(&mut table, call.place, call.to)?;
    }
    Ok(table)
}

fn called(table: &[Option<usize>], place: usize) -> Option<usize>
    ensures { result ≡ called_in table.now place }
{
    *table.get(place)?
}

// Whether a constructor leads back to itself by so many calls at most.
fn leads_back(table: &[Option<usize>], count: usize, place: usize) -> bool
    ensures { result ≡ leads_by (called_in table.now) count place place }
{
    let mut at = place;
    for _ in 0..count {
        let Some(to) = called(table, at) else {
            return false;
        };
        if to == place {
            return true;
        }
        at = to;
    }
    false
}

// The first call of a constructor that leads back to itself.
fn first_back(table: &[Option<usize>], calls: &[OwnCall]) -> Option<OwnCall>
    ensures { option_map own_call_seen result ≡
        find (leads_back_by (called_in table.now) (length calls.now))
        (map own_call_seen calls.now) }
{
    for call in calls {
        if leads_back(table, calls.len(), call.place) {
            return Some(*call);
        }
    }
    None
}

/// No constructor leads back to itself, of which these are all calls of another one of the class; else the fault at the first such
/// call. It costs the product of how many calls there are and of how many lead on from one, and room for the greatest place.
#[tactic(auto, using(je_typing::proofs::Walks::walks))]
pub fn no_cycle(alloc: Global, calls: &[OwnCall]) -> Result<(), Refusal>
    ensures ok { OnOk result (the_no_cycle (map own_call_seen calls.now) ≡ gives tt) }
    ensures err { IfErr result (IsFault (the_no_cycle (map own_call_seen calls.now))) }
{
    let table = table_of(alloc, calls)?;
    match first_back(&table, calls) {
        None => Ok(()),
        Some(call) => Err(Refusal::Fault(TypeFault {
            rule: TypeRule::CtorCycle,
            span: call.word,
        })),
    }
}
