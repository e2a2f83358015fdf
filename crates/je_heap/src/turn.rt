// What writes have replaced since a turn began.

ghost use Rattle.std.specs.Prelude.{◌≡◌, ◌∷◌, ◌++◌, OnOk, OnErr, Some, length, nat_lt, option_map};
ghost use Rattle.je_java.specs.World.{units_of, with_units_at};
ghost use Rattle.je_heap.specs.Growing.{lengthened};
ghost use Rattle.je_heap.specs.Shape.{IsBuilder};
ghost use Rattle.je_heap.specs.Turns.{length_noted, slot_noted, turn_from, units_noted, variable_noted};
ghost use Rattle.je_heap.specs.way.Journals.{LeavesLast};

use crate::objects::Objects;
use crate::text::Text;
use je_core::{Memory, ObjId, Value};
use std::alloc::Global;
use std::marker::Model;

/// What a write replaced.
#[derive(Drop)]
pub enum Saved {
    /// The old value of a slot of an object.
    Slot(ObjId, u64, Value),
    /// The old units of a builder.
    Units(ObjId, Text),
    /// How many units a builder had before others were put behind them.
    Length(ObjId, usize),
    /// The old value of a class variable.
    Variable(u32, Value),
}

/// A turn that has begun and not ended.
#[derive(Drop)]
pub struct Turn {
    made_before: usize,
    journal: Vec<Saved>,
}

impl Model for Turn {
    ghost use Rattle.je_heap.specs.Turns.{Turn as TheTurn};

    ghost Value = { TheTurn };

    ghost view = { λ t. record { made_before = t.made_before; journal = t.journal.items } };
}

impl Turn {
    /// A turn that begins where there are so many objects.
    pub fn new(alloc: Global, made_before: usize) -> Turn
        ensures { result ≡ turn_from made_before }
    {
        Turn {
            made_before,
            journal: Vec::new(alloc),
        }
    }

    /// How many objects there were when it began.
    pub fn made_before(&self) -> usize
        ensures { result ≡ self.now.made_before }
    {
        self.made_before
    }

    // Whether an object was there before the turn.
    fn was_there(&self, id: ObjId) -> bool
        ensures { result ≡ nat_lt id.0 self.now.made_before }
    {
        id.0 < self.made_before as u64
    }

    /// How many writes it has noted.
    pub fn saved(&self) -> u64
        ensures { result ≡ length self.now.journal }
    {
        self.journal.len() as u64
    }

    /// Notes what a write to a slot replaces, where the object was there before the turn.
    pub fn note_slot(&mut self, id: ObjId, at: u64, old: Value) -> Result<(), Memory>
        ensures ok { OnOk result (self.new ≡ slot_noted id at (Some old) self.old) }
        ensures err { OnErr result (self.new ≡ self.old) }
    {
        if self.was_there(id) {
            self.journal.push(Saved::Slot(id, at, old))?;
        }
        Ok(())
    }

    /// Puts units into a builder in place of its own, and notes those, where the builder was there before the turn.
    pub fn put_units(&mut self, objects: &mut Objects, id: ObjId, units: Text) -> Result<(), Memory>
        requires { IsBuilder objects.old id.0 }
        ensures ok { OnOk result (self.new ≡ units_noted id (units_of objects.old id.0) self.old) }
        ensures put { OnOk result (objects.new ≡ with_units_at objects.old id.0 units) }
        ensures err { OnErr result (self.new ≡ self.old) }
        ensures left { OnErr result (objects.new ≡ objects.old) }
    {
        if self.was_there(id) {
            self.journal.reserve(1)?;
            let old = objects.put_units(id, units);
            let _ = self.journal.push(Saved::Units(id, old));
        } else {
            let _ = objects.put_units(id, units);
        }
        Ok(())
    }

    /// Puts units behind those of a builder, and notes how many it had, where it was there before the turn.
    pub fn lengthen(&mut self, objects: &mut Objects, id: ObjId, more: &[u16]) -> Result<(), Memory>
        requires { IsBuilder objects.old id.0 }
        ensures ok { OnOk result
            (self.new ≡ length_noted id (option_map length (units_of objects.old id.0)) self.old) }
        ensures put { OnOk result (objects.new ≡ lengthened objects.old id.0 more.now) }
        ensures err { OnErr result (self.new ≡ self.old) }
        ensures left { OnErr result (objects.new ≡ objects.old) }
    {
        if self.was_there(id) {
            self.journal.reserve(1)?;
            let count = objects.lengthen(id, more)?;
            let _ = self.journal.push(Saved::Length(id, count));
        } else {
            objects.lengthen(id, more)?;
        }
        Ok(())
    }

    /// Notes what a write to a class variable replaces.
    pub fn note_variable(&mut self, at: u32, old: Value) -> Result<(), Memory>
        ensures ok { OnOk result (self.new ≡ variable_noted at (Some old) self.old) }
        ensures err { OnErr result (self.new ≡ self.old) }
    {
        self.journal.push(Saved::Variable(at, old))?;
        Ok(())
    }

    /// Takes what was noted last, where anything is left.
    pub fn pop(&mut self) -> Option<Saved>
        ensures { LeavesLast self.old result self.new }
    {
        self.journal.pop()
    }
}
