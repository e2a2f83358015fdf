// Where the fields of a program's classes stand.

ghost use Rattle.std.specs.Prelude.{◌≡◌};
ghost use Rattle.je_core.specs.View.{program_view};
ghost use Rattle.class_tables.specs.FieldTables.{IsFieldTableOf};

use crate::by_class::known_above;
use crate::fields::{before, statics, totals};
use crate::order::in_order;
use class_members::field_at;
use je_core::{ClassId, Memory, Program};
use std::alloc::Global;

/// Where the fields of each class of a program stand: the slots of instance fields, and the places of static ones.
#[derive(Drop)]
pub struct FieldTable {
    totals: Vec<usize>,
    before: Vec<Vec<usize>>,
    statics: Vec<usize>,
}

impl FieldTable {
    ghost use Rattle.std.specs.Prelude.{◌≡◌, IfOk, Some, length, slice_get, unwrap_or};
    ghost use Rattle.je_core.specs.View.{program_view};
    ghost use Rattle.je_classes.specs.Hierarchy.{IsAcyclic};
    ghost use Rattle.je_classes.specs.Slots.{field_slot, slot_fields};
    ghost use Rattle.class_tables.specs.Few.{AreFew};
    ghost use Rattle.class_tables.specs.FieldTables.{IsFieldTableOf, first_slot};
    ghost use Rattle.je_classes.specs.Statics.{static_place};
    ghost use Rattle.class_tables.specs.way.Slots.{list_at};

    /// The table of a program in which no class is above itself, and that has fewer than 2^31 classes, and fields in each class.
    pub fn of(alloc: Global, program: &Program) -> Result<FieldTable, Memory>
        requires acyclic { IsAcyclic (program_view program.now) }
        requires few { AreFew (program_view program.now) }
        ensures { IfOk result (IsFieldTableOf (program_view program.now)) }
    {
        let order = in_order(alloc, program)?;
        let totals = totals(alloc, program, &order)?;
        let before = before(alloc, program)?;
        let statics = statics(alloc, program)?;
        Ok(FieldTable {
            totals,
            before,
            statics,
        })
    }

    // How many instance fields stand before a field in its class.
    fn count_before(&self, class: ClassId, at: usize) -> usize
        ensures { result ≡ unwrap_or (list_at (slice_get self.now.before.items class.0) at) 0 }
    {
        match self.before.get(class.0 as usize) {
            None => 0,
            Some(counts) => match counts.get(at) {
                None => 0,
                Some(count) => *count,
            },
        }
    }

    // How many static fields stand in the classes before one.
    fn statics_before(&self, class: ClassId) -> usize
        ensures { result ≡ unwrap_or (slice_get self.now.statics.items class.0) 0 }
    {
        match self.statics.get(class.0 as usize) {
            None => 0,
            Some(count) => *count,
        }
    }

    /// The first slot of the instance fields that a class itself declares, 0 where there is no such class (JLS 8.3, 12.5).
    pub fn first_slot(&self, program: &Program, class: ClassId) -> usize
        requires { IsFieldTableOf (program_view program.now) self.now }
        ensures { result ≡ first_slot (program_view program.now) class }
    {
        match program.class(class) {
            None => 0,
            Some(own) => known_above(&self.totals, own.superclass),
        }
    }

    /// How many slots the instances of a class have, 0 where there is no such class (JLS 8.3, 12.5).
    pub fn slot_count(&self, program: &Program, class: ClassId) -> usize
        requires { IsFieldTableOf (program_view program.now) self.now }
        ensures { result ≡ length (slot_fields (program_view program.now) (Some class)) }
    {
        known_above(&self.totals, Some(class))
    }

    /// The slot of the field at a place of a class; None exactly where there is none, and where it is static (JLS 8.3.1.1).
    pub fn slot(&self, program: &Program, class: ClassId, at: usize) -> Option<usize>
        requires { IsFieldTableOf (program_view program.now) self.now }
        ensures { result ≡ field_slot (program_view program.now) class at }
    {
        let Some(own) = program.class(class) else {
            return None;
        };
        let Some(field) = field_at(program, class, at) else {
            return None;
        };
        if field.is_static {
            return None;
        }
        Some(known_above(&self.totals, own.superclass) + self.count_before(class, at))
    }

    /// The place of the field at a place of a class among all static fields, which stand by class number and place; None exactly
    /// where there is none, and where it isn't static (JLS 8.3.1.1).
    pub fn static_place(&self, program: &Program, class: ClassId, at: usize) -> Option<usize>
        requires { IsFieldTableOf (program_view program.now) self.now }
        ensures { result ≡ static_place (program_view program.now) class at }
    {
        let Some(field) = field_at(program, class, at) else {
            return None;
        };
        if !field.is_static {
            return None;
        }
        Some(self.statics_before(class) + (at - self.count_before(class, at)))
    }
}
