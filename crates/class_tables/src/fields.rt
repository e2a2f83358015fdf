// Where the fields of a class's instances stand, and static fields.

ghost use Rattle.std.specs.Prelude.{◌≡◌, IfOk, count_by, map, slice_get};
ghost use Rattle.je_core.specs.View.{field_view, program_view};
ghost use Rattle.je_classes.specs.Hierarchy.{IsAcyclic};
ghost use Rattle.je_classes.specs.Slots.{is_instance};
ghost use Rattle.class_tables.specs.Few.{AreFew};
ghost use Rattle.class_tables.specs.way.Order.{IsWhole};
ghost use Rattle.je_classes.specs.Statics.{is_static};
ghost use Rattle.class_tables.specs.way.Slots.{AreBefore, AreCounts, AreStatics, AreTotals, IsKnownAbove, fields_at, total_of};

use crate::by_class::{known_above, note};
use je_classes::class_count;
use je_core::{ClassId, Field, Memory, Program};
use std::alloc::Global;

// Of each field how many instance fields stand before it in its class.
fn counts(alloc: Global, fields: &[Field]) -> Result<Vec<usize>, Memory>
    ensures { IfOk result (λ counts. AreCounts (map field_view fields.now) counts.items) }
{
    let mut counts = Vec::new(alloc);
    let mut count = 0;
    for field in fields {
        counts.push(count)?;
        if !field.is_static {
            count += 1;
        }
    }
    Ok(counts)
}

// How many of a class's fields are instance fields.
fn instance_count(fields: &[Field]) -> usize
    ensures { result ≡ count_by is_instance (map field_view fields.now) }
{
    let mut count = 0;
    for field in fields {
        if !field.is_static {
            count += 1;
        }
    }
    count
}

// How many slots the instances of a class have, where it is known of its superclass.
fn total(program: &Program, totals: &[usize], class: ClassId) -> usize
    requires acyclic { IsAcyclic (program_view program.now) }
    requires few { AreFew (program_view program.now) }
    requires above { IsKnownAbove (program_view program.now) totals.now class }
    ensures { result ≡ total_of (program_view program.now) class }
{
    let Some(class) = program.class(class) else {
        return 0;
    };
    known_above(totals, class.superclass) + instance_count(&class.fields)
}

// How many slots the instances of each class have.
pub(crate) fn totals(
    alloc: Global,
    program: &Program,
    order: &[ClassId],
) -> Result<Vec<usize>, Memory>
    requires acyclic { IsAcyclic (program_view program.now) }
    requires few { AreFew (program_view program.now) }
    requires order { IsWhole (program_view program.now) order.now }
    ensures { IfOk result (λ totals. AreTotals (program_view program.now) order.now totals.items) }
{
    let mut totals = vec![in alloc; 0; class_count(program)]?;
    for class in order {
        let total = total(program, &totals, *class);
        note(&mut totals, *class, total);
    }
    Ok(totals)
}

// How many of a class's fields are static ones.
fn static_count(fields: &[Field]) -> usize
    ensures { result ≡ count_by is_static (map field_view fields.now) }
{
    let mut count = 0;
    for field in fields {
        if field.is_static {
            count += 1;
        }
    }
    count
}

// The fields of a class.
fn fields_in(program: &Program, class: ClassId) -> &[Field]
    ensures { map field_view result.now ≡
        fields_at (slice_get (program_view program.now).classes class.0) }
{
    match program.class(class) {
        None => &[],
        Some(class) => &class.fields,
    }
}

// How many static fields stand in the classes before each.
pub(crate) fn statics(alloc: Global, program: &Program) -> Result<Vec<usize>, Memory>
    requires { AreFew (program_view program.now) }
    ensures { IfOk result (λ places. AreStatics (program_view program.now) places.items) }
{
    let mut places = Vec::new(alloc);
    let mut count = 0;
    for at in 0..class_count(program) {
        places.push(count)?;
        count += static_count(fields_in(program, ClassId(at as u32)));
    }
    Ok(places)
}

// Of each field of each class how many instance fields stand before it.
pub(crate) fn before(alloc: Global, program: &Program) -> Result<Vec<Vec<usize>>, Memory>
    requires { AreFew (program_view program.now) }
    ensures { IfOk result (λ before. AreBefore (program_view program.now) before.items) }
{
    let mut before = Vec::new(alloc);
    for at in 0..class_count(program) {
        before.push(counts(alloc, fields_in(program, ClassId(at as u32)))?)?;
    }
    Ok(before)
}
