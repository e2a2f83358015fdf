// What bodies know of all classes.

ghost use Rattle.std.specs.Prelude.{◌≡◌, ◌<◌, ◌^◌, ℕ, IfOk, OnOk, length};
ghost use Rattle.body_places.specs.Tables.{captured_in};
ghost use Rattle.body_places.specs.View.{program_seen};
ghost use Rattle.class_heads.specs.View.{classes_of};
ghost use Rattle.class_typing.specs.Programs.{captured_place, classes as the_classes, heads as the_heads};
ghost use Rattle.class_typing.specs.Programs.{plain_program as the_plain_program, with_hidden};
ghost use Rattle.core_making.specs.Known.{captured_seen};
ghost use Rattle.name_typing.specs.Fields.{fields_of as the_fields_of};
ghost use Rattle.source_subtypes.specs.View.{heads_of};
ghost use Rattle.type_faults.specs.Program.{source_in};
ghost use Rattle.program_tables.specs.way.Places.{places_from};

use crate::hidden::outer_count;
use crate::layout::Layout;
use body_places::{Captured, Program, fields_of};
use class_heads::AllClasses;
use core_making::{CapturedLocal, counted};
use je_base::Memory;
use je_core::ClassId;

// The fields for some locals, of which the first has this place.
fn places(layout: Layout, first: usize, locals: &[CapturedLocal]) -> Result<Vec<Captured>, Memory>
    requires { first < 2 }
    ensures { IfOk result (λ fs. fs.items ≡ places_from first locals.now) }
{
    let mut fields = Vec::new(layout.source.alloc);
    for (at, local) in locals.iter().enumerate() {
        fields.push(Captured {
            owner: local.owner,
            local: local.variable.number,
            field: counted(first + at)?,
        })?;
    }
    Ok(fields)
}

/// The fields in which each class keeps the locals that it captures. No memory holds as many as a place can't name.
pub fn captured_fields(layout: Layout) -> Result<Vec<Vec<Captured>>, Memory>
    ensures { IfOk result (λ fs. captured_in fs.items
        (with_hidden (source_in layout.entry.source) (captured_seen layout.entry.captured.now) 0
        (the_classes (source_in layout.entry.source))) ≡
        captured_place (source_in layout.entry.source)
        (captured_seen layout.entry.captured.now)) }
{
    let mut all = Vec::new(layout.source.alloc);
    for (at, locals) in layout.captured.iter().enumerate() {
        let first = outer_count(layout, ClassId(counted(at)?));
        all.push(places(layout, first, locals)?)?;
    }
    Ok(all)
}

/// Answers `Ok` only where each class has fewer fields than a `u32` can number. No memory holds as many.
pub fn are_few(classes: AllClasses) -> Result<(), Memory>
    ensures { OnOk result
        ((c : ℕ) → length (the_fields_of (classes_of classes.entry) c) < 2 ^ 32) }
{
    for at in 0..classes.len() {
        counted(fields_of(classes, ClassId(counted(at)?)).len())?;
    }
    Ok(())
}

/// The program with what bodies know of all classes, without constants: of classes with their hidden fields, and of the
/// places of those for captured locals.
pub fn plain_program<'a>(
    layout: Layout<'a>,
    classes: AllClasses<'a>,
    captured: &'a [Vec<Captured>],
) -> Result<Program<'a>, Memory>
    requires heads { heads_of layout.heads.now ≡ the_heads (source_in layout.source) }
    requires classes { classes_of classes ≡
        with_hidden (source_in layout.source) (captured_seen layout.captured.now) 0
        (the_classes (source_in layout.source)) }
    requires captured { captured_in captured.now
        (with_hidden (source_in layout.source) (captured_seen layout.captured.now) 0
        (the_classes (source_in layout.source))) ≡
        captured_place (source_in layout.source) (captured_seen layout.captured.now) }
    ensures { IfOk result (λ p. program_seen p ≡ the_plain_program (source_in layout.entry.source)
        (captured_seen layout.entry.captured.now)) }
{
    are_few(classes)?;
    Ok(Program {
        source: layout.source,
        heads: layout.heads,
        classes,
        constants: &[],
        outer: &[],
        captured,
    })
}
