// Hidden fields in the lists of all classes.

ghost use Rattle.std.specs.Prelude.{◌≡◌, ◌<◌, ℕ, IfOk, List, OnOk, drop, length, map, slice_index};
ghost use Rattle.class_heads.specs.View.{behind};
ghost use Rattle.class_typing.specs.Elaboration.{hidden_count as the_hidden_count};
ghost use Rattle.class_typing.specs.Programs as words;
ghost use Rattle.class_typing.specs.Programs.{heads as the_heads, library_count, with_hidden};
ghost use Rattle.declarations.specs.Declarations.{DeclaredClass};
ghost use Rattle.declarations.specs.View.{class_shown};
ghost use Rattle.je_scopes.specs.Source.{Source};
ghost use Rattle.core_making.specs.Known.{captured_seen};
ghost use Rattle.source_subtypes.specs.View.{heads_of};
ghost use Rattle.type_faults.specs.Program.{source_in};
ghost use Rattle.program_tables.specs.Counts.{behind_hidden, without, without_first};

use crate::hidden::{hidden_count, hidden_fields};
use crate::layout::Layout;
use core_making::counted;
use declarations::{ClassDecl, FieldDecl};
use je_base::Memory;
use je_core::ClassId;

// Puts the hidden fields of a class in front of the others.
fn add_hidden(layout: Layout, at: usize, class: &mut ClassDecl) -> Result<(), Memory>
    requires { heads_of layout.heads.now ≡ the_heads (source_in layout.source) }
    ensures { OnOk result (class_shown class.new ≡ behind_hidden (source_in layout.entry.source)
        (captured_seen layout.entry.captured.now) at (class_shown class.old)) }
{
    let mut fields = hidden_fields(layout, ClassId(counted(at)?))?;
    fields.append(&mut class.fields)?;
    class.fields = fields;
    Ok(())
}

fn add_to_each(layout: Layout, classes: &mut [ClassDecl]) -> Result<(), Memory>
    requires { heads_of layout.heads.now ≡ the_heads (source_in layout.source) }
    ensures { OnOk result (map class_shown classes.new ≡
        with_hidden (source_in layout.entry.source) (captured_seen layout.entry.captured.now) 0
        (map class_shown classes.old)) }
{
    for (at, class) in classes.iter_mut().enumerate() {
        add_hidden(layout, at, class)?;
    }
    Ok(())
}

/// Puts the hidden fields of each class of a program in front of those that are written. The library's classes, which
/// come first in the list of all, have none.
pub fn add_hidden_fields(layout: Layout, classes: &mut [ClassDecl]) -> Result<(), Memory>
    requires { heads_of layout.heads.now ≡ the_heads (source_in layout.source) }
    ensures program { OnOk result (map class_shown classes.new ≡
        with_hidden (source_in layout.entry.source) (captured_seen layout.entry.captured.now) 0
        (map class_shown classes.old)) }
    ensures all { OnOk result ((library : List DeclaredClass) →
        length library ≡ library_count (source_in layout.entry.source) →
        behind library (map class_shown classes.new) ≡
        with_hidden (source_in layout.entry.source) (captured_seen layout.entry.captured.now) 0
        (behind library (map class_shown classes.old))) }
{
    add_to_each(layout, classes)?;
    Ok(())
}

/// How many hidden fields each class has.
pub fn hidden_counts(layout: Layout) -> Result<Vec<usize>, Memory>
    ensures count { IfOk result (λ counts. length counts.items ≡
        length (source_in layout.entry.source).sites) }
    ensures each { IfOk result (λ counts. (c : ℕ) → slice_index counts.items c ≡
        the_hidden_count (source_in layout.entry.source)
        (captured_seen layout.entry.captured.now) c) }
{
    let mut counts = Vec::new(layout.source.alloc);
    for at in 0..layout.source.sites.len() {
        counts.push(hidden_count(layout, ClassId(at as u32))?)?;
    }
    Ok(counts)
}

fn drop_first(count: usize, fields: &mut Vec<FieldDecl>)
    ensures { fields.new.items ≡ drop count fields.old.items }
{
    let gone = count.min(fields.len());
    drop(fields.drain(..gone));
}

// Takes away so many of the first fields of a class.
fn remove_first(count: usize, class: &mut ClassDecl)
    ensures { class_shown class.new ≡ without count (class_shown class.old) }
{
    drop_first(count, &mut class.fields);
}

fn remove_from_each(counts: &[usize], classes: &mut [ClassDecl])
    ensures { map class_shown classes.new ≡
        without_first counts.now 0 (map class_shown classes.old) }
{
    for (at, class) in classes.iter_mut().enumerate() {
        if let Some(count) = counts.get(at) {
            remove_first(*count, class);
        }
    }
}

/// Takes away so many of the first fields of each class, by its number. Where these are its hidden ones, what was there
/// before those were added is left.
pub fn remove_hidden_fields(counts: &[usize], classes: &mut [ClassDecl])
    ensures exactly { map class_shown classes.new ≡
        without_first counts.now 0 (map class_shown classes.old) }
    ensures inverse { (source : Source) (captured : ℕ → List words.CapturedLocal)
        (before : List DeclaredClass) →
        ((c : ℕ) → slice_index counts.now c ≡ the_hidden_count source captured c) →
        map class_shown classes.old ≡ with_hidden source captured 0 before →
        map class_shown classes.new ≡ before }
{
    remove_from_each(counts, classes);
}
