// The methods of enums that no source writes.

ghost use Rattle.std.specs.Prelude.{◌≡◌, ◌++◌, OnOk, drop, map, take};
ghost use Rattle.class_heads.specs.View.{behind};
ghost use Rattle.class_typing.specs.Programs.{all_with_methods, classes as the_classes, library_count};
ghost use Rattle.class_typing.specs.Programs.{number as the_number, with_enum_methods};
ghost use Rattle.declarations.specs.View.{class_shown};
ghost use Rattle.je_names.specs.Scopes.{declared_classes};
ghost use Rattle.je_scopes.specs.Source.{Source};
ghost use Rattle.library_declarations.specs.Library.{library_declared};
ghost use Rattle.program_tables.specs.way.Texts.{with_texts};

use crate::declared::enum_methods;
use core_making::{counted, is_enum_sort};
use declarations::ClassDecl;
use je_base::{Memory, Names};
use je_core::ClassId;
use std::alloc::Global;

// Gives a class its methods, if it is an enum.
fn add_methods(alloc: Global, names: &Names, at: usize, class: &mut ClassDecl) -> Result<(), Memory>
    ensures { OnOk result (class_shown class.new ≡
        with_enum_methods (with_texts names.now) at (class_shown class.old)) }
{
    if is_enum_sort(class.kind.sort) {
        class.methods = enum_methods(alloc, names, ClassId(counted(at)?))?;
    }
    Ok(())
}

// The same of all classes behind so many.
fn add_to_each(
    alloc: Global,
    names: &Names,
    first: usize,
    classes: &mut [ClassDecl],
) -> Result<(), Memory>
    ensures { OnOk result (map class_shown classes.new ≡
        take first (map class_shown classes.old) ++ all_with_methods (with_texts names.now) first
        (drop first (map class_shown classes.old))) }
{
    for at in first..classes.len() {
        add_methods(alloc, names, at, &mut classes[at])?;
    }
    Ok(())
}

/// Gives the enums among a program's classes the methods that no source writes. So many of the classes are the
/// library's; they come first, and stay as they are.
pub fn add_enum_methods(
    alloc: Global,
    names: &Names,
    library: usize,
    classes: &mut [ClassDecl],
) -> Result<(), Memory>
    ensures program { OnOk result ((source : Source) → source.texts ≡ names.now →
        map class_shown classes.new ≡
        take library (map class_shown classes.old) ++ all_with_methods source library
        (drop library (map class_shown classes.old))) }
    ensures all { OnOk result ((source : Source) → source.texts ≡ names.now →
        library ≡ library_count source →
        map class_shown classes.old ≡ declared_classes source →
        behind (library_declared (the_number source)) (map class_shown classes.new) ≡
        the_classes source) }
{
    add_to_each(alloc, names, library, classes)?;
    Ok(())
}
