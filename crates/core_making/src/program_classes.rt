// Classes of the program, and the one above each.

ghost use Rattle.std.specs.Prelude.{◌≡◌, map, option_map};
ghost use Rattle.class_typing.specs.Captures.{first_class as the_first_class, is_guest_class as the_is_guest_class, superclass as the_superclass};
ghost use Rattle.name_types.specs.View.{shown};
ghost use Rattle.body_places.specs.View.{program_seen};
ghost use Rattle.core_making.specs.Known.{captured_seen, round_seen};
ghost use Rattle.core_making.specs.way.Upwards.{guest_if as the_guest_if};

use crate::known::Known;
use body_places::Program;
use header_steps::class_of;
use je_core::{ClassId, Sort};
use name_types::SrcTy;
use name_walk::Written;

// A class of the program that is no interface.
fn is_guest_class(program: &Program, known: Known, class: ClassId) -> bool
    ensures { result ≡
        the_is_guest_class (program_seen program.now)
        (captured_seen known.entry.captured.now) (round_seen known.entry.round.now) class.0 }
{
    let sites = program.source.sites;
    match sites.written(class) {
        Written::Library => false,
        Written::Declared { .. } | Written::Anonymous { .. } => {
            !matches!(sites.sort(class), Sort::Interface)
        }
    }
}

// A class that there is, if it is such a class.
fn guest_if(program: &Program, known: Known, class: Option<ClassId>) -> Option<ClassId>
    ensures { option_map (λ (c : ClassId). c.0) result ≡ the_guest_if (program_seen program.now)
        (captured_seen known.entry.captured.now) (round_seen known.entry.round.now)
        (option_map (λ (c : ClassId). c.0) class) }
{
    let class = class?;
    if is_guest_class(program, known, class) {
        Some(class)
    } else {
        None
    }
}

// The class of the first of some types.
fn first_class(program: &Program, known: Known, types: &[SrcTy]) -> Option<ClassId>
    ensures { option_map (λ (c : ClassId). c.0) result ≡
        the_first_class (program_seen program.now)
        (captured_seen known.entry.captured.now) (round_seen known.entry.round.now)
        (map shown types.now) }
{
    match types {
        [first, ..] => guest_if(program, known, class_of(first)),
        [] => None,
    }
}

/// The class directly above one of the program, if it is one too.
pub fn superclass(program: &Program, known: Known, class: ClassId) -> Option<ClassId>
    ensures { option_map (λ (c : ClassId). c.0) result ≡
        the_superclass (program_seen program.now)
        (captured_seen known.entry.captured.now) (round_seen known.entry.round.now) class.0 }
{
    first_class(program, known, program.heads.supers(class))
}
