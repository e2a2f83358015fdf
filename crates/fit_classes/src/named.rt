// The classes that a class names.

ghost use Rattle.std.specs.Prelude.{◌≡◌, is_some};
ghost use Rattle.std.specs.List.{list_all};
ghost use Rattle.je_core.specs.declared.program.Head.{Head as OneHead};
ghost use Rattle.je_core.specs.View.{class_view, program_view};
ghost use Rattle.je_classes.specs.Hierarchy.{class_at};
ghost use Rattle.je_fitting.specs.way.DecidingClasses.{are_named_there};
ghost use Rattle.je_fitting.specs.way.Quantifying.{if_there};

use fit_parts::has_class;
use je_core::{Class, ClassId, Head, Program};

fn heads_there(program: &Program, heads: &[Head]) -> bool
    ensures { result ≡ list_all
        (λ (h : OneHead). is_some (class_at (program_view program.now) h.class)) heads.now }
{
    for head in heads {
        if !has_class(program, head.class) {
            return false;
        }
    }
    true
}

fn is_there_if(program: &Program, class: Option<ClassId>) -> bool
    ensures { result ≡ if_there (λ d. is_some (class_at (program_view program.now) d)) class }
{
    match class {
        None => true,
        Some(class) => has_class(program, class),
    }
}

/// Whether the classes are there that a class names beside its supers.
pub fn named_there(program: &Program, class: &Class) -> bool
    ensures { result ≡ are_named_there (program_view program.now) (class_view class.now) }
{
    heads_there(program, &class.heads)
        && is_there_if(program, class.within)
        && has_class(program, class.top)
        && is_there_if(program, class.enclosing)
}
