// What the making of an object of an anonymous class throws.

ghost use Rattle.std.specs.Prelude.{◌≡◌, [], OnOk, option_map, slice_get, unwrap_or};
ghost use Rattle.je_core.specs.View.{program_view};
ghost use Rattle.reported_exceptions.specs.Expressions.{making_throws};
ghost use Rattle.reported_exceptions.specs.Throws.{each_thrown, out_behind};
ghost use Rattle.reported_exceptions.specs.View.{row, rows};

use crate::throws::{Throw, throw_each};
use je_classes::class_count;
use je_core::{ClassId, Memory, Program, Span};
use std::alloc::Global;

/// The classes that the making of an object of a class throws beside what its constructor declares.
#[derive(Drop)]
pub struct Making {
    pub classes: Vec<ClassId>,
}

// That of a class, of those of the last classes of a program.
fn making_of<'a>(program: &Program, makings: &'a [Making], class: ClassId) -> Option<&'a Making>
    ensures { unwrap_or (option_map (λ m. row m.now) result) [] ≡
        making_throws (program_view program.now) (rows makings.now) class }
{
    let count = class_count(program);
    let number = class.0 as usize;
    if number >= count {
        return None;
    }
    making_at(makings, count - number - 1)
}

fn making_at(makings: &[Making], at: usize) -> Option<&Making>
    ensures { option_map (λ m. row m.now) result ≡ slice_get (rows makings.now) at }
{
    makings.get(at)
}

/// Adds what the making of an object of a class throws at a token.
pub fn throw_making(
    alloc: Global,
    program: &Program,
    makings: &[Making],
    class: ClassId,
    at: Span,
    thrown: &mut Vec<Throw>,
) -> Result<(), Memory>
    ensures { OnOk result (thrown.new.items ≡
        out_behind (program_view program.now) thrown.old.items
        (each_thrown (program_view program.now)
        (making_throws (program_view program.now) (rows makings.now) class) at)) }
{
    match making_of(program, makings, class) {
        None => Ok(()),
        Some(making) => throw_each(alloc, program, &making.classes, at, thrown),
    }
}
