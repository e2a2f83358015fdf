// A search through the parts of a program in their order.

ghost use Rattle.std.specs.Prelude.{◌≡◌, ◌<◌, ◌^◌, IfOk, length, option_map};
ghost use Rattle.je_core.specs.View.{class_view, program_view};
ghost use Rattle.je_fitting.specs.way.Misfits.{least_failing, field_passes, method_passes, first_part as the_first_part, first_misfit as the_first_misfit};
ghost use Rattle.class_lookup.specs.Above.{AreAbove};
ghost use Rattle.fit_program.specs.Parts.{part_seen, misfit_seen};

use class_lookup::classes_above;
use fit_classes::class_fits;
use fit_members::{field_fits, method_fits};
use je_classes::class_count;
use je_core::{Class, ClassId, Memory, Program};
use std::alloc::Global;

/// A part of a class: the class itself, or its field or method at a place.
#[derive(Clone, Copy, PartialEq, Eq)]
pub enum Part {
    Itself,
    Field(usize),
    Method(usize),
}

// The place of the first field of a class that doesn't fit.
fn first_field(
    alloc: Global,
    program: &Program,
    id: ClassId,
    class: &Class,
) -> Result<Option<usize>, Memory>
    ensures { IfOk result (λ first. first ≡ least_failing
        (field_passes (program_view program.now) id (class_view class.now))
        (length (class_view class.now).fields)) }
{
    for (at, field) in class.fields.iter().enumerate() {
        if !field_fits(alloc, program, id, field)? {
            return Ok(Some(at));
        }
    }
    Ok(None)
}

// The place of the first method of a class that doesn't fit, over the classes above.
fn first_method(
    alloc: Global,
    program: &Program,
    id: ClassId,
    above: &[ClassId],
    class: &Class,
) -> Result<Option<usize>, Memory>
    requires { AreAbove (program_view program.now) id above.now }
    ensures { IfOk result (λ first. first ≡ least_failing
        (method_passes (program_view program.now) id (class_view class.now))
        (length (class_view class.now).methods)) }
{
    for (at, method) in class.methods.iter().enumerate() {
        if !method_fits(alloc, program, id, above, class, method)? {
            return Ok(Some(at));
        }
    }
    Ok(None)
}

// The first part of a class that doesn't fit.
fn first_part(
    alloc: Global,
    program: &Program,
    id: ClassId,
    class: &Class,
) -> Result<Option<Part>, Memory>
    ensures { IfOk result (λ first. option_map part_seen first ≡
        the_first_part (program_view program.now) id (class_view class.now)) }
{
    let above = classes_above(alloc, program, id)?;
    if !class_fits(alloc, program, id, &above, class)? {
        return Ok(Some(Part::Itself));
    }
    if let Some(at) = first_field(alloc, program, id, class)? {
        return Ok(Some(Part::Field(at)));
    }
    match first_method(alloc, program, id, &above, class)? {
        None => Ok(None),
        Some(at) => Ok(Some(Part::Method(at))),
    }
}

/// The first part of a program that doesn't fit, by its class.
pub fn first_misfit(alloc: Global, program: &Program) -> Result<Option<(ClassId, Part)>, Memory>
    requires { length (program_view program.now).classes < 2 ^ 31 }
    ensures { IfOk result (λ first. option_map misfit_seen first ≡
        the_first_misfit (program_view program.now)) }
{
    for at in 0..class_count(program) {
        let id = ClassId(at as u32);
        let Some(class) = program.class(id) else {
            return Ok(None);
        };
        if let Some(part) = first_part(alloc, program, id, class)? {
            return Ok(Some((id, part)));
        }
    }
    Ok(None)
}
