// By which methods a class implements those of interfaces (JLS 8.4.8).

ghost use Rattle.std.specs.Prelude.{◌≡◌, ◌&&◌, not, IfOk, map};
ghost use Rattle.je_core.specs.View.{class_view, method_view, program_view};
ghost use Rattle.je_classes.specs.Dispatch.{dispatched as the_dispatched};
ghost use Rattle.je_classes.specs.Hierarchy.{class_at, is_below};
ghost use Rattle.je_classes.specs.Members.{methods_of};
ghost use Rattle.je_fitting.specs.Classes.{is_interface as the_is_interface};
ghost use Rattle.je_fitting.specs.way.Quantifying.{each_method, implies};
ghost use Rattle.class_lookup.specs.Above.{AreAbove};
ghost use Rattle.fit_members.specs.way.Each.{each_of, tested_from};
ghost use Rattle.plain_programs.specs.way.Deciding.{implements_all_plainly, implements_plainly, is_wild_if};

use crate::wild::is_wild;
use class_lookup::classes_above;
use class_members::dispatched;
use fit_members::{is_guest, is_interface};
use je_core::{Class, ClassId, Memory, Method, Program};
use std::alloc::Global;

// Whether what a class has for a method is wild.
fn has_wild(program: &Program, id: ClassId, above: ClassId, at: usize) -> bool
    ensures { result ≡ is_wild_if
        (the_dispatched (program_view program.now) id (record { class = above; at = at })) }
{
    match dispatched(program, id, above, at) {
        None => false,
        Some((class, at)) => is_wild(class, at),
    }
}

// Whether what a class has for each of so many methods of an interface isn't wild.
fn has_none_wild(program: &Program, id: ClassId, above: ClassId, methods: &[Method]) -> bool
    ensures { result ≡ tested_from
        (λ n k. not (is_wild_if (the_dispatched (program_view program.now) id
        (record { class = above; at = n })))) 0 (map method_view methods.now) }
{
    for (at, _) in methods.iter().enumerate() {
        if has_wild(program, id, above, at) {
            return false;
        }
    }
    true
}

// Whether what a class has for each method of a class above it isn't wild, unless that is no interface.
fn implements_plainly_one(program: &Program, id: ClassId, above: ClassId) -> bool
    ensures { result ≡ tested_from
        (λ n k. implements_plainly (program_view program.now) id above n) 0
        (methods_of (program_view program.now) above) }
{
    match program.class(above) {
        None => true,
        Some(class) => {
            if !is_interface(class) {
                return true;
            }
            has_none_wild(program, id, above, &class.methods)
        }
    }
}

fn implements_plainly_each(program: &Program, id: ClassId, above: &[ClassId]) -> bool
    ensures { result ≡ each_of (program_view program.now)
        (λ d n k. implements_plainly (program_view program.now) id d n) above.now }
{
    for class in above {
        if !implements_plainly_one(program, id, *class) {
            return false;
        }
    }
    true
}

// Whether a class implements no method of an interface above it by a wild one.
fn implements_plainly_over(program: &Program, id: ClassId, above: &[ClassId]) -> bool
    requires { AreAbove (program_view program.now) id above.now }
    ensures { result ≡ each_method (program_view program.now)
        (λ d n k. implies (is_below (program_view program.now) id d)
        (implements_plainly (program_view program.now) id d n)) }
{
    implements_plainly_each(program, id, above)
}

/// Whether a class of a program's own, if it is no interface, implements no method of an interface by a wild one.
pub fn class_implements_plainly(
    alloc: Global,
    program: &Program,
    id: ClassId,
    class: &Class,
) -> Result<bool, Memory>
    ensures { IfOk result (λ plain. plain ≡
        implements_all_plainly (program_view program.now) id (class_view class.now)) }
{
    if !is_guest(id) || is_interface(class) {
        return Ok(true);
    }
    let above = classes_above(alloc, program, id)?;
    Ok(implements_plainly_over(program, id, &above))
}
