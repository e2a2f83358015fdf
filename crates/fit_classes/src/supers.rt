// What stands above a class, and what it stands in (JLS 8.1.4, 8.1.5, 9.1.3).

ghost use Rattle.std.specs.Prelude.{◌≡◌, not, IfOk, length};
ghost use Rattle.std.specs.List.{list_all};
ghost use Rattle.je_core.specs.View.{class_view, program_view};
ghost use Rattle.je_classes.specs.Hierarchy.{class_at, supers_of, is_below as the_is_below};
ghost use Rattle.je_fitting.specs.Classes.{can_be_extended as the_can_be_extended, is_interface as the_is_interface, is_round as the_is_round};
ghost use Rattle.je_fitting.specs.way.DecidingClasses.{is_top as the_is_top, is_superclass_fit, are_supers_fit};

use class_members::same_class;
use fit_members::{is_interface, names_interface};
use je_classes::{class_count, is_below, object_class};
use je_core::{Class, ClassId, Memory, Program};
use std::alloc::Global;

// Whether no superclass stands above a class: above Object, and above an interface.
fn is_top(id: ClassId, class: &Class) -> bool
    ensures { result ≡ the_is_top id (class_view class.now) }
{
    same_class(id, object_class()) || is_interface(class)
}

// Whether a class may be extended: it is no interface, and not final.
fn can_be_extended(program: &Program, class: ClassId) -> bool
    ensures { result ≡ the_can_be_extended (class_at (program_view program.now) class) }
{
    match program.class(class) {
        None => false,
        Some(class) => !(is_interface(class) || class.kind.is_final),
    }
}

fn superclass_fits(program: &Program, id: ClassId, class: &Class) -> bool
    ensures { result ≡ is_superclass_fit (program_view program.now) id (class_view class.now)
        (class_view class.now).superclass }
{
    match class.superclass {
        None => is_top(id, class),
        Some(superclass) => !is_top(id, class) && can_be_extended(program, superclass),
    }
}

fn are_interfaces(program: &Program, classes: &[ClassId]) -> bool
    ensures { result ≡ list_all
        (λ i. the_is_interface (class_at (program_view program.now) i)) classes.now }
{
    for class in classes {
        if !names_interface(program, *class) {
            return false;
        }
    }
    true
}

// Whether none of some classes is below another one.
fn none_below(
    alloc: Global,
    program: &Program,
    classes: &[ClassId],
    class: ClassId,
) -> Result<bool, Memory>
    ensures { IfOk result (λ none. none ≡
        list_all (λ s. not (the_is_below (program_view program.now) s class)) classes.now) }
{
    for other in classes {
        if is_below(alloc, program, *other, class)? {
            return Ok(false);
        }
    }
    Ok(true)
}

// Whether a class is not above itself: no super of it is below it.
fn is_not_above_itself(alloc: Global, program: &Program, id: ClassId) -> Result<bool, Memory>
    ensures { IfOk result (λ none. none ≡ list_all
        (λ s. not (the_is_below (program_view program.now) s id))
        (supers_of (program_view program.now) id)) }
{
    let Some(class) = program.class(id) else {
        return Ok(true);
    };
    match class.superclass {
        None => none_below(alloc, program, &class.interfaces, id),
        Some(superclass) => {
            if is_below(alloc, program, superclass, id)? {
                return Ok(false);
            }
            none_below(alloc, program, &class.interfaces, id)
        }
    }
}

// Whether a class is the innermost one, or one round that.
#[tactic(auto, using(crate::proofs::Rounds::rounds))]
fn is_round(program: &Program, class: ClassId, innermost: Option<ClassId>) -> bool
    ensures { result ≡ the_is_round (program_view program.now)
        (length (program_view program.now).classes) class innermost }
{
    let mut within = innermost;
    let mut left = class_count(program);
    while left > 0 {
        let Some(inner) = within else {
            return false;
        };
        if same_class(class, inner) {
            return true;
        }
        let Some(next) = program.class(inner) else {
            return false;
        };
        within = next.within;
        left -= 1;
    }
    match within {
        None => false,
        Some(inner) => same_class(class, inner),
    }
}

/// Whether a class's supers fit, and it is neither above nor round itself.
pub fn supers_fit(
    alloc: Global,
    program: &Program,
    id: ClassId,
    class: &Class,
) -> Result<bool, Memory>
    ensures { IfOk result (λ fit. fit ≡
        are_supers_fit (program_view program.now) id (class_view class.now)) }
{
    if !superclass_fits(program, id, class) || !are_interfaces(program, &class.interfaces) {
        return Ok(false);
    }
    if !is_not_above_itself(alloc, program, id)? {
        return Ok(false);
    }
    Ok(!is_round(program, id, class.within))
}
