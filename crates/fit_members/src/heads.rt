// The heads of methods (JLS 8.4, 8.8, 9.4).

ghost use Rattle.std.specs.Prelude.{◌≡◌, ◌&&◌, not, is_some};
ghost use Rattle.std.specs.List.{list_all};
ghost use Rattle.je_core.specs.View.{class_view, method_view, program_view};
ghost use Rattle.je_classes.specs.Hierarchy.{class_at};
ghost use Rattle.je_fitting.specs.Expressions.{is_interface_sort};
ghost use Rattle.je_fitting.specs.Members.{is_interface as the_is_interface};
ghost use Rattle.je_fitting.specs.Types.{is_void as the_is_void};
ghost use Rattle.je_fitting.specs.way.DecidingMembers.{is_method_head_fit};

use crate::variables::are_variables;
use fit_parts::{has_class, is_constructor, is_variable_type, is_void};
use je_core::{Class, ClassId, Method, Program, Sort};

/// Whether a class is an interface.
pub fn is_interface(class: &Class) -> bool
    ensures { result ≡ is_interface_sort (class_view class.now).kind.sort }
{
    match class.kind.sort {
        Sort::Interface => true,
        _ => false,
    }
}

/// Whether a class of this number is there and is an interface.
pub fn names_interface(program: &Program, class: ClassId) -> bool
    ensures { result ≡ the_is_interface (class_at (program_view program.now) class) }
{
    match program.class(class) {
        None => false,
        Some(class) => is_interface(class),
    }
}

// Whether classes are there.
fn are_there(program: &Program, classes: &[ClassId]) -> bool
    ensures { result ≡ list_all (λ d. is_some (class_at (program_view program.now) d)) classes.now }
{
    for class in classes {
        if !has_class(program, *class) {
            return false;
        }
    }
    true
}

// What is asked of a constructor.
fn constructor_fits(method: &Method) -> bool
    ensures { result ≡ (not (method_view method.now).flags.is_static &&
        not (method_view method.now).flags.is_abstract &&
        the_is_void (method_view method.now).returns) }
{
    !method.flags.is_static && !method.flags.is_abstract && is_void(method.returns)
}

/// Whether the head of a method of a class fits.
pub fn head_fits(program: &Program, class: &Class, method: &Method) -> bool
    ensures { result ≡ is_method_head_fit (program_view program.now) (class_view class.now)
        (method_view method.now) }
{
    if !are_variables(program, &method.params) {
        return false;
    }
    if !is_void(method.returns) && !is_variable_type(program, method.returns) {
        return false;
    }
    if !are_there(program, &method.throws) {
        return false;
    }
    if is_interface(class) && !method.flags.is_abstract {
        return false;
    }
    if is_constructor(program, method) {
        constructor_fits(method)
    } else {
        true
    }
}
