// What a class inherits and has to implement (JLS 8.1.1.1, 8.4.8).

ghost use Rattle.std.specs.Prelude.{◌≡◌, is_some, IfOk, map};
ghost use Rattle.je_core.specs.View.{method_view, program_view};
ghost use Rattle.je_classes.specs.Members.{methods_of};
ghost use Rattle.je_classes.specs.Dispatch.{implemented as the_implemented, dispatched as the_dispatched};
ghost use Rattle.je_fitting.specs.way.DecidingClasses.{is_inherited_fit, are_inherited_fit, implements_all as the_implements_all};
ghost use Rattle.class_lookup.specs.Above.{AreAbove};
ghost use Rattle.fit_members.specs.way.Each.{tested_from, each_of};
ghost use Rattle.fit_classes.specs.way.Inheriting.{is_of_objects as the_is_of_objects, is_asked as the_is_asked, inherits as the_inherits, has_method as the_has_method};

use class_members::{dispatched, implemented, is_bridged, is_private, method_at, same_class};
use fit_members::stands_for;
use fit_parts::is_constructor;
use je_core::{ClassId, Memory, Method, Program};
use std::alloc::Global;

// Whether a method stands for another one, unless it is the class's own.
fn inherited_fits(
    alloc: Global,
    program: &Program,
    id: ClassId,
    method: &Method,
) -> Result<bool, Memory>
    ensures { IfOk result
        (λ fits. fits ≡ is_inherited_fit (program_view program.now) id (method_view method.now)
        (the_implemented (program_view program.now) id (method_view method.now))) }
{
    let Some((class, at)) = implemented(program, id, method) else {
        return Ok(true);
    };
    if same_class(class, id) {
        return Ok(true);
    }
    match method_at(program, class, at) {
        None => Ok(true),
        Some(by) => stands_for(alloc, program, by, method),
    }
}

// Whether it is a method of objects, and no constructor.
fn is_of_objects(program: &Program, method: &Method) -> bool
    ensures { result ≡ the_is_of_objects (program_view program.now) (method_view method.now) }
{
    !method.flags.is_static && !is_constructor(program, method)
}

// Whether a method of objects stands at a place above a class, which isn't private, and for which none of the class's bridges
// runs another one.
fn is_asked(program: &Program, id: ClassId, class: ClassId, at: usize, method: &Method) -> bool
    ensures { result ≡ the_is_asked (program_view program.now) id class at (method_view method.now) }
{
    is_of_objects(program, method) && !is_private(method) && !is_bridged(program, id, class, at)
}

// Whether what a class inherits for a method that stands above it fits.
fn inherits(
    alloc: Global,
    program: &Program,
    id: ClassId,
    class: ClassId,
    at: usize,
    method: &Method,
) -> Result<bool, Memory>
    ensures { IfOk result (λ fits. fits ≡
        the_inherits (program_view program.now) id class at (method_view method.now)) }
{
    if !is_asked(program, id, class, at, method) {
        return Ok(true);
    }
    inherited_fits(alloc, program, id, method)
}

fn inherits_among(
    alloc: Global,
    program: &Program,
    id: ClassId,
    class: ClassId,
    methods: &[Method],
) -> Result<bool, Memory>
    ensures { IfOk result (λ fit. fit ≡ tested_from
        (the_inherits (program_view program.now) id class) 0 (map method_view methods.now)) }
{
    for (at, method) in methods.iter().enumerate() {
        if !inherits(alloc, program, id, class, at, method)? {
            return Ok(false);
        }
    }
    Ok(true)
}

fn inherits_from(
    alloc: Global,
    program: &Program,
    id: ClassId,
    class: ClassId,
) -> Result<bool, Memory>
    ensures { IfOk result (λ fit. fit ≡ tested_from
        (the_inherits (program_view program.now) id class) 0
        (methods_of (program_view program.now) class)) }
{
    match program.class(class) {
        None => Ok(true),
        Some(declaring) => inherits_among(alloc, program, id, class, &declaring.methods),
    }
}

fn inherits_from_all(
    alloc: Global,
    program: &Program,
    id: ClassId,
    above: &[ClassId],
) -> Result<bool, Memory>
    ensures { IfOk result (λ fit. fit ≡ each_of (program_view program.now)
        (the_inherits (program_view program.now) id) above.now) }
{
    for class in above {
        if !inherits_from(alloc, program, id, *class)? {
            return Ok(false);
        }
    }
    Ok(true)
}

/// Whether what a class inherits fits each method that it stands for, over the classes above.
pub fn inherited_fit(
    alloc: Global,
    program: &Program,
    id: ClassId,
    above: &[ClassId],
) -> Result<bool, Memory>
    requires { AreAbove (program_view program.now) id above.now }
    ensures { IfOk result (λ fit. fit ≡ are_inherited_fit (program_view program.now) id) }
{
    let fit = inherits_from_all(alloc, program, id, above)?;
    Ok(fit)
}

// Whether an object of a class has a method for one that stands at a place of a class above it.
fn has_method(program: &Program, id: ClassId, class: ClassId, at: usize, method: &Method) -> bool
    ensures { result ≡ the_has_method (program_view program.now) id class at
        (method_view method.now) }
{
    if !is_of_objects(program, method) {
        return true;
    }
    match dispatched(program, id, class, at) {
        None => false,
        Some(_) => true,
    }
}

fn has_methods_among(program: &Program, id: ClassId, class: ClassId, methods: &[Method]) -> bool
    ensures { result ≡ tested_from (the_has_method (program_view program.now) id class) 0
        (map method_view methods.now) }
{
    for (at, method) in methods.iter().enumerate() {
        if !has_method(program, id, class, at, method) {
            return false;
        }
    }
    true
}

fn has_methods_of(program: &Program, id: ClassId, class: ClassId) -> bool
    ensures { result ≡ tested_from (the_has_method (program_view program.now) id class) 0
        (methods_of (program_view program.now) class) }
{
    match program.class(class) {
        None => true,
        Some(declaring) => has_methods_among(program, id, class, &declaring.methods),
    }
}

fn has_methods_of_all(program: &Program, id: ClassId, above: &[ClassId]) -> bool
    ensures { result ≡ each_of (program_view program.now)
        (the_has_method (program_view program.now) id) above.now }
{
    for class in above {
        if !has_methods_of(program, id, *class) {
            return false;
        }
    }
    true
}

/// Whether an object of a class has each method, over the classes above.
pub fn implements_all(program: &Program, id: ClassId, above: &[ClassId]) -> bool
    requires { AreAbove (program_view program.now) id above.now }
    ensures { result ≡ the_implements_all (program_view program.now) id }
{
    has_methods_of_all(program, id, above)
}
