// Methods and constructors (JLS 8.4, 8.8).

ghost use Rattle.std.specs.Prelude.{◌≡◌, ◌&&◌, ◌||◌, not, is_some, take, length, IfOk};
ghost use Rattle.je_core.specs.View.{class_view, method_view, program_view, stmt_view_if};
ghost use Rattle.je_classes.specs.Subtypes.{same_types as the_same_types};
ghost use Rattle.je_fitting.specs.Members.{is_guest as the_is_guest, local_types, body_of as the_body_of};
ghost use Rattle.je_fitting.specs.way.DecidingMembers.{same_bool as the_same_bool, is_body_fit, is_method_body_fit, is_method_fit};
ghost use Rattle.je_fitting.specs.way.Quantifying.{implies, if_there};
ghost use Rattle.class_lookup.specs.Above.{AreAbove};
ghost use Rattle.fit_members.specs.way.Begins.{begin_with};

use crate::bodies::{body_fits, body_of};
use crate::heads::head_fits;
use crate::overriding::overrides_fit;
use crate::variables::{is_guest, locals_fit};
use class_members::same_type;
use je_core::{Class, ClassId, Local, Memory, Method, Program, Ty};
use std::alloc::Global;

// Whether a method has a body exactly where it is a program's own, and neither abstract nor native.
fn has_due_body(class: ClassId, method: &Method) -> bool
    ensures { result ≡ the_same_bool (is_some (method_view method.now).body) (the_is_guest class &&
        not ((method_view method.now).flags.is_abstract
        || (method_view method.now).flags.is_native)) }
{
    let due = is_guest(class) && !(method.flags.is_abstract || method.flags.is_native);
    match &method.body {
        None => !due,
        Some(_) => due,
    }
}

// Whether there are locals for the parameters, of their types.
#[tactic(auto, using(crate::proofs::FirstLocals::none_begins))]
fn locals_begin_with(locals: &[Local], params: &[Ty]) -> bool
    ensures { result ≡ begin_with (local_types locals.now) params.now }
{
    let mut left = locals;
    for param in params {
        let Some((local, rest)) = left.split_first() else {
            return false;
        };
        if !same_type(local.ty, *param) {
            return false;
        }
        left = rest;
    }
    true
}

// Whether the first locals have the types of the parameters.
#[tactic(auto, using(crate::proofs::FirstLocals::first_locals))]
fn begin_with_params(locals: &[Local], params: &[Ty]) -> bool
    ensures { result ≡ the_same_types
        (take (length params.now) (local_types locals.now)) params.now }
{
    locals_begin_with(locals, params)
}

// Whether the first locals of a method with a body have the types of its parameters.
fn params_are_first(method: &Method) -> bool
    ensures { result ≡ implies (is_some (method_view method.now).body) (the_same_types
        (take (length (method_view method.now).params)
        (local_types (method_view method.now).locals))
        (method_view method.now).params) }
{
    match &method.body {
        None => true,
        Some(_) => begin_with_params(&method.locals, &method.params),
    }
}

// Whether the statement of a method's body fits, if it has one.
fn statement_fits(
    alloc: Global,
    program: &Program,
    id: ClassId,
    class: &Class,
    method: &Method,
) -> Result<bool, Memory>
    ensures { IfOk result (λ fits. fits ≡ if_there (is_body_fit (program_view program.now)
        (the_body_of (program_view program.now) id (method_view method.now))
        (class_view class.now).superclass) (method_view method.now).body) }
{
    match &method.body {
        None => Ok(true),
        Some(statement) => {
            let body = body_of(program, id, method);
            body_fits(alloc, program, &body, class.superclass, statement)
        }
    }
}

// Whether the body of a method of a class fits.
fn method_body_fits(
    alloc: Global,
    program: &Program,
    id: ClassId,
    class: &Class,
    method: &Method,
) -> Result<bool, Memory>
    ensures { IfOk result (λ fits. fits ≡ is_method_body_fit (program_view program.now) id
        (class_view class.now) (method_view method.now)) }
{
    if !has_due_body(id, method) || !locals_fit(program, &method.locals) {
        return Ok(false);
    }
    if !params_are_first(method) {
        return Ok(false);
    }
    statement_fits(alloc, program, id, class, method)
}

/// Whether a method of a class fits, over the classes above its own.
pub fn method_fits(
    alloc: Global,
    program: &Program,
    id: ClassId,
    above: &[ClassId],
    class: &Class,
    method: &Method,
) -> Result<bool, Memory>
    requires { AreAbove (program_view program.now) id above.now }
    ensures { IfOk result (λ fits. fits ≡ is_method_fit (program_view program.now) id
        (class_view class.now) (method_view method.now)) }
{
    if !head_fits(program, class, method) {
        return Ok(false);
    }
    if !overrides_fit(alloc, program, id, above, method)? {
        return Ok(false);
    }
    method_body_fits(alloc, program, id, class, method)
}
