// Fields (JLS 8.3).

ghost use Rattle.std.specs.Prelude.{◌≡◌, IfOk};
ghost use Rattle.je_core.specs.Core.{form_of};
ghost use Rattle.je_core.specs.View.{view, form_view, field_view, program_view};
ghost use Rattle.je_fitting.specs.Members.{is_constant_form, static_body as the_static_body};
ghost use Rattle.je_fitting.specs.way.DecidingMembers.{is_field_fit, is_constant_fit};

use crate::bodies::static_body;
use crate::heads::names_interface;
use class_members::same_type;
use fit_nodes::expression_fits;
use fit_parts::{is_variable_type, type_of};
use je_core::{ClassId, Expr, Field, Form, Memory, Program};
use std::alloc::Global;

// Whether a form is that of a constant.
fn has_constant_form(form: &Form) -> bool
    ensures { result ≡ is_constant_form (form_view form.now) }
{
    match form {
        Form::Const { .. } | Form::Text { .. } => true,
        _ => false,
    }
}

// Whether an expression is a constant.
#[tactic(auto, using(je_core::proofs::Views::form_of_view))]
fn is_constant(e: &Expr) -> bool
    ensures { result ≡ is_constant_form (form_of (view e.now)) }
{
    has_constant_form(&e.form)
}

// Whether the constant of a field fits.
fn constant_fits(
    alloc: Global,
    program: &Program,
    class: ClassId,
    field: &Field,
    constant: &Expr,
) -> Result<bool, Memory>
    ensures { IfOk result (λ fits. fits ≡ is_constant_fit (program_view program.now) class
        (field_view field.now) (view constant.now)) }
{
    if !field.is_static || !field.is_final {
        return Ok(false);
    }
    if !is_constant(constant) {
        return Ok(false);
    }
    if !expression_fits(alloc, program, &static_body(class), constant)? {
        return Ok(false);
    }
    Ok(same_type(type_of(constant), field.ty))
}

/// Whether a field of a class fits.
pub fn field_fits(
    alloc: Global,
    program: &Program,
    class: ClassId,
    field: &Field,
) -> Result<bool, Memory>
    ensures { IfOk result (λ fits. fits ≡
        is_field_fit (program_view program.now) class (field_view field.now)) }
{
    if !is_variable_type(program, field.ty) {
        return Ok(false);
    }
    if names_interface(program, class) && !field.is_static {
        return Ok(false);
    }
    match &field.constant {
        None => Ok(true),
        Some(constant) => constant_fits(alloc, program, class, field, constant),
    }
}
