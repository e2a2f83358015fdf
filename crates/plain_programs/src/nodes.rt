// What a node is asked beside its parts.

ghost use Rattle.std.specs.Prelude.{◌≡◌, ◌||◌, IfOk};
ghost use Rattle.je_core.specs.Core.{form_of, maybe_core, maybe_stmt, ty_of};
ghost use Rattle.je_core.specs.View.{form_view, program_view, stmt_form_view, stmt_view_if, view, view_if};
ghost use Rattle.je_classes.specs.Hierarchy.{IsAcyclic};
ghost use Rattle.plain_programs.specs.Plain.{assigns_static as the_assigns_static, is_static_place as the_is_static_place, is_wild_operand as the_is_wild_operand, joins_wild as the_joins_wild, names_wild as the_names_wild};
ghost use Rattle.plain_programs.specs.Wild.{is_wild_text as the_is_wild_text};
ghost use Rattle.plain_programs.specs.way.Deciding.{is_plain_form as the_is_plain_form, is_plain_node as the_is_plain_node};

use crate::wild::{is_wild, is_wild_text};
use fit_parts::type_of;
use je_core::{Expr, Form, Memory, Program, StmtForm};
use std::alloc::Global;
use std::rc::Rc;

// Whether an expression of a form is a static field.
fn is_static_form(form: &Form) -> bool
    ensures { result ≡ the_is_static_place (form_view form.now) }
{
    match form {
        Form::Static { .. } => true,
        _ => false,
    }
}

// Whether an expression is a static field.
#[tactic(auto, using(je_core::proofs::Views::form_of_view))]
fn is_static_place(place: &Expr) -> bool
    ensures { result ≡ the_is_static_place (form_of (view place.now)) }
{
    is_static_form(&place.form)
}

// Whether an expression of a form assigns a static field.
fn assigns_static(form: &Form) -> bool
    ensures { result ≡ the_assigns_static (form_view form.now) }
{
    match form {
        Form::Assign { place, .. } | Form::Update { place, .. } => is_static_place(place),
        _ => false,
    }
}

// Whether an expression of a form names a wild method or constructor.
fn names_wild(form: &Form) -> bool
    ensures { result ≡ the_names_wild (form_view form.now) }
{
    match form {
        Form::CallVirtual { class, method, .. }
        | Form::CallExact { class, method, .. }
        | Form::New { class, method, .. } => is_wild(*class, *method as usize),
        _ => false,
    }
}

// Whether the texts of two operands come from a wild `toString()`, that of one at least.
fn is_wild_pair(alloc: Global, program: &Program, left: &Expr, right: &Expr) -> Result<bool, Memory>
    requires { IsAcyclic (program_view program.now) }
    ensures { IfOk result (λ wild. wild ≡
        (the_is_wild_text (program_view program.now) (ty_of (view left.now)) ||
        the_is_wild_text (program_view program.now) (ty_of (view right.now)))) }
{
    if is_wild_text(alloc, program, type_of(left))? {
        return Ok(true);
    }
    is_wild_text(alloc, program, type_of(right))
}

// Whether the text of an operand comes from a wild `toString()`, if there is one.
fn is_wild_operand(
    alloc: Global,
    program: &Program,
    operand: &Option<Rc<Expr>>,
) -> Result<bool, Memory>
    requires { IsAcyclic (program_view program.now) }
    ensures { IfOk result (λ wild. wild ≡
        the_is_wild_operand (program_view program.now) (maybe_core (view_if operand.now))) }
{
    match operand {
        None => Ok(false),
        Some(operand) => is_wild_text(alloc, program, type_of(operand)),
    }
}

// Whether an expression of a form joins a text that comes from a wild `toString()`.
fn joins_wild(alloc: Global, program: &Program, form: &Form) -> Result<bool, Memory>
    requires { IsAcyclic (program_view program.now) }
    ensures { IfOk result (λ wild. wild ≡
        the_joins_wild (program_view program.now) (form_view form.now)) }
{
    match form {
        Form::Concat { left, right } => is_wild_pair(alloc, program, left, right),
        Form::Update { operand, .. } => is_wild_operand(alloc, program, operand),
        _ => Ok(false),
    }
}

/// Whether an expression of a form is plain by itself where it stands, in a static initializer or not.
pub fn node_is_plain(
    alloc: Global,
    program: &Program,
    starts: bool,
    form: &Form,
) -> Result<bool, Memory>
    requires { IsAcyclic (program_view program.now) }
    ensures { IfOk result (λ plain. plain ≡
        the_is_plain_node (program_view program.now) starts (form_view form.now)) }
{
    if !starts && assigns_static(form) {
        return Ok(false);
    }
    if names_wild(form) {
        return Ok(false);
    }
    let joins = joins_wild(alloc, program, form)?;
    Ok(!joins)
}

/// Whether a statement of a form has no `finally`.
pub fn form_is_plain(form: &StmtForm) -> bool
    ensures { result ≡ the_is_plain_form (stmt_form_view form.now) }
{
    match form {
        StmtForm::Try { last: Some(_), .. } => false,
        _ => true,
    }
}
