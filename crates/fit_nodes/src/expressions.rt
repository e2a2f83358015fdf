// Whether an expression fits where it stands.

ghost use Rattle.std.specs.Prelude.{◌≡◌, ◌&&◌, IfOk};
ghost use Rattle.je_core.specs.Core.{ty_of, form_of, cores, maybe_core};
ghost use Rattle.je_core.specs.View.{view, views, view_if, form_view, program_view};
ghost use Rattle.je_fitting.specs.Types.{agrees as the_agrees};
ghost use Rattle.je_fitting.specs.way.Deciding.{is_fit, is_form_fit, is_operand_fit, is_maybe_fit, is_place, are_fit};

use crate::leaves;
use class_members::same_type;
use fit_parts::{Body, agrees, is_bool, is_int, is_number, is_step, of, type_of, updates};
use je_core::{Base, BinOp, ClassId, Expr, Form, Memory, Program, Ty};
use std::alloc::Global;
use std::rc::Rc;

/// Whether an expression fits where it stands.
#[cycle(expression)]
#[tactic(auto, using(je_core::proofs::Views::view_is))]
pub fn expression_fits(
    alloc: Global,
    program: &Program,
    body: &Body<'_>,
    e: &Expr,
) -> Result<bool, Memory>
    ensures { IfOk result (λ fits. fits ≡ is_fit (program_view program.now) body.now (view e.now)) }
{
    form_fits(alloc, program, body, &e.form, e.ty)
}

#[cycle(expression)]
fn form_fits(
    alloc: Global,
    program: &Program,
    body: &Body<'_>,
    form: &Form,
    ty: Ty,
) -> Result<bool, Memory>
    ensures { IfOk result (λ fits. fits ≡
        is_form_fit (program_view program.now) body.now (form_view form.now) ty) }
{
    match form {
        Form::Const { value, uses } => Ok(leaves::constant_fits(program, *value, uses, ty)),
        Form::Text { units, uses } => Ok(leaves::text_fits(program, units, uses, ty)),
        Form::Local { local } => Ok(leaves::local_fits(body, *local, ty)),
        Form::This => Ok(leaves::this_fits(body, ty)),
        Form::Field {
            object,
            class,
            field,
        } => {
            if !expression_fits(alloc, program, body, object)? {
                return Ok(false);
            }
            if !leaves::is_received(alloc, program, object, *class)? {
                return Ok(false);
            }
            Ok(leaves::field_fits(program, false, *class, *field, ty))
        }
        Form::Static {
            object,
            class,
            field,
        } => {
            if !receiver_fits(alloc, program, body, *class, object)? {
                return Ok(false);
            }
            Ok(leaves::field_fits(program, true, *class, *field, ty))
        }
        Form::Index { array, index } => {
            if !expression_fits(alloc, program, body, array)? || !leaves::is_array_of(array, ty) {
                return Ok(false);
            }
            if !expression_fits(alloc, program, body, index)? {
                return Ok(false);
            }
            Ok(is_int(type_of(index)))
        }
        Form::Length { array } => {
            if !expression_fits(alloc, program, body, array)? {
                return Ok(false);
            }
            Ok(leaves::length_fits(array, ty))
        }
        Form::Assign { place, value } => {
            if !place_fits(alloc, program, body, place)? {
                return Ok(false);
            }
            if !expression_fits(alloc, program, body, value)? {
                return Ok(false);
            }
            leaves::assignment_fits(alloc, program, place, value, ty)
        }
        Form::Update {
            place,
            op,
            operand,
            gives_old,
        } => {
            if !expression_fits(alloc, program, body, place)? {
                return Ok(false);
            }
            if !agrees(alloc, program, ty, type_of(place))?
                || !leaves::is_place(program, body, place)
            {
                return Ok(false);
            }
            operand_fits(alloc, program, body, *op, ty, *gives_old, operand)
        }
        Form::Unary { op, operand } => {
            if !expression_fits(alloc, program, body, operand)? {
                return Ok(false);
            }
            Ok(leaves::unary_fits(*op, operand, ty))
        }
        Form::Binary { op, left, right } => {
            if !expression_fits(alloc, program, body, left)? {
                return Ok(false);
            }
            if !expression_fits(alloc, program, body, right)? {
                return Ok(false);
            }
            Ok(leaves::binary_fits(*op, left, right, ty))
        }
        Form::And { left, right } => {
            if !expression_fits(alloc, program, body, left)? {
                return Ok(false);
            }
            if !expression_fits(alloc, program, body, right)? {
                return Ok(false);
            }
            Ok(leaves::logic_fits(left, right, ty))
        }
        Form::Or { left, right } => {
            if !expression_fits(alloc, program, body, left)? {
                return Ok(false);
            }
            if !expression_fits(alloc, program, body, right)? {
                return Ok(false);
            }
            Ok(leaves::logic_fits(left, right, ty))
        }
        Form::Choose { condition, yes, no } => {
            if !expression_fits(alloc, program, body, condition)? || !is_bool(type_of(condition)) {
                return Ok(false);
            }
            if !goes_to(alloc, program, body, yes, ty)? {
                return Ok(false);
            }
            if !goes_to(alloc, program, body, no, ty)? {
                return Ok(false);
            }
            Ok(leaves::choice_fits(yes, no, ty))
        }
        Form::Convert { operand } => {
            if !expression_fits(alloc, program, body, operand)? {
                return Ok(false);
            }
            Ok(leaves::conversion_fits(operand, ty))
        }
        Form::Cast { operand } => {
            if !expression_fits(alloc, program, body, operand)? {
                return Ok(false);
            }
            Ok(leaves::cast_fits(program, operand, ty))
        }
        Form::InstanceOf { operand, of: to } => {
            if !expression_fits(alloc, program, body, operand)? {
                return Ok(false);
            }
            if !leaves::cast_fits(program, operand, *to) {
                return Ok(false);
            }
            Ok(same_type(of(Base::Bool), ty))
        }
        Form::Concat { left, right } => {
            if !expression_fits(alloc, program, body, left)? {
                return Ok(false);
            }
            if !expression_fits(alloc, program, body, right)? {
                return Ok(false);
            }
            Ok(leaves::concat_fits(left, right, ty))
        }
        Form::CallVirtual {
            receiver,
            class,
            method,
            args,
        } => {
            if !expression_fits(alloc, program, body, receiver)? {
                return Ok(false);
            }
            if !leaves::is_received(alloc, program, receiver, *class)? {
                return Ok(false);
            }
            if !expressions_fit(alloc, program, body, args)? {
                return Ok(false);
            }
            leaves::virtual_fits(alloc, program, *class, *method, args, ty)
        }
        Form::CallExact {
            receiver,
            class,
            method,
            args,
        } => {
            if !receiver_fits(alloc, program, body, *class, receiver)? {
                return Ok(false);
            }
            if !expressions_fit(alloc, program, body, args)? {
                return Ok(false);
            }
            let is_received = leaves::has_receiver(receiver);
            leaves::exact_fits(alloc, program, is_received, *class, *method, args, ty)
        }
        Form::New {
            class,
            method,
            args,
            captures,
            ..
        } => {
            if !leaves::maker_fits(alloc, program, *class, *method, args)? {
                return Ok(false);
            }
            if !expressions_fit(alloc, program, body, args)? {
                return Ok(false);
            }
            leaves::instance_fits(alloc, program, body, *class, captures, ty)
        }
        Form::NewArray { lengths } => {
            if !expressions_fit(alloc, program, body, lengths)? {
                return Ok(false);
            }
            Ok(leaves::new_array_fits(program, lengths, ty))
        }
        Form::ArrayOf { values } => {
            if !expressions_fit(alloc, program, body, values)? {
                return Ok(false);
            }
            leaves::array_of_fits(alloc, program, values, ty)
        }
    }
}

// Whether an expression fits and goes to a place of a type.
#[cycle(expression)]
fn goes_to(
    alloc: Global,
    program: &Program,
    body: &Body<'_>,
    e: &Expr,
    ty: Ty,
) -> Result<bool, Memory>
    ensures { IfOk result
        (λ goes. goes ≡ (is_fit (program_view program.now) body.now (view e.now) &&
        the_agrees (program_view program.now) (ty_of (view e.now)) ty)) }
{
    if !expression_fits(alloc, program, body, e)? {
        return Ok(false);
    }
    agrees(alloc, program, type_of(e), ty)
}

// Whether the place of an assignment fits and may be assigned to.
#[cycle(expression)]
fn place_fits(
    alloc: Global,
    program: &Program,
    body: &Body<'_>,
    place: &Expr,
) -> Result<bool, Memory>
    ensures { IfOk result
        (λ fits. fits ≡ (is_fit (program_view program.now) body.now (view place.now) &&
        is_place (program_view program.now) body.now (form_of (view place.now)))) }
{
    if !expression_fits(alloc, program, body, place)? {
        return Ok(false);
    }
    Ok(leaves::is_place(program, body, place))
}

// Whether the operand of a compound assignment fits, or there is none beside `++` or `--`.
#[cycle(expression)]
fn operand_fits(
    alloc: Global,
    program: &Program,
    body: &Body<'_>,
    op: BinOp,
    ty: Ty,
    gives_old: bool,
    operand: &Option<Rc<Expr>>,
) -> Result<bool, Memory>
    ensures { IfOk result (λ fits. fits ≡ is_operand_fit (program_view program.now) body.now op ty
        gives_old (maybe_core (view_if operand.now))) }
{
    match operand {
        None => Ok(is_number(ty) && is_step(op)),
        Some(operand) => {
            if !expression_fits(alloc, program, body, operand)? {
                return Ok(false);
            }
            Ok(updates(op, ty, type_of(operand)) && !gives_old)
        }
    }
}

// Whether what a static member is selected from fits, where it is selected from an expression.
#[cycle(expression)]
fn receiver_fits(
    alloc: Global,
    program: &Program,
    body: &Body<'_>,
    class: ClassId,
    receiver: &Option<Rc<Expr>>,
) -> Result<bool, Memory>
    ensures { IfOk result (λ fits. fits ≡ is_maybe_fit (program_view program.now) body.now class
        (maybe_core (view_if receiver.now))) }
{
    match receiver {
        None => Ok(true),
        Some(receiver) => {
            if !expression_fits(alloc, program, body, receiver)? {
                return Ok(false);
            }
            leaves::is_received(alloc, program, receiver, class)
        }
    }
}

/// Whether each of some expressions fits where it stands.
#[cycle(expression)]
pub fn expressions_fit(
    alloc: Global,
    program: &Program,
    body: &Body<'_>,
    list: &[Rc<Expr>],
) -> Result<bool, Memory>
    ensures { IfOk result (λ fit. fit ≡
        are_fit (program_view program.now) body.now (cores (views list.now))) }
{
    for e in list {
        if !expression_fits(alloc, program, body, e)? {
            return Ok(false);
        }
    }
    Ok(true)
}
