// An expression begins, once its unit is taken.

ghost use Rattle.std.specs.Prelude.{◌≡◌, ◌≤◌, ◌+◌, IfOk, length};
ghost use Rattle.machine_parts.specs.way.Clauses.{BeginsValue, IsValue, IsValueIn, GoesToValue};
ghost use Rattle.je_core.specs.View.{view, form_view};
ghost use Rattle.je_core.specs.Core.{And as AndForm, Or as OrForm, Choose as ChooseForm, Binary as BinaryForm, form_of};
ghost use Rattle.je_java.specs.Steps.{bind, wrong as the_wrong, get_this, get_local, read_field, unary as the_unary, convert as the_convert, cast, is_instance};
ghost use Rattle.je_java.specs.Meaning.{eval_form, assign_to, set_local, set_field};
ghost use Rattle.machine_parts.specs.Ways.{height, gives};

use crate::array::{begin_element, begin_length, begin_set_array};
use crate::call::begin_call;
use crate::concat::begin_concat;
use crate::update::begin_update;
use crate::variable::{begin_before, begin_set_before, begin_set_static};
use je_core::{BinOp, ClassId, Expr, Form, Memory, Program, Slots, Ty, UnOp, Value};
use je_heap::Heap;
use machine_parts::frame::{Context, Control, Frame};
use machine_parts::stack::Stack;
use machine_parts::value::constant;
use machine_parts::variable::{read_static, read_text};
use std::rc::Rc;

fn begin_local(local: u32, locals: &Slots) -> Control
    ensures goes { IsValueIn (λ own. own.locals ≡ locals.now) result (λ p m. get_local local) }
    ensures short { gives result ≤ 1 }
{
    match locals.get(local as usize) {
        Some(value) => Control::Give(value),
        None => Control::Wrong,
    }
}

fn begin_this(this: Value) -> Control
    ensures goes { IsValueIn (λ own. own.this ≡ this) result (λ p m. get_this) }
    ensures short { gives result ≤ 1 }
{
    Control::Give(this)
}

fn begin_field(
    class: ClassId,
    field: u32,
    object: &Rc<Expr>,
    frames: &mut Stack,
) -> Result<Control, Memory>
    ensures goes { IfOk result (BeginsValue frames.old frames.new
        (λ p m. bind (m.eval (view object.now.value)) (λ o. read_field p class field o))) }
    ensures short { IfOk result (λ c. length frames.new + gives c ≤ length frames.old + 1) }
{
    frames.push(Frame::ReadField { class, field })?;
    Ok(Control::Eval(object.clone()?))
}

fn begin_unary(op: UnOp, operand: &Rc<Expr>, frames: &mut Stack) -> Result<Control, Memory>
    ensures goes { IfOk result (BeginsValue frames.old frames.new
        (λ p m. bind (m.eval (view operand.now.value)) (λ a. the_unary op a))) }
    ensures short { IfOk result (λ c. length frames.new + gives c ≤ length frames.old + 1) }
{
    frames.push(Frame::Operand { op })?;
    Ok(Control::Eval(operand.clone()?))
}

fn begin_convert(ty: Ty, operand: &Rc<Expr>, frames: &mut Stack) -> Result<Control, Memory>
    ensures goes { IfOk result (BeginsValue frames.old frames.new
        (λ p m. bind (m.eval (view operand.now.value)) (λ a. the_convert ty a))) }
    ensures short { IfOk result (λ c. length frames.new + gives c ≤ length frames.old + 1) }
{
    frames.push(Frame::Converted { ty })?;
    Ok(Control::Eval(operand.clone()?))
}

fn begin_cast(ty: Ty, operand: &Rc<Expr>, frames: &mut Stack) -> Result<Control, Memory>
    ensures goes { IfOk result (BeginsValue frames.old frames.new
        (λ p m. bind (m.eval (view operand.now.value)) (λ a. cast p ty a))) }
    ensures short { IfOk result (λ c. length frames.new + gives c ≤ length frames.old + 1) }
{
    frames.push(Frame::Cast { ty })?;
    Ok(Control::Eval(operand.clone()?))
}

fn begin_instance_of(of: Ty, operand: &Rc<Expr>, frames: &mut Stack) -> Result<Control, Memory>
    ensures goes { IfOk result (BeginsValue frames.old frames.new
        (λ p m. bind (m.eval (view operand.now.value)) (λ a. is_instance p of a))) }
    ensures short { IfOk result (λ c. length frames.new + gives c ≤ length frames.old + 1) }
{
    frames.push(Frame::InstanceOf { of })?;
    Ok(Control::Eval(operand.clone()?))
}

fn begin_and(
    ty: Ty,
    left: &Rc<Expr>,
    right: &Rc<Expr>,
    frames: &mut Stack,
) -> Result<Control, Memory>
    ensures goes { IfOk result (BeginsValue frames.old frames.new
        (λ p m. eval_form p m ty (AndForm (view left.now.value) (view right.now.value)))) }
    ensures short { IfOk result (λ c. length frames.new + gives c ≤ length frames.old + 1) }
{
    frames.push(Frame::And {
        right: right.clone()?,
    })?;
    Ok(Control::Eval(left.clone()?))
}

fn begin_or(
    ty: Ty,
    left: &Rc<Expr>,
    right: &Rc<Expr>,
    frames: &mut Stack,
) -> Result<Control, Memory>
    ensures goes { IfOk result (BeginsValue frames.old frames.new
        (λ p m. eval_form p m ty (OrForm (view left.now.value) (view right.now.value)))) }
    ensures short { IfOk result (λ c. length frames.new + gives c ≤ length frames.old + 1) }
{
    frames.push(Frame::Or {
        right: right.clone()?,
    })?;
    Ok(Control::Eval(left.clone()?))
}

fn begin_choose(
    ty: Ty,
    condition: &Rc<Expr>,
    yes: &Rc<Expr>,
    no: &Rc<Expr>,
    frames: &mut Stack,
) -> Result<Control, Memory>
    ensures goes { IfOk result (BeginsValue frames.old frames.new
        (λ p m. eval_form p m ty
        (ChooseForm (view condition.now.value) (view yes.now.value) (view no.now.value)))) }
    ensures short { IfOk result (λ c. length frames.new + gives c ≤ length frames.old + 1) }
{
    frames.push(Frame::Choose {
        yes: yes.clone()?,
        no: no.clone()?,
    })?;
    Ok(Control::Eval(condition.clone()?))
}

fn begin_binary(
    ty: Ty,
    op: BinOp,
    left: &Rc<Expr>,
    right: &Rc<Expr>,
    frames: &mut Stack,
) -> Result<Control, Memory>
    ensures goes { IfOk result (BeginsValue frames.old frames.new
        (λ p m. eval_form p m ty (BinaryForm op (view left.now.value) (view right.now.value)))) }
    ensures short { IfOk result (λ c. length frames.new + gives c ≤ length frames.old + 1) }
{
    frames.push(Frame::Left {
        op,
        right: right.clone()?,
    })?;
    Ok(Control::Eval(left.clone()?))
}

fn begin_set_local(local: u32, value: &Rc<Expr>, frames: &mut Stack) -> Result<Control, Memory>
    ensures goes { IfOk result (BeginsValue frames.old frames.new
        (λ p m. set_local m local (view value.now.value))) }
    ensures short { IfOk result (λ c. length frames.new + gives c ≤ length frames.old + 1) }
{
    frames.push(Frame::SetLocal { local })?;
    Ok(Control::Eval(value.clone()?))
}

fn begin_set_field(
    object: &Rc<Expr>,
    class: ClassId,
    field: u32,
    value: &Rc<Expr>,
    frames: &mut Stack,
) -> Result<Control, Memory>
    ensures goes { IfOk result (BeginsValue frames.old frames.new
        (λ p m. set_field p m (view object.now.value) class field (view value.now.value))) }
    ensures short { IfOk result (λ c. length frames.new + gives c ≤ length frames.old + 1) }
{
    frames.push(Frame::SetObject {
        class,
        field,
        value: value.clone()?,
    })?;
    Ok(Control::Eval(object.clone()?))
}

fn begin_wrong() -> Control
    ensures goes { IsValue result (λ p m. the_wrong) }
    ensures short { gives result ≤ 1 }
{
    Control::Wrong
}

#[tactic(auto)]
fn begin_assign(form: &Form, value: &Rc<Expr>, frames: &mut Stack) -> Result<Control, Memory>
    ensures goes { IfOk result (BeginsValue frames.old frames.new
        (λ p m. assign_to p m (form_view form.now) (view value.now.value))) }
    ensures short { IfOk result (λ c. length frames.new + gives c ≤ length frames.old + 1) }
{
    match form {
        Form::Local { local } => begin_set_local(*local, value, frames),
        Form::Field {
            object,
            class,
            field,
        } => begin_set_field(object, *class, *field, value, frames),
        Form::Static {
            object: Some(object),
            class,
            field,
        } => begin_set_before(object, *class, *field, value, frames),
        Form::Static {
            object: None,
            class,
            field,
        } => begin_set_static(*class, *field, value.clone()?, frames),
        Form::Index { array, index } => begin_set_array(array, index, value, frames),
        _ => Ok(begin_wrong()),
    }
}

#[tactic(auto, using(je_core::proofs::Views::form_of_view))]
fn begin_place(place: &Expr, value: &Rc<Expr>, frames: &mut Stack) -> Result<Control, Memory>
    ensures goes { IfOk result (BeginsValue frames.old frames.new
        (λ p m. assign_to p m (form_of (view place.now)) (view value.now.value))) }
    ensures short { IfOk result (λ c. length frames.new + gives c ≤ length frames.old + 1) }
{
    begin_assign(&place.form, value, frames)
}

/// An expression begins, by its form.
#[tactic(auto)]
pub fn begin_expr(
    context: &mut Context,
    heap: &mut Heap,
    program: &Program,
    node: Rc<Expr>,
) -> Result<Control, Memory>
    ensures goes { IfOk result (GoesToValue program.now context.old heap.old context.new heap.new
        (λ p m. eval_form p m node.value.ty (form_view node.value.form))) }
    ensures short { IfOk result (λ c. height context.new + gives c ≤ height context.old + 1) }
    ensures begun { context.new.begun ≡ context.old.begun }
{
    match &node.form {
        Form::Const { value, .. } => Ok(constant(*value)),
        Form::Text { units, .. } => Ok(read_text(heap, program, units)),
        Form::Local { local } => Ok(begin_local(*local, &context.env.locals)),
        Form::This => Ok(begin_this(context.env.this)),
        Form::Field {
            object,
            class,
            field,
        } => begin_field(*class, *field, object, &mut context.frames),
        Form::Static {
            object: Some(object),
            class,
            field,
        } => begin_before(object, *class, *field, &mut context.frames),
        Form::Static {
            object: None,
            class,
            field,
        } => Ok(read_static(heap, program, *class, *field)),
        Form::Index { array, index } => {
            begin_element(node.ty, array, index, &mut context.frames)
        }
        Form::Length { array } => begin_length(array, &mut context.frames),
        Form::Assign { place, value } => begin_place(place, value, &mut context.frames),
        Form::Update { .. } => begin_update(context, heap, program, node),
        Form::Unary { op, operand } => begin_unary(*op, operand, &mut context.frames),
        Form::Convert { operand } => begin_convert(node.ty, operand, &mut context.frames),
        Form::Cast { operand } => begin_cast(node.ty, operand, &mut context.frames),
        Form::InstanceOf { operand, of } => begin_instance_of(*of, operand, &mut context.frames),
        Form::And { left, right } => begin_and(node.ty, left, right, &mut context.frames),
        Form::Or { left, right } => begin_or(node.ty, left, right, &mut context.frames),
        Form::Choose { condition, yes, no } => {
            begin_choose(node.ty, condition, yes, no, &mut context.frames)
        }
        Form::Binary { op, left, right } => begin_binary(
            node.ty,
            *op,
            left,
            right,
            &mut context.frames,
        ),
        Form::CallVirtual { .. } | Form::CallExact { .. } | Form::New { .. } => {
            begin_call(context, heap, program, node)
        }
        Form::NewArray { .. } | Form::ArrayOf { .. } => begin_call(context, heap, program, node),
        Form::Concat { left, right } => begin_concat(node.ty, left, right, &mut context.frames),
    }
}
