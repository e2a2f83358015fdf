// String concatenation, by `+` and by `+=`.

ghost use Rattle.std.specs.Prelude.{◌≡◌, ◌≤◌, ◌+◌, ◌++◌, IfOk, length};
ghost use Rattle.je_core.specs.Core.{Concat as ConcatForm};
ghost use Rattle.je_core.specs.View.{view, stmt_view};
ghost use Rattle.je_java.specs.Steps.{bind, framed};
ghost use Rattle.je_java.specs.Texts.{units_told as the_units_told, concatenated};
ghost use Rattle.je_java.specs.Meaning.{eval_form, to_string as the_to_string};
ghost use Rattle.machine_forms.specs.way.Updating.{becomes};
ghost use Rattle.machine_parts.specs.Telling.{summed, text_behind as the_text_behind, texts_of as the_texts_of, told_by};
ghost use Rattle.machine_parts.specs.Ways.{own_of, valued, height, gives};
ghost use Rattle.machine_parts.specs.way.Clauses.{BeginsValue, GoesToValue, GoesAhead};

use crate::library::Ran;
use crate::telling::{Telling, tell};
use crate::update::put_by;
use je_base::Units;
use je_core::{Expr, Memory, ObjId, Program, Stmt, Ty, Value};
use je_heap::Heap;
use machine_parts::frame::{Context, Control, Env, Frame, Made, Sum, Told};
use machine_parts::stack::Stack;
use machine_parts::text::{Spelled, make_text, spell, units_told};
use std::mem;
use std::rc::Rc;

/// A string concatenation begins with its left operand.
pub fn begin_concat(
    ty: Ty,
    left: &Rc<Expr>,
    right: &Rc<Expr>,
    frames: &mut Stack,
) -> Result<Control, Memory>
    ensures goes { IfOk result (BeginsValue frames.old frames.new
        (λ p m. eval_form p m ty (ConcatForm (view left.now.value) (view right.now.value)))) }
    ensures short { IfOk result (λ c. length frames.new + gives c ≤ length frames.old + 1) }
{
    frames.push(Frame::ConcatLeft {
        right: right.clone()?,
    })?;
    Ok(Control::Eval(left.clone()?))
}

/// The right operand, once the left one has a value.
pub fn begin_concat_right(
    left: Value,
    right: Rc<Expr>,
    frames: &mut Stack,
) -> Result<Control, Memory>
    ensures goes { IfOk result (BeginsValue frames.old frames.new
        (λ p m. bind (m.eval (view right.value)) (concatenated (the_to_string p m) left))) }
    ensures short { IfOk result (λ c. length frames.new + gives c ≤ length frames.old + 1) }
{
    frames.push(Frame::ConcatRight { left })?;
    Ok(Control::Eval(right))
}

// What becomes of a new string.
fn put_sum(
    context: &mut Context,
    heap: &mut Heap,
    program: &Program,
    sum: Sum,
    text: Value,
) -> Result<Control, Memory>
    ensures goes { IfOk result (GoesToValue program.now context.old heap.old context.new heap.new
        (λ p m. becomes p sum text)) }
    ensures short { IfOk result (λ c. height context.new + gives c ≤ height context.old + 1) }
    ensures begun { context.new.begun ≡ context.old.begun }
{
    match sum {
        Sum::Given => Ok(Control::Give(text)),
        Sum::Stored {
            node,
            object,
            index,
            old,
        } => put_by(context, heap, program, &node.form, object, index, old, text),
    }
}

// The new string of two texts, and what becomes of it.
fn sum_up(
    context: &mut Context,
    heap: &mut Heap,
    program: &Program,
    sum: Sum,
    front: Units,
    back: &Units,
) -> Result<Control, Memory>
    ensures goes { IfOk result (GoesToValue program.now context.old heap.old context.new heap.new
        (λ p m. summed p sum (front ++ back.now))) }
    ensures short { IfOk result (λ c. height context.new + gives c ≤ height context.old + 1) }
    ensures begun { context.new.begun ≡ context.old.begun }
{
    match make_text(context, heap, front, back)? {
        Made::Object(text) => put_sum(context, heap, program, sum, Value::Ref(text)),
        Made::Spent => Ok(Control::Spent),
        Made::Wrong => Ok(Control::Wrong),
    }
}

// Enters the body of a `toString()`.
fn enter_telling(
    context: &mut Context,
    own: Env,
    ends: Value,
    body: Rc<Stmt>,
    told: Told,
) -> Result<Control, Memory>
    ensures goes { IfOk result (GoesAhead context.old context.new (λ p m k.
        framed (own_of own) ends (m.exec (stmt_view body.value))
        (λ v. valued (told_by p m told v) k) k.out)) }
    ensures short { IfOk result (λ c. height context.new + gives c ≤ height context.old + 1) }
    ensures begun { context.new.begun ≡ context.old.begun }
{
    let caller = mem::replace(&mut context.env, own);
    context.frames.push(Frame::Telling {
        caller,
        result: ends,
        told,
    })?;
    Ok(Control::Exec(body))
}

// Goes on with what the `toString()` of the right operand gave.
fn tell_right(
    context: &mut Context,
    heap: &mut Heap,
    program: &Program,
    sum: Sum,
    front: Units,
    value: Value,
) -> Result<Control, Memory>
    ensures goes { IfOk result (GoesToValue program.now context.old heap.old context.new heap.new
        (λ p m. bind (the_units_told value) (λ back. summed p sum (front ++ back)))) }
    ensures short { IfOk result (λ c. height context.new + gives c ≤ height context.old + 1) }
    ensures begun { context.new.begun ≡ context.old.begun }
{
    match units_told(context.alloc, heap, value)? {
        Some(back) => sum_up(context, heap, program, sum, front, &back),
        None => Ok(Control::Wrong),
    }
}

// The `toString()` of the right operand, and then the new string.
fn call_right(
    context: &mut Context,
    heap: &mut Heap,
    program: &Program,
    sum: Sum,
    front: Units,
    object: ObjId,
) -> Result<Control, Memory>
    ensures goes { IfOk result (GoesToValue program.now context.old heap.old context.new heap.new
        (λ p m. bind (the_to_string p m object) (λ v.
        bind (the_units_told v) (λ back. summed p sum (front ++ back))))) }
    ensures short { IfOk result (λ c. height context.new + gives c ≤ height context.old + 1) }
    ensures begun { context.new.begun ≡ context.old.begun }
{
    match tell(context, heap, program, object)? {
        Telling::Body { own, ends, body } => {
            enter_telling(context, own, ends, body, Told::Right { front, sum })
        }
        Telling::Library(ran) => match ran {
            Ran::Value(value) => tell_right(context, heap, program, sum, front, value),
            Ran::Throws(exception) => Ok(Control::Throw(exception)),
            Ran::Spent => Ok(Control::Spent),
            Ran::Wrong => Ok(Control::Wrong),
        },
    }
}

// The right operand comes to its text, behind that of the left one.
fn text_behind(
    context: &mut Context,
    heap: &mut Heap,
    program: &Program,
    sum: Sum,
    front: Units,
    right: Value,
) -> Result<Control, Memory>
    ensures goes { IfOk result (GoesToValue program.now context.old heap.old context.new heap.new
        (λ p m. the_text_behind p m sum front right)) }
    ensures short { IfOk result (λ c. height context.new + gives c ≤ height context.old + 1) }
    ensures begun { context.new.begun ≡ context.old.begun }
{
    match spell(context.alloc, heap, right)? {
        Spelled::Units(back) => sum_up(context, heap, program, sum, front, &back),
        Spelled::Told(object) => call_right(context, heap, program, sum, front, object),
        Spelled::Wrong => Ok(Control::Wrong),
    }
}

// Goes on with what the `toString()` of the left operand gave.
fn tell_left(
    context: &mut Context,
    heap: &mut Heap,
    program: &Program,
    sum: Sum,
    right: Value,
    value: Value,
) -> Result<Control, Memory>
    ensures goes { IfOk result (GoesToValue program.now context.old heap.old context.new heap.new
        (λ p m. bind (the_units_told value) (λ front. the_text_behind p m sum front right))) }
    ensures short { IfOk result (λ c. height context.new + gives c ≤ height context.old + 1) }
    ensures begun { context.new.begun ≡ context.old.begun }
{
    match units_told(context.alloc, heap, value)? {
        Some(front) => text_behind(context, heap, program, sum, front, right),
        None => Ok(Control::Wrong),
    }
}

// The `toString()` of the left operand, and then the right one.
fn call_left(
    context: &mut Context,
    heap: &mut Heap,
    program: &Program,
    sum: Sum,
    right: Value,
    object: ObjId,
) -> Result<Control, Memory>
    ensures goes { IfOk result (GoesToValue program.now context.old heap.old context.new heap.new
        (λ p m. bind (the_to_string p m object) (λ v.
        bind (the_units_told v) (λ front. the_text_behind p m sum front right)))) }
    ensures short { IfOk result (λ c. height context.new + gives c ≤ height context.old + 1) }
    ensures begun { context.new.begun ≡ context.old.begun }
{
    match tell(context, heap, program, object)? {
        Telling::Body { own, ends, body } => {
            enter_telling(context, own, ends, body, Told::Left { right, sum })
        }
        Telling::Library(ran) => match ran {
            Ran::Value(value) => tell_left(context, heap, program, sum, right, value),
            Ran::Throws(exception) => Ok(Control::Throw(exception)),
            Ran::Spent => Ok(Control::Spent),
            Ran::Wrong => Ok(Control::Wrong),
        },
    }
}

/// Once both operands have values: the left one comes to its text before the right one does. What becomes of the new
/// string is said.
pub fn texts_of(
    context: &mut Context,
    heap: &mut Heap,
    program: &Program,
    sum: Sum,
    left: Value,
    right: Value,
) -> Result<Control, Memory>
    ensures goes { IfOk result (GoesToValue program.now context.old heap.old context.new heap.new
        (λ p m. the_texts_of p m sum left right)) }
    ensures short { IfOk result (λ c. height context.new + gives c ≤ height context.old + 1) }
    ensures begun { context.new.begun ≡ context.old.begun }
{
    match spell(context.alloc, heap, left)? {
        Spelled::Units(front) => text_behind(context, heap, program, sum, front, right),
        Spelled::Told(object) => call_left(context, heap, program, sum, right, object),
        Spelled::Wrong => Ok(Control::Wrong),
    }
}

/// The new string of two operands that have values.
pub fn concat(
    context: &mut Context,
    heap: &mut Heap,
    program: &Program,
    left: Value,
    right: Value,
) -> Result<Control, Memory>
    ensures goes { IfOk result (GoesToValue program.now context.old heap.old context.new heap.new
        (λ p m. concatenated (the_to_string p m) left right)) }
    ensures short { IfOk result (λ c. height context.new + gives c ≤ height context.old + 1) }
    ensures begun { context.new.begun ≡ context.old.begun }
{
    texts_of(context, heap, program, Sum::Given, left, right)
}

/// Goes on with what a `toString()` gave.
#[tactic(auto)]
pub fn tell_on(
    context: &mut Context,
    heap: &mut Heap,
    program: &Program,
    told: Told,
    value: Value,
) -> Result<Control, Memory>
    ensures goes { IfOk result (GoesToValue program.now context.old heap.old context.new heap.new
        (λ p m. told_by p m told value)) }
    ensures short { IfOk result (λ c. height context.new + gives c ≤ height context.old + 1) }
    ensures begun { context.new.begun ≡ context.old.begun }
{
    match told {
        Told::Left { right, sum } => tell_left(context, heap, program, sum, right, value),
        Told::Right { front, sum } => tell_right(context, heap, program, sum, front, value),
    }
}
