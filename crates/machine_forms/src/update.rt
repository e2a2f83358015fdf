// Compound assignment, `++` and `--`.

ghost use Rattle.std.specs.Prelude.{◌≡◌, ◌≤◌, ◌+◌, IfOk, MatchOption, Some, None, length};
ghost use Rattle.je_core.specs.Core.{form_of};
ghost use Rattle.je_core.specs.View.{view, form_view};
ghost use Rattle.je_java.specs.Compound.{is_shift as the_is_shift, promoted as the_promoted, joined as the_joined, placed as the_placed, placed_outcome, update_outcome as the_update_outcome};
ghost use Rattle.je_core.specs.declared.program.Program.{Program as TheProgram};
ghost use Rattle.je_heap.specs.Contents.{Contents};
ghost use Rattle.machine_parts.specs.declared.frame.Env.{Env as TheEnv};
ghost use Rattle.je_java.specs.Steps.{bind, yields, wrong, get_local, put_local, read_field, write_field, read_static, updated};
ghost use Rattle.je_java.specs.Arrays.{read_element};
ghost use Rattle.je_java.specs.Meaning.{object_in as the_object_in, index_in as the_index_in, object_of as the_object_of, index_of as the_index_of, fetched, stored, given as the_given, on_operand, update_by as the_update_by, update_at as the_update_at, update_object as the_update_object, begin_update as the_begin_update};
ghost use Rattle.machine_parts.specs.Telling.{put_by as the_put_by};
ghost use Rattle.machine_parts.specs.Ways.{valued, height, gives};
ghost use Rattle.machine_forms.specs.way.Updating.{op_of};
ghost use Rattle.machine_parts.specs.way.Clauses.{BeginsValue, GoesToValue, GoesAhead, Fetches, operand_of, fetched_of};

use crate::concat::texts_of;
use crate::variable::store_variable;
use je_arith::{Outcome, try_binary, try_convert};
use je_core::{Base, BinOp, ClassId, Expr, Form, Memory, Program, Ty, Value};
use je_heap::Heap;
use machine_parts::array::{place_in, store_element};
use machine_parts::class::field_slot;
use machine_parts::field::slot;
use machine_parts::frame::{Context, Control, Env, Fetched, Frame, Sum};
use machine_parts::make::{raise_arithmetic, raise_array_index, raise_null_pointer};
use machine_parts::shape::extent_of;
use machine_parts::stack::Stack;
use machine_parts::text::is_string;
use machine_parts::variable::{static_place, variable};
use std::rc::Rc;

fn is_shift(op: BinOp) -> bool
    ensures { result ≡ the_is_shift op }
{
    match op {
        BinOp::Shl => true,
        BinOp::Shr => true,
        BinOp::Ushr => true,
        _ => false,
    }
}

// A value of a promoted type.
fn promoted(a: Value) -> Value
    ensures { result ≡ the_promoted a }
{
    match a {
        Value::Byte(x) => Value::Int(x as i32),
        Value::Short(x) => Value::Int(x as i32),
        Value::Char(n) => Value::Int(n as i32),
        _ => a,
    }
}

// An operator on two promoted values.
fn joined(op: BinOp, a: Value, b: Value) -> Outcome
    ensures { result ≡ the_joined op a b }
{
    match a {
        Value::Int(x) => match b {
            Value::Long(_) => {
                if is_shift(op) {
                    try_binary(op, a, b)
                } else {
                    try_binary(op, Value::Long(x as i64), b)
                }
            }
            _ => try_binary(op, a, b),
        },
        Value::Long(_) => match b {
            Value::Int(y) => {
                if is_shift(op) {
                    try_binary(op, a, b)
                } else {
                    try_binary(op, a, Value::Long(y as i64))
                }
            }
            _ => try_binary(op, a, b),
        },
        _ => try_binary(op, a, b),
    }
}

// A value in the type of a place.
fn placed(ty: Ty, value: Value) -> Option<Value>
    ensures { result ≡ the_placed ty value }
{
    if ty.dims > 0 {
        return None;
    }
    match ty.base {
        Base::Bool => match value {
            Value::Bool(_) => Some(value),
            _ => None,
        },
        _ => try_convert(value, ty.base),
    }
}

fn in_place(ty: Ty, outcome: Outcome) -> Outcome
    ensures { result ≡ placed_outcome ty outcome }
{
    match outcome {
        Outcome::Gives(value) => match placed(ty, value) {
            Some(value) => Outcome::Gives(value),
            None => Outcome::Unfit,
        },
        Outcome::ByZero => Outcome::ByZero,
        Outcome::Unfit => Outcome::Unfit,
    }
}

// What is stored in a place of a type.
fn update_outcome(ty: Ty, op: BinOp, a: Value, b: Value) -> Outcome
    ensures { result ≡ the_update_outcome ty op a b }
{
    in_place(ty, joined(op, promoted(a), promoted(b)))
}

/// The value of a local.
pub fn fetch_local(env: &Env, local: u32) -> Fetched
    ensures { (program : TheProgram) (heap : Contents) →
        Fetches program heap env.now (λ p. get_local local) result }
{
    match env.locals.get(local as usize) {
        Some(value) => Fetched::Value(value),
        None => Fetched::Wrong,
    }
}

/// The value of a field of an object.
pub fn fetch_field(
    heap: &Heap,
    program: &Program,
    class: ClassId,
    field: u32,
    object: Value,
) -> Fetched
    ensures { (env : TheEnv) →
        Fetches program.now heap.now env (λ p. read_field p class field object) result }
{
    match object {
        Value::Ref(id) => {
            let Some(at) = field_slot(program, class, field) else {
                return Fetched::Wrong;
            };
            match slot(heap, id, at) {
                Some(value) => Fetched::Value(value),
                None => Fetched::Wrong,
            }
        }
        Value::Null => Fetched::Null,
        _ => Fetched::Wrong,
    }
}

fn fetch_static(heap: &Heap, program: &Program, class: ClassId, field: u32) -> Fetched
    ensures { (env : TheEnv) →
        Fetches program.now heap.now env (λ p. read_static p class field) result }
{
    let Some(place) = static_place(program, class, field) else {
        return Fetched::Wrong;
    };
    match variable(heap, place) {
        Some(value) => Fetched::Value(value),
        None => Fetched::Wrong,
    }
}

fn fetch_element(heap: &Heap, array: Value, index: Value) -> Fetched
    ensures { (program : TheProgram) (env : TheEnv) →
        Fetches program heap.now env (λ p. read_element p array index) result }
{
    match array {
        Value::Ref(id) => {
            let Some(extent) = extent_of(heap, id) else {
                return Fetched::Wrong;
            };
            let Value::Int(index) = index else {
                return Fetched::Wrong;
            };
            match place_in(extent.count, index) {
                Some(at) => match heap.slot(id, at) {
                    Some(value) => Fetched::Value(value),
                    None => Fetched::Wrong,
                },
                None => Fetched::Outside,
            }
        }
        Value::Null => Fetched::Null,
        _ => Fetched::Wrong,
    }
}

// The value of a place, whose object and index have values.
#[tactic(auto)]
fn fetch(
    heap: &Heap,
    program: &Program,
    env: &Env,
    place: &Form,
    object: Value,
    index: Value,
) -> Fetched
    ensures { Fetches program.now heap.now env.now
        (λ p. fetched p (form_view place.now) object index) result }
{
    match place {
        Form::Local { local } => fetch_local(env, *local),
        Form::Field { class, field, .. } => fetch_field(heap, program, *class, *field, object),
        Form::Static { class, field, .. } => fetch_static(heap, program, *class, *field),
        Form::Index { .. } => fetch_element(heap, object, index),
        _ => fetch_wrong(),
    }
}

// The same, by the place's node.
#[tactic(auto, using(je_core::proofs::Views::form_of_view))]
fn fetch_at(
    heap: &Heap,
    program: &Program,
    env: &Env,
    place: &Expr,
    object: Value,
    index: Value,
) -> Fetched
    ensures { Fetches program.now heap.now env.now
        (λ p. fetched p (form_of (view place.now)) object index) result }
{
    fetch(heap, program, env, &place.form, object, index)
}

// The value of the place of a compound assignment.
#[tactic(auto)]
fn fetch_of(
    heap: &Heap,
    program: &Program,
    env: &Env,
    form: &Form,
    object: Value,
    index: Value,
) -> Fetched
    ensures { Fetches program.now heap.now env.now
        (λ p. fetched_of p (form_view form.now) object index) result }
{
    match form {
        Form::Update { place, .. } => fetch_at(heap, program, env, place, object, index),
        _ => fetch_wrong(),
    }
}

fn fetch_wrong() -> Fetched
    ensures { (program : TheProgram) (heap : Contents) (env : TheEnv) →
        Fetches program heap env (λ p. wrong) result }
{
    Fetched::Wrong
}

// Puts a value into a local, and gives another.
fn store_local(context: &mut Context, local: u32, value: Value, given: Value) -> Control
    ensures goes { GoesAhead context.old context.new
        (λ p m k. valued (yields given (put_local local value)) k) result }
    ensures short { height context.new + gives result ≤ height context.old + 1 }
    ensures begun { context.new.begun ≡ context.old.begun }
{
    if (local as usize) < context.env.locals.len() {
        context.env.locals.set(local as usize, value);
        Control::Give(given)
    } else {
        Control::Wrong
    }
}

// Puts a value into a field, and gives another.
fn store_field(
    context: &mut Context,
    heap: &mut Heap,
    program: &Program,
    class: ClassId,
    field: u32,
    object: Value,
    value: Value,
    given: Value,
) -> Result<Control, Memory>
    ensures goes { IfOk result (GoesToValue program.now context.old heap.old context.new heap.new
        (λ p m. yields given (write_field p class field object value))) }
    ensures short { IfOk result (λ c. height context.new + gives c ≤ height context.old + 1) }
    ensures begun { context.new.begun ≡ context.old.begun }
{
    match object {
        Value::Ref(id) => {
            let Some(at) = field_slot(program, class, field) else {
                return Ok(Control::Wrong);
            };
            if slot(heap, id, at).is_none() {
                return Ok(Control::Wrong);
            }
            heap.set(id, at as u64, value)?;
            Ok(Control::Give(given))
        }
        Value::Null => raise_null_pointer(context, heap, program),
        _ => Ok(Control::Wrong),
    }
}

// Puts a value into a place, whose object and index have values, and gives another.
fn store(
    context: &mut Context,
    heap: &mut Heap,
    program: &Program,
    place: &Form,
    object: Value,
    index: Value,
    value: Value,
    given: Value,
) -> Result<Control, Memory>
    ensures goes { IfOk result (GoesToValue program.now context.old heap.old context.new heap.new
        (λ p m. yields given (stored p (form_view place.now) object index value))) }
    ensures short { IfOk result (λ c. height context.new + gives c ≤ height context.old + 1) }
    ensures begun { context.new.begun ≡ context.old.begun }
{
    match place {
        Form::Local { local } => Ok(store_local(context, *local, value, given)),
        Form::Field { class, field, .. } => store_field(
            context, heap, program, *class, *field, object, value, given,
        ),
        Form::Static { class, field, .. } => {
            store_variable(context, heap, program, *class, *field, value, given)
        }
        Form::Index { .. } => { store_element(context, heap, program, object, index, value, given) }
        _ => Ok(Control::Wrong),
    }
}

// The same, by the place's node.
#[tactic(auto, using(je_core::proofs::Views::form_of_view))]
fn store_at(
    context: &mut Context,
    heap: &mut Heap,
    program: &Program,
    place: &Expr,
    object: Value,
    index: Value,
    value: Value,
    given: Value,
) -> Result<Control, Memory>
    ensures goes { IfOk result (GoesToValue program.now context.old heap.old context.new heap.new
        (λ p m. yields given (stored p (form_of (view place.now)) object index value))) }
    ensures short { IfOk result (λ c. height context.new + gives c ≤ height context.old + 1) }
    ensures begun { context.new.begun ≡ context.old.begun }
{
    store(
        context,
        heap,
        program,
        &place.form,
        object,
        index,
        value,
        given,
    )
}

// The value of a compound assignment: that of the place before it, or after it.
fn given(gives_old: bool, old: Value, value: Value) -> Value
    ensures { result ≡ the_given gives_old old value }
{
    if gives_old { old } else { value }
}

/// Puts the value of a compound assignment into its place, whose object and index have values.
pub fn put_by(
    context: &mut Context,
    heap: &mut Heap,
    program: &Program,
    form: &Form,
    object: Value,
    index: Value,
    old: Value,
    value: Value,
) -> Result<Control, Memory>
    ensures goes { IfOk result (GoesToValue program.now context.old heap.old context.new heap.new
        (λ p m. the_put_by p (form_view form.now) object index old value)) }
    ensures short { IfOk result (λ c. height context.new + gives c ≤ height context.old + 1) }
    ensures begun { context.new.begun ≡ context.old.begun }
{
    match form {
        Form::Update {
            place,
            gives_old,
            ..
        } => {
            let given = given(*gives_old, old, value);
            store_at(context, heap, program, place, object, index, value, given)
        }
        _ => Ok(Control::Wrong),
    }
}

// The operator of a compound assignment.
fn op(form: &Form) -> Option<BinOp>
    ensures { result ≡ op_of (form_view form.now) }
{
    match form {
        Form::Update { op, .. } => Some(*op),
        _ => None,
    }
}

// The new value of a place of a type by an operator on numbers or truths.
#[tactic(auto, unfolding(machine_parts::specs::way::Opened::opened))]
fn put_outcome(
    context: &mut Context,
    heap: &mut Heap,
    program: &Program,
    node: &Expr,
    op: BinOp,
    object: Value,
    index: Value,
    old: Value,
    operand: Value,
) -> Result<Control, Memory>
    ensures goes { IfOk result (GoesToValue program.now context.old heap.old context.new heap.new
        (λ p m. bind (updated p node.now.ty op old operand)
        (the_put_by p (form_view node.now.form) object index old))) }
    ensures short { IfOk result (λ c. height context.new + gives c ≤ height context.old + 1) }
    ensures begun { context.new.begun ≡ context.old.begun }
{
    match update_outcome(node.ty, op, old, operand) {
        Outcome::Gives(value) => put_by(
            context, heap, program, &node.form, object, index, old, value,
        ),
        Outcome::ByZero => raise_arithmetic(context, heap, program),
        Outcome::Unfit => Ok(Control::Wrong),
    }
}

/// Once the place and the operand have values.
#[tactic(auto, unfolding(machine_parts::specs::way::Opened::opened))]
pub fn update_by(
    context: &mut Context,
    heap: &mut Heap,
    program: &Program,
    node: Rc<Expr>,
    object: Value,
    index: Value,
    old: Value,
    operand: Value,
) -> Result<Control, Memory>
    ensures goes { IfOk result (GoesToValue program.now context.old heap.old context.new heap.new
        (λ p m. the_update_by p m node.value.ty (form_view node.value.form)
        object index old operand)) }
    ensures short { IfOk result (λ c. height context.new + gives c ≤ height context.old + 1) }
    ensures begun { context.new.begun ≡ context.old.begun }
{
    let Some(op) = op(&node.form) else {
        return Ok(Control::Wrong);
    };
    if is_string(node.ty) {
        let sum = Sum::Stored {
            node,
            object,
            index,
            old,
        };
        texts_of(context, heap, program, sum, old, operand)
    } else {
        put_outcome(
            context, heap, program, &node, op, object, index, old, operand,
        )
    }
}

// The operand of a compound assignment.
fn operand(form: &Form) -> Option<&Rc<Expr>>
    ensures { MatchOption result (operand_of (form_view form.now) ≡ None)
        (λ e. operand_of (form_view form.now) ≡ Some (view e.now.value)) }
{
    match form {
        Form::Update { operand, .. } => match operand {
            Some(operand) => Some(operand),
            None => None,
        },
        _ => None,
    }
}

#[tactic(auto, unfolding(machine_parts::specs::way::Opened::opened))]
fn begin_operand(
    node: Rc<Expr>,
    object: Value,
    index: Value,
    old: Value,
    operand: Rc<Expr>,
    frames: &mut Stack,
) -> Result<Control, Memory>
    ensures goes { IfOk result (BeginsValue frames.old frames.new
        (λ p m. bind (m.eval (view operand.value))
        (the_update_by p m node.value.ty (form_view node.value.form) object index old))) }
    ensures short { IfOk result (λ c. length frames.new + gives c ≤ length frames.old + 1) }
{
    frames.push(Frame::Update {
        node,
        object,
        index,
        old,
    })?;
    Ok(Control::Eval(operand))
}

// The operand is evaluated, or it is 1.
#[tactic(auto)]
fn with_operand(
    context: &mut Context,
    heap: &mut Heap,
    program: &Program,
    node: Rc<Expr>,
    object: Value,
    index: Value,
    old: Value,
) -> Result<Control, Memory>
    ensures goes { IfOk result (GoesToValue program.now context.old heap.old context.new heap.new
        (λ p m. on_operand m (operand_of (form_view node.value.form))
        (the_update_by p m node.value.ty (form_view node.value.form) object index old))) }
    ensures short { IfOk result (λ c. height context.new + gives c ≤ height context.old + 1) }
    ensures begun { context.new.begun ≡ context.old.begun }
{
    match operand(&node.form) {
        Some(operand) => {
            let operand = operand.clone()?;
            begin_operand(node, object, index, old, operand, &mut context.frames)
        }
        None => update_by(
            context,
            heap,
            program,
            node,
            object,
            index,
            old,
            Value::Int(1),
        ),
    }
}

/// Once the object and the index of the place have values.
#[tactic(auto)]
pub fn update_at(
    context: &mut Context,
    heap: &mut Heap,
    program: &Program,
    node: Rc<Expr>,
    object: Value,
    index: Value,
) -> Result<Control, Memory>
    ensures goes { IfOk result (GoesToValue program.now context.old heap.old context.new heap.new
        (λ p m. the_update_at p m node.value.ty (form_view node.value.form) object index)) }
    ensures short { IfOk result (λ c. height context.new + gives c ≤ height context.old + 1) }
    ensures begun { context.new.begun ≡ context.old.begun }
{
    match fetch_of(heap, program, &context.env, &node.form, object, index) {
        Fetched::Value(old) => with_operand(context, heap, program, node, object, index, old),
        Fetched::Null => raise_null_pointer(context, heap, program),
        Fetched::Outside => raise_array_index(context, heap, program),
        Fetched::Wrong => Ok(Control::Wrong),
    }
}

// The object, or the array, that a place evaluates first; that before a static member is dropped.
fn object_in(place: &Form) -> Option<&Rc<Expr>>
    ensures { MatchOption result (the_object_in (form_view place.now) ≡ None)
        (λ e. the_object_in (form_view place.now) ≡ Some (view e.now.value)) }
{
    match place {
        Form::Field { object, .. } => Some(object),
        Form::Static { object, .. } => match object {
            Some(object) => Some(object),
            None => None,
        },
        Form::Index { array, .. } => Some(array),
        _ => None,
    }
}

#[tactic(auto, using(je_core::proofs::Views::form_of_view))]
fn object_at(place: &Expr) -> Option<&Rc<Expr>>
    ensures { MatchOption result (the_object_in (form_of (view place.now)) ≡ None)
        (λ e. the_object_in (form_of (view place.now)) ≡ Some (view e.now.value)) }
{
    object_in(&place.form)
}

fn object(form: &Form) -> Option<&Rc<Expr>>
    ensures { MatchOption result (the_object_of (form_view form.now) ≡ None)
        (λ e. the_object_of (form_view form.now) ≡ Some (view e.now.value)) }
{
    match form {
        Form::Update { place, .. } => object_at(place),
        _ => None,
    }
}

// The index that a place evaluates behind its array.
fn index_in(place: &Form) -> Option<&Rc<Expr>>
    ensures { MatchOption result (the_index_in (form_view place.now) ≡ None)
        (λ e. the_index_in (form_view place.now) ≡ Some (view e.now.value)) }
{
    match place {
        Form::Index { index, .. } => Some(index),
        _ => None,
    }
}

#[tactic(auto, using(je_core::proofs::Views::form_of_view))]
fn index_at(place: &Expr) -> Option<&Rc<Expr>>
    ensures { MatchOption result (the_index_in (form_of (view place.now)) ≡ None)
        (λ e. the_index_in (form_of (view place.now)) ≡ Some (view e.now.value)) }
{
    index_in(&place.form)
}

fn index(form: &Form) -> Option<&Rc<Expr>>
    ensures { MatchOption result (the_index_of (form_view form.now) ≡ None)
        (λ e. the_index_of (form_view form.now) ≡ Some (view e.now.value)) }
{
    match form {
        Form::Update { place, .. } => index_at(place),
        _ => None,
    }
}

#[tactic(auto, unfolding(machine_parts::specs::way::Opened::opened))]
fn begin_index(
    node: Rc<Expr>,
    object: Value,
    index: Rc<Expr>,
    frames: &mut Stack,
) -> Result<Control, Memory>
    ensures goes { IfOk result (BeginsValue frames.old frames.new
        (λ p m. bind (m.eval (view index.value))
        (the_update_at p m node.value.ty (form_view node.value.form) object))) }
    ensures short { IfOk result (λ c. length frames.new + gives c ≤ length frames.old + 1) }
{
    frames.push(Frame::UpdateIndex { node, object })?;
    Ok(Control::Eval(index))
}

/// Once the object of the place has a value.
#[tactic(auto, unfolding(je_java::specs::Meaning::update_object))]
pub fn update_object(
    context: &mut Context,
    heap: &mut Heap,
    program: &Program,
    node: Rc<Expr>,
    object: Value,
) -> Result<Control, Memory>
    ensures goes { IfOk result (GoesToValue program.now context.old heap.old context.new heap.new
        (λ p m. the_update_object p m node.value.ty (form_view node.value.form) object)) }
    ensures short { IfOk result (λ c. height context.new + gives c ≤ height context.old + 1) }
    ensures begun { context.new.begun ≡ context.old.begun }
{
    match index(&node.form) {
        Some(index) => {
            let index = index.clone()?;
            begin_index(node, object, index, &mut context.frames)
        }
        None => update_at(context, heap, program, node, object, Value::Null),
    }
}

#[tactic(auto, unfolding(machine_parts::specs::way::Opened::opened))]
fn begin_object(node: Rc<Expr>, object: Rc<Expr>, frames: &mut Stack) -> Result<Control, Memory>
    ensures goes { IfOk result (BeginsValue frames.old frames.new
        (λ p m. bind (m.eval (view object.value))
        (the_update_object p m node.value.ty (form_view node.value.form)))) }
    ensures short { IfOk result (λ c. length frames.new + gives c ≤ length frames.old + 1) }
{
    frames.push(Frame::UpdateObject { node })?;
    Ok(Control::Eval(object))
}

/// A compound assignment from its beginning.
#[tactic(auto)]
pub fn begin_update(
    context: &mut Context,
    heap: &mut Heap,
    program: &Program,
    node: Rc<Expr>,
) -> Result<Control, Memory>
    ensures goes { IfOk result (GoesToValue program.now context.old heap.old context.new heap.new
        (λ p m. the_begin_update p m node.value.ty (form_view node.value.form))) }
    ensures short { IfOk result (λ c. height context.new + gives c ≤ height context.old + 1) }
    ensures begun { context.new.begun ≡ context.old.begun }
{
    match object(&node.form) {
        Some(object) => {
            let object = object.clone()?;
            begin_object(node, object, &mut context.frames)
        }
        None => update_object(context, heap, program, node, Value::Null),
    }
}
