// Calls: a receiver, arguments, and then a method's body.

ghost use Rattle.std.specs.Prelude.{◌≡◌, ◌≤◌, ◌<◌, ◌+◌, ◌^◌, [], IfOk, length, map, drop, MatchOption, IsSome};
ghost use Rattle.machine_parts.specs.way.Clauses.{BeginsValue, GoesToValue, GoesAhead, GoesAheadOver, NextExpr};
ghost use Rattle.je_core.specs.Defaults.{default_of};
ghost use Rattle.je_core.specs.View.{view, form_view, views, capture_view, stmt_view, stmt_view_if, method_view, program_view};
ghost use Rattle.je_java.specs.Classes.{locals_for as the_locals_for};
ghost use Rattle.je_java.specs.Steps.{bind, framed};
ghost use Rattle.je_java.specs.LibraryMembers.{run_library as the_run_library};
ghost use Rattle.je_java.specs.Meaning.{member_at, run_member as the_run_member, run_constructor as the_run_constructor, run_virtual, run_instance, run_named as the_run_named, run_exact, run_new, is_maker as the_is_maker, new_instance, construct as the_construct, hand_over as the_hand_over, apply as the_apply, args_of, receiver_of, with_values, adding, call_from as the_call_from, start_call as the_start_call, begin_call as the_begin_call};
ghost use Rattle.machine_parts.specs.Ways.{built_or, height, gives};

use crate::argument::hand_on;
use crate::array::{array_from, make_arrays};
use crate::capture::hand_over;
use crate::library::{Ran, run_library};
use class_members::{dispatched, method_at};
use je_core::{
    Capture, ClassId, Expr, Form, Memory, Method, ObjId, Program, Slots, Stmt, Ty, Value,
};
use je_heap::Heap;
use machine_parts::class::{locals_for, method};
use machine_parts::frame::{Context, Control, Env, Fetched, Frame, Made};
use machine_parts::make::{instance, raise_array_index, raise_class_cast, raise_null_pointer};
use machine_parts::shape::{receiving_class, type_of};
use machine_parts::stack::Stack;
use std::mem;
use std::rc::Rc;
use tamed_lib::has_own_makers;

/// A method's body.
pub fn body(method: &Method) -> Result<Option<Rc<Stmt>>, Memory>
    ensures { IfOk result (λ body. stmt_view_if body ≡ (method_view method.now).body) }
{
    match &method.body {
        Some(body) => Ok(Some(body.clone()?)),
        None => Ok(None),
    }
}

// Enters a method's body.
fn enter(
    context: &mut Context,
    method: &Method,
    body: Rc<Stmt>,
    this: Value,
    values: Slots,
    built: Option<Value>,
) -> Result<Control, Memory>
    ensures goes { IfOk result (GoesAhead context.old context.new (λ p m k.
        framed (record { this = this; locals = the_locals_for (method_view method.now) values })
        (default_of (method_view method.now).returns) (m.exec (stmt_view body.value))
        (built_or built k.give) k.out)) }
    ensures short { IfOk result (λ c. height context.new + gives c ≤ height context.old + 1) }
    ensures begun { context.new.begun ≡ context.old.begun }
{
    let locals = locals_for(method, values)?;
    let caller = mem::replace(&mut context.env, Env { this, locals });
    context.frames.push(Frame::Called {
        caller,
        result: method.returns.default_value(),
        built,
    })?;
    Ok(Control::Exec(body))
}

// Runs a member of the library.
fn call_library(
    context: &mut Context,
    heap: &mut Heap,
    program: &Program,
    class: ClassId,
    at: usize,
    this: Value,
    values: Slots,
    built: Option<Value>,
) -> Result<Control, Memory>
    ensures goes { IfOk result (GoesAheadOver program.now
        context.old heap.old context.new heap.new
        (λ p m k. the_run_library p class at this values (built_or built k.give) k.out)) }
    ensures short { IfOk result (λ c. height context.new + gives c ≤ height context.old + 1) }
    ensures begun { context.new.begun ≡ context.old.begun }
{
    match run_library(context, heap, program, class, at, this, &values)? {
        Ran::Value(value) => Ok(Control::Give(built.unwrap_or(value))),
        Ran::Throws(exception) => Ok(Control::Throw(exception)),
        Ran::Spent => Ok(Control::Spent),
        Ran::Wrong => Ok(Control::Wrong),
    }
}

// A method of a number of a class: its body is entered; a member of the library, which has none, is run.
fn run_member(
    context: &mut Context,
    heap: &mut Heap,
    program: &Program,
    class: ClassId,
    at: usize,
    method: &Method,
    this: Value,
    values: Slots,
    built: Option<Value>,
) -> Result<Control, Memory>
    ensures goes { IfOk result (GoesAheadOver program.now
        context.old heap.old context.new heap.new (λ p m k. the_run_member p m
        (member_at class at) (method_view method.now) this values (built_or built k.give) k.out)) }
    ensures short { IfOk result (λ c. height context.new + gives c ≤ height context.old + 1) }
    ensures begun { context.new.begun ≡ context.old.begun }
{
    match body(method)? {
        Some(body) => enter(context, method, body, this, values, built),
        None => call_library(context, heap, program, class, at, this, values, built),
    }
}

// Enters the body of a constructor of a class.
fn enter_constructor(
    context: &mut Context,
    class: ClassId,
    constructor: &Method,
    body: Rc<Stmt>,
    this: Value,
    values: Slots,
    built: Option<Value>,
) -> Result<Control, Memory>
    ensures goes { IfOk result (GoesAhead context.old context.new (λ p m k.
        framed (record { this = this; locals = the_locals_for (method_view constructor.now) values })
        (default_of (method_view constructor.now).returns) (m.build class (stmt_view body.value))
        (built_or built k.give) k.out)) }
    ensures short { IfOk result (λ c. height context.new + gives c ≤ height context.old + 1) }
    ensures begun { context.new.begun ≡ context.old.begun }
{
    let locals = locals_for(constructor, values)?;
    let caller = mem::replace(&mut context.env, Env { this, locals });
    context.frames.push(Frame::Called {
        caller,
        result: constructor.returns.default_value(),
        built,
    })?;
    Ok(Control::Build { class, body })
}

// A constructor of a number of a class: its body is entered; one of the library, which has none, is run.
fn run_constructor(
    context: &mut Context,
    heap: &mut Heap,
    program: &Program,
    class: ClassId,
    at: usize,
    constructor: &Method,
    this: Value,
    values: Slots,
    built: Option<Value>,
) -> Result<Control, Memory>
    ensures goes { IfOk result (GoesAheadOver program.now
        context.old heap.old context.new heap.new (λ p m k. the_run_constructor p m
        (member_at class at) (method_view constructor.now) this values
        (built_or built k.give) k.out)) }
    ensures short { IfOk result (λ c. height context.new + gives c ≤ height context.old + 1) }
    ensures begun { context.new.begun ≡ context.old.begun }
{
    match body(constructor)? {
        Some(body) => enter_constructor(context, class, constructor, body, this, values, built),
        None => call_library(context, heap, program, class, at, this, values, built),
    }
}

fn call_virtual(
    context: &mut Context,
    heap: &mut Heap,
    program: &Program,
    class: ClassId,
    at: u32,
    this: Value,
    values: Slots,
) -> Result<Control, Memory>
    ensures goes { IfOk result (GoesToValue program.now context.old heap.old context.new heap.new
        (λ p m. run_virtual p m class at this values)) }
    ensures short { IfOk result (λ c. height context.new + gives c ≤ height context.old + 1) }
    ensures begun { context.new.begun ≡ context.old.begun }
{
    match this {
        Value::Ref(object) => {
            let Some(own) = type_of(heap, object) else {
                return Ok(Control::Wrong);
            };
            let Some(named) = method(program, class, at) else {
                return Ok(Control::Wrong);
            };
            let Some((by, place)) = dispatched(program, receiving_class(own), class, at as usize)
            else {
                return Ok(Control::Wrong);
            };
            let Some(found) = method_at(program, by, place) else {
                return Ok(Control::Wrong);
            };
            match hand_on(context.alloc, heap, program, named, found, &values)? {
                Some(true) => run_member(
                    context, heap, program, by, place, found, this, values, None,
                ),
                Some(false) => raise_class_cast(context, heap, program),
                None => Ok(Control::Wrong),
            }
        }
        Value::Null => raise_null_pointer(context, heap, program),
        _ => Ok(Control::Wrong),
    }
}

fn call_instance(
    context: &mut Context,
    heap: &mut Heap,
    program: &Program,
    class: ClassId,
    at: usize,
    method: &Method,
    this: Value,
    values: Slots,
) -> Result<Control, Memory>
    ensures goes { IfOk result (GoesToValue program.now context.old heap.old context.new heap.new
        (λ p m. run_instance p m (member_at class at) (method_view method.now) this values)) }
    ensures short { IfOk result (λ c. height context.new + gives c ≤ height context.old + 1) }
    ensures begun { context.new.begun ≡ context.old.begun }
{
    match this {
        Value::Ref(_) => run_member(
            context, heap, program, class, at, method, this, values, None,
        ),
        Value::Null => raise_null_pointer(context, heap, program),
        _ => Ok(Control::Wrong),
    }
}

// A method on a receiver; a static one drops it.
fn run_named(
    context: &mut Context,
    heap: &mut Heap,
    program: &Program,
    class: ClassId,
    at: usize,
    method: &Method,
    this: Value,
    values: Slots,
) -> Result<Control, Memory>
    ensures goes { IfOk result (GoesToValue program.now context.old heap.old context.new heap.new
        (λ p m. the_run_named p m (member_at class at) (method_view method.now) this values)) }
    ensures short { IfOk result (λ c. height context.new + gives c ≤ height context.old + 1) }
    ensures begun { context.new.begun ≡ context.old.begun }
{
    if method.flags.is_static {
        let this = Value::Null;
        run_member(
            context, heap, program, class, at, method, this, values, None,
        )
    } else {
        call_instance(context, heap, program, class, at, method, this, values)
    }
}

fn call_exact(
    context: &mut Context,
    heap: &mut Heap,
    program: &Program,
    class: ClassId,
    at: u32,
    this: Value,
    values: Slots,
) -> Result<Control, Memory>
    ensures goes { IfOk result (GoesToValue program.now context.old heap.old context.new heap.new
        (λ p m. run_exact p m class at this values)) }
    ensures short { IfOk result (λ c. height context.new + gives c ≤ height context.old + 1) }
    ensures begun { context.new.begun ≡ context.old.begun }
{
    let Some(method) = method(program, class, at) else {
        return Ok(Control::Wrong);
    };
    let at = at as usize;
    run_named(context, heap, program, class, at, method, this, values)
}

// The constructor of an object that was made for it.
fn construct(
    context: &mut Context,
    heap: &mut Heap,
    program: &Program,
    class: ClassId,
    at: u32,
    values: Slots,
    object: ObjId,
) -> Result<Control, Memory>
    ensures goes { IfOk result (GoesToValue program.now context.old heap.old context.new heap.new
        (λ p m. the_construct p m class at values object)) }
    ensures short { IfOk result (λ c. height context.new + gives c ≤ height context.old + 1) }
    ensures begun { context.new.begun ≡ context.old.begun }
{
    let this = Value::Ref(object);
    let Some(constructor) = method(program, class, at) else {
        return Ok(Control::Wrong);
    };
    run_constructor(
        context,
        heap,
        program,
        class,
        at as usize,
        constructor,
        this,
        values,
        Some(this),
    )
}

// The hidden fields of a new object, and then its constructor.
fn begin_object(
    context: &mut Context,
    heap: &mut Heap,
    program: &Program,
    class: ClassId,
    at: u32,
    captures: &[Capture],
    values: Slots,
    object: ObjId,
) -> Result<Control, Memory>
    ensures goes { IfOk result (GoesToValue program.now context.old heap.old context.new heap.new
        (λ p m. the_hand_over p (map capture_view captures.now) object
        (the_construct p m class at values object))) }
    ensures short { IfOk result (λ c. height context.new + gives c ≤ height context.old + 1) }
    ensures begun { context.new.begun ≡ context.old.begun }
{
    match hand_over(heap, program, &context.env, captures, object)? {
        Fetched::Value(_) => construct(context, heap, program, class, at, values, object),
        Fetched::Null => raise_null_pointer(context, heap, program),
        Fetched::Outside => raise_array_index(context, heap, program),
        Fetched::Wrong => Ok(Control::Wrong),
    }
}

// A new instance, its hidden fields, and then its constructor.
fn call_new_instance(
    context: &mut Context,
    heap: &mut Heap,
    program: &Program,
    class: ClassId,
    at: u32,
    captures: &[Capture],
    values: Slots,
) -> Result<Control, Memory>
    ensures goes { IfOk result (GoesToValue program.now context.old heap.old context.new heap.new
        (λ p m. new_instance p m class at (map capture_view captures.now) values)) }
    ensures short { IfOk result (λ c. height context.new + gives c ≤ height context.old + 1) }
    ensures begun { context.new.begun ≡ context.old.begun }
{
    match instance(context, heap, program, class)? {
        Made::Object(object) => begin_object(
            context, heap, program, class, at, captures, values, object,
        ),
        Made::Spent => Ok(Control::Spent),
        Made::Wrong => Ok(Control::Wrong),
    }
}

// Whether it is a constructor of the library that makes its object itself.
fn is_maker(program: &Program, class: ClassId, at: u32) -> bool
    ensures { result ≡ the_is_maker (program_view program.now) class at }
{
    match method(program, class, at) {
        Some(constructor) => constructor.body.is_none() && has_own_makers(class),
        None => false,
    }
}

fn call_new(
    context: &mut Context,
    heap: &mut Heap,
    program: &Program,
    class: ClassId,
    at: u32,
    captures: &[Capture],
    values: Slots,
) -> Result<Control, Memory>
    ensures goes { IfOk result (GoesToValue program.now context.old heap.old context.new heap.new
        (λ p m. run_new p m class at (map capture_view captures.now) values)) }
    ensures short { IfOk result (λ c. height context.new + gives c ≤ height context.old + 1) }
    ensures begun { context.new.begun ≡ context.old.begun }
{
    if is_maker(program, class, at) {
        let place = at as usize;
        call_library(
            context,
            heap,
            program,
            class,
            place,
            Value::Null,
            values,
            None,
        )
    } else {
        call_new_instance(context, heap, program, class, at, captures, values)
    }
}

fn apply(
    context: &mut Context,
    heap: &mut Heap,
    program: &Program,
    ty: Ty,
    call: &Form,
    this: Value,
    values: Slots,
) -> Result<Control, Memory>
    ensures goes { IfOk result (GoesToValue program.now context.old heap.old context.new heap.new
        (λ p m. the_apply p m ty (form_view call.now) this values)) }
    ensures short { IfOk result (λ c. height context.new + gives c ≤ height context.old + 1) }
    ensures begun { context.new.begun ≡ context.old.begun }
{
    match call {
        Form::CallVirtual { class, method, .. } => {
            call_virtual(context, heap, program, *class, *method, this, values)
        }
        Form::CallExact { class, method, .. } => {
            call_exact(context, heap, program, *class, *method, this, values)
        }
        Form::New {
            class,
            method,
            captures,
            ..
        } => call_new(context, heap, program, *class, *method, captures, values),
        Form::NewArray { .. } => make_arrays(context, heap, program, ty, values),
        Form::ArrayOf { .. } => array_from(context, heap, ty, values),
        _ => Ok(Control::Wrong),
    }
}

// The arguments of a call.
#[tactic(auto, using(machine_parts::proofs::Seen::lists_seen))]
fn args(form: &Form) -> Option<&Vec<Rc<Expr>>>
    ensures { MatchOption result (args_of (form_view form.now) ≡ [])
        (λ v. args_of (form_view form.now) ≡ views v.now.items) }
{
    match form {
        Form::CallVirtual { args, .. } => Some(args),
        Form::CallExact { args, .. } => Some(args),
        Form::New { args, .. } => Some(args),
        Form::NewArray { lengths } => Some(lengths),
        Form::ArrayOf { values } => Some(values),
        _ => None,
    }
}

/// The argument of a place of a call.
pub fn arg_at(form: &Form, at: usize) -> Result<Option<Rc<Expr>>, Memory>
    ensures goes { IfOk result (NextExpr (args_of (form_view form.now)) at) }
    ensures room { IfOk result (λ found. IsSome found → at + 1 < 2 ^ 64) }
{
    let Some(args) = args(form) else {
        return Ok(None);
    };
    match args.get(at) {
        Some(arg) => Ok(Some(arg.clone()?)),
        None => Ok(None),
    }
}

#[tactic(auto, unfolding(machine_parts::specs::way::Opened::binding))]
fn begin_arg(
    call: Rc<Expr>,
    this: Value,
    next: usize,
    done: Slots,
    arg: Rc<Expr>,
    frames: &mut Stack,
) -> Result<Control, Memory>
    ensures goes { IfOk result (BeginsValue frames.old frames.new
        (λ p m. bind (m.eval (view arg.value)) (adding
        (with_values m (drop next (args_of (form_view call.value.form)))
        (the_apply p m call.value.ty (form_view call.value.form) this)) done))) }
    ensures short { IfOk result (λ c. length frames.new + gives c ≤ length frames.old + 1) }
{
    frames.push(Frame::Args {
        call,
        this,
        next,
        done,
    })?;
    Ok(Control::Eval(arg))
}

fn begin_receiver(call: Rc<Expr>, receiver: Rc<Expr>, frames: &mut Stack) -> Result<Control, Memory>
    ensures goes { IfOk result (BeginsValue frames.old frames.new
        (λ p m. bind (m.eval (view receiver.value))
        (the_start_call p m call.value.ty (form_view call.value.form)))) }
    ensures short { IfOk result (λ c. length frames.new + gives c ≤ length frames.old + 1) }
{
    frames.push(Frame::Receiver { call })?;
    Ok(Control::Eval(receiver))
}

/// The arguments of a call from a place on, and then the call.
#[tactic(auto)]
pub fn call_from(
    context: &mut Context,
    heap: &mut Heap,
    program: &Program,
    call: Rc<Expr>,
    this: Value,
    next: usize,
    done: Slots,
) -> Result<Control, Memory>
    ensures goes { IfOk result (GoesToValue program.now context.old heap.old context.new heap.new
        (λ p m. the_call_from p m call.value.ty (form_view call.value.form) this next done)) }
    ensures short { IfOk result (λ c. height context.new + gives c ≤ height context.old + 1) }
    ensures begun { context.new.begun ≡ context.old.begun }
{
    match arg_at(&call.form, next)? {
        Some(arg) => begin_arg(call, this, next + 1, done, arg, &mut context.frames),
        None => apply(context, heap, program, call.ty, &call.form, this, done),
    }
}

// The receiver that a call evaluates.
fn receiver(form: &Form) -> Option<&Rc<Expr>>
    ensures { MatchOption result (receiver_of (form_view form.now) ≡ None)
        (λ r. receiver_of (form_view form.now) ≡ Some (view r.now.value)) }
{
    match form {
        Form::CallVirtual { receiver, .. } => Some(receiver),
        Form::CallExact { receiver, .. } => match receiver {
            Some(receiver) => Some(receiver),
            None => None,
        },
        _ => None,
    }
}

/// A call whose receiver has a value.
pub fn start_call(
    context: &mut Context,
    heap: &mut Heap,
    program: &Program,
    call: Rc<Expr>,
    this: Value,
) -> Result<Control, Memory>
    ensures goes { IfOk result (GoesToValue program.now context.old heap.old context.new heap.new
        (λ p m. the_start_call p m call.value.ty (form_view call.value.form) this)) }
    ensures short { IfOk result (λ c. height context.new + gives c ≤ height context.old + 1) }
    ensures begun { context.new.begun ≡ context.old.begun }
{
    let none = Slots::new(context.alloc);
    call_from(context, heap, program, call, this, 0, none)
}

/// A call from its beginning.
#[tactic(auto)]
pub fn begin_call(
    context: &mut Context,
    heap: &mut Heap,
    program: &Program,
    call: Rc<Expr>,
) -> Result<Control, Memory>
    ensures goes { IfOk result (GoesToValue program.now context.old heap.old context.new heap.new
        (λ p m. the_begin_call p m call.value.ty (form_view call.value.form))) }
    ensures short { IfOk result (λ c. height context.new + gives c ≤ height context.old + 1) }
    ensures begun { context.new.begun ≡ context.old.begun }
{
    match receiver(&call.form) {
        Some(receiver) => {
            let receiver = receiver.clone()?;
            begin_receiver(call, receiver, &mut context.frames)
        }
        None => start_call(context, heap, program, call, Value::Null),
    }
}
