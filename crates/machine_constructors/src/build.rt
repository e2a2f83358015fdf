// The body of a constructor begins: with the call of another constructor, or with the superclass's one without parameters.

ghost use Rattle.std.specs.Prelude.{◌≡◌, ◌≤◌, ◌+◌, [], IfOk, Some, None, drop, length, option_map};
ghost use Rattle.je_core.specs.Core.{form_of};
ghost use Rattle.je_core.specs.Defaults.{default_of};
ghost use Rattle.je_core.specs.View.{form_view, method_view, program_view, stmt_form_view, stmt_view, stmt_views, view};
ghost use Rattle.je_java.specs.Classes.{locals_for as the_locals_for};
ghost use Rattle.je_java.specs.Constructors.{call_in as the_call_in, call_in_statement as the_call_in_statement, called_constructor, first_call as the_first_call};
ghost use Rattle.je_java.specs.Meaning.{adding, args_of, build_by, build_form, completed as the_completed, construct_above as the_construct_above, construct_by as the_construct_by, constructor_from as the_constructor_from, member_at, run_constructor as the_run_constructor, with_values};
ghost use Rattle.je_java.specs.Steps.{bind, framed, seq};
ghost use Rattle.machine_parts.specs.Ways.{called_behind, ended, goes_on, height, gives};
ghost use Rattle.je_java.specs.LibraryMembers.{run_library as the_run_library};
ghost use Rattle.machine_constructors.specs.way.Seen.{block_call as the_block_call, form_seen};
ghost use Rattle.machine_parts.specs.way.Clauses.{BeginsEnd, GoesAhead, GoesAheadOver, GoesToEnd};

use crate::initialize::completed;
use class_members::{method_at, same_class};
use constructor_calls::{calls_constructor, plain_constructor};
use je_core::{ClassId, Expr, Form, Memory, Method, Program, Slots, Stmt, StmtForm, Value};
use je_heap::Heap;
use machine_forms::call::{arg_at, body as body_of};
use machine_forms::library::{Ran, run_library};
use machine_parts::class::{locals_for, superclass};
use machine_parts::frame::{Context, Control, Env, Frame, Rest};
use machine_parts::stack::Stack;
use std::mem;
use std::rc::Rc;

// Enters the body of another constructor of a class, behind which a body goes on.
fn enter(
    context: &mut Context,
    class: ClassId,
    constructor: &Method,
    block: Rc<Stmt>,
    this: Value,
    values: Slots,
    rest: Rest,
) -> Result<Control, Memory>
    ensures goes { IfOk result (GoesAhead context.old context.new (λ p m k.
        framed (record { this = this; locals = the_locals_for (method_view constructor.now) values })
        (default_of (method_view constructor.now).returns) (m.build class (stmt_view block.value))
        (λ dropped. ended (goes_on p m rest) k) k.out)) }
    ensures short { IfOk result (λ c. height context.new + gives c ≤ height context.old + 1) }
    ensures begun { context.new.begun ≡ context.old.begun }
{
    let locals = locals_for(constructor, values)?;
    let caller = mem::replace(&mut context.env, Env { this, locals });
    context.frames.push(Frame::Constructor { caller, rest })?;
    Ok(Control::Build { class, body: block })
}

// Runs a constructor of the library, behind which a body goes on.
fn run_in_library(
    context: &mut Context,
    heap: &mut Heap,
    program: &Program,
    class: ClassId,
    at: usize,
    this: Value,
    values: Slots,
    rest: Rest,
) -> Result<Control, Memory>
    ensures goes { IfOk result (GoesAheadOver program.now
        context.old heap.old context.new heap.new (λ p m k. the_run_library p class at this values
        (λ dropped. ended (goes_on p m rest) k) k.out)) }
    ensures short { IfOk result (λ c. height context.new + gives c ≤ height context.old + 1) }
    ensures begun { context.new.begun ≡ context.old.begun }
{
    match run_library(context, heap, program, class, at, this, &values)? {
        Ran::Value(_) => completed(context, heap, program, rest),
        Ran::Throws(exception) => Ok(Control::Throw(exception)),
        Ran::Spent => Ok(Control::Spent),
        Ran::Wrong => Ok(Control::Wrong),
    }
}

// Another constructor, behind which a body goes on.
fn run_constructor(
    context: &mut Context,
    heap: &mut Heap,
    program: &Program,
    class: ClassId,
    at: usize,
    constructor: &Method,
    values: Slots,
    rest: Rest,
) -> Result<Control, Memory>
    ensures goes { IfOk result (GoesAheadOver program.now
        context.old heap.old context.new heap.new (λ p m k. the_run_constructor p m
        (member_at class at) (method_view constructor.now) context.old.env.this values
        (λ dropped. ended (goes_on p m rest) k) k.out)) }
    ensures short { IfOk result (λ c. height context.new + gives c ≤ height context.old + 1) }
    ensures begun { context.new.begun ≡ context.old.begun }
{
    let this = context.env.this;
    match body_of(constructor)? {
        Some(block) => enter(context, class, constructor, block, this, values, rest),
        None => run_in_library(context, heap, program, class, at, this, values, rest),
    }
}

// The constructor of a number of a class on the object under construction, behind which a body goes on.
fn construct_by(
    context: &mut Context,
    heap: &mut Heap,
    program: &Program,
    class: ClassId,
    at: usize,
    values: Slots,
    rest: Rest,
) -> Result<Control, Memory>
    ensures goes { IfOk result (GoesToEnd program.now context.old heap.old context.new heap.new
        (λ p m. seq (the_construct_by p m (Some (member_at class at)) values)
        (goes_on p m rest))) }
    ensures short { IfOk result (λ c. height context.new + gives c ≤ height context.old + 1) }
    ensures begun { context.new.begun ≡ context.old.begun }
{
    match method_at(program, class, at) {
        None => Ok(Control::Wrong),
        Some(constructor) => run_constructor(
            context,
            heap,
            program,
            class,
            at,
            constructor,
            values,
            rest,
        ),
    }
}

// The constructor that a call names, once its arguments have values.
fn construct_called(
    context: &mut Context,
    heap: &mut Heap,
    program: &Program,
    class: ClassId,
    body: Rc<Stmt>,
    call: &Form,
    values: Slots,
) -> Result<Control, Memory>
    ensures goes { IfOk result (GoesToEnd program.now context.old heap.old context.new heap.new
        (λ p m. seq (the_construct_by p m (called_constructor (form_view call.now)) values)
        (called_behind p m class (stmt_form_view body.value.form) (form_view call.now)))) }
    ensures short { IfOk result (λ c. height context.new + gives c ≤ height context.old + 1) }
    ensures begun { context.new.begun ≡ context.old.begun }
{
    match call {
        Form::CallExact {
            class: by,
            method,
            ..
        } => {
            let rest = Rest {
                class,
                body,
                is_initialized: same_class(*by, class),
                next: 1,
            };
            construct_by(context, heap, program, *by, *method as usize, values, rest)
        }
        _ => Ok(Control::Wrong),
    }
}

#[tactic(auto, unfolding(machine_parts::specs::way::Opened::binding, je_java::specs::Steps::seq))]
fn begin_arg(
    class: ClassId,
    body: Rc<Stmt>,
    call: Rc<Expr>,
    next: usize,
    done: Slots,
    arg: Rc<Expr>,
    frames: &mut Stack,
) -> Result<Control, Memory>
    ensures goes { IfOk result (BeginsEnd frames.old frames.new
        (λ p m. seq (bind (m.eval (view arg.value)) (adding
        (with_values m (drop next (args_of (form_view call.value.form)))
        (the_construct_by p m (called_constructor (form_view call.value.form)))) done))
        (called_behind p m class (stmt_form_view body.value.form)
        (form_view call.value.form)))) }
    ensures short { IfOk result (λ c. length frames.new + gives c ≤ length frames.old + 1) }
{
    frames.push(Frame::ConstructorArgs {
        class,
        body,
        call,
        next,
        done,
    })?;
    Ok(Control::Eval(arg))
}

/// The arguments of a constructor call from a place on, the constructor, and then the rest of a body.
#[tactic(auto)]
pub fn constructor_from(
    context: &mut Context,
    heap: &mut Heap,
    program: &Program,
    class: ClassId,
    body: Rc<Stmt>,
    call: Rc<Expr>,
    next: usize,
    done: Slots,
) -> Result<Control, Memory>
    ensures goes { IfOk result (GoesToEnd program.now context.old heap.old context.new heap.new
        (λ p m. seq (the_constructor_from p m (form_view call.value.form) next done)
        (called_behind p m class (stmt_form_view body.value.form)
        (form_view call.value.form)))) }
    ensures short { IfOk result (λ c. height context.new + gives c ≤ height context.old + 1) }
    ensures begun { context.new.begun ≡ context.old.begun }
{
    match arg_at(&call.form, next)? {
        Some(arg) => begin_arg(class, body, call, next + 1, done, arg, &mut context.frames),
        None => construct_called(context, heap, program, class, body, &call.form, done),
    }
}

// The superclass's constructor without parameters, if there is a superclass, and then the body.
fn construct_above(
    context: &mut Context,
    heap: &mut Heap,
    program: &Program,
    class: ClassId,
    body: Rc<Stmt>,
) -> Result<Control, Memory>
    ensures goes { IfOk result (GoesToEnd program.now context.old heap.old context.new heap.new
        (λ p m. build_by p m class (stmt_form_view body.value.form) None)) }
    ensures short { IfOk result (λ c. height context.new + gives c ≤ height context.old + 1) }
    ensures begun { context.new.begun ≡ context.old.begun }
{
    let rest = Rest {
        class,
        body,
        is_initialized: false,
        next: 0,
    };
    let Some(above) = superclass(program, class) else {
        return completed(context, heap, program, rest);
    };
    let Some((by, at)) = plain_constructor(program, Some(above)) else {
        return Ok(Control::Wrong);
    };
    let none = Slots::new(context.alloc);
    construct_by(context, heap, program, by, at, none, rest)
}

// An expression, if it is the call of another constructor, by its form.
fn call_by_form(program: &Program, e: &Rc<Expr>) -> Result<Option<Rc<Expr>>, Memory>
    ensures { IfOk result (λ call. option_map form_seen call ≡
        the_call_in (program_view program.now) (form_seen e.now)) }
{
    match &e.form {
        Form::CallExact { class, method, .. } if calls_constructor(program, *class, *method) => {
            Ok(Some(e.clone()?))
        }
        _ => Ok(None),
    }
}

// An expression, if it is the call of another constructor.
fn call_in(program: &Program, e: &Rc<Expr>) -> Result<Option<Rc<Expr>>, Memory>
    ensures { IfOk result (λ call. option_map form_seen call ≡
        the_call_in (program_view program.now) (form_of (view e.now.value))) }
{
    let call = call_by_form(program, e)?;
    Ok(call)
}

fn call_in_statement(program: &Program, form: &StmtForm) -> Result<Option<Rc<Expr>>, Memory>
    ensures { IfOk result (λ call. option_map form_seen call ≡
        the_call_in_statement (program_view program.now) (stmt_form_view form.now)) }
{
    match form {
        StmtForm::Do { expr } => {
            let call = call_in(program, expr)?;
            Ok(call)
        }
        _ => Ok(None),
    }
}

// The call of another constructor with which statements begin.
#[tactic(auto, using(je_core::proofs::Views::stmt_form_of_view))]
fn first_call(program: &Program, parts: &[Rc<Stmt>]) -> Result<Option<Rc<Expr>>, Memory>
    ensures { IfOk result (λ call. option_map form_seen call ≡
        the_first_call (program_view program.now) (stmt_views parts.now)) }
{
    match parts.split_first() {
        None => Ok(None),
        Some((first, _)) => call_in_statement(program, &first.form),
    }
}

// The statements of a body, behind another constructor.
fn build_parts(
    context: &mut Context,
    heap: &mut Heap,
    program: &Program,
    class: ClassId,
    body: Rc<Stmt>,
    call: Option<Rc<Expr>>,
) -> Result<Control, Memory>
    ensures goes { IfOk result (GoesToEnd program.now context.old heap.old context.new heap.new
        (λ p m. build_by p m class (stmt_form_view body.value.form) (option_map form_seen call))) }
    ensures short { IfOk result (λ c. height context.new + gives c ≤ height context.old + 1) }
    ensures begun { context.new.begun ≡ context.old.begun }
{
    match call {
        Some(call) => {
            let none = Slots::new(context.alloc);
            constructor_from(context, heap, program, class, body, call, 0, none)
        }
        None => construct_above(context, heap, program, class, body),
    }
}

// The call of another constructor with which a body begins, if it is a block.
#[tactic(auto, using(machine_parts::proofs::Seen::lists_seen))]
fn block_call(program: &Program, body: &Rc<Stmt>) -> Result<Option<Option<Rc<Expr>>>, Memory>
    ensures { IfOk result (λ found. option_map (option_map form_seen) found ≡
        the_block_call (program_view program.now) (stmt_form_view body.now.value.form)) }
{
    match &body.form {
        StmtForm::Block { parts, .. } => {
            let call = first_call(program, parts)?;
            Ok(Some(call))
        }
        _ => Ok(None),
    }
}

/// The body of a constructor of a class begins, once its unit is taken.
pub fn begin_body(
    context: &mut Context,
    heap: &mut Heap,
    program: &Program,
    class: ClassId,
    body: Rc<Stmt>,
) -> Result<Control, Memory>
    ensures goes { IfOk result (GoesToEnd program.now context.old heap.old context.new heap.new
        (λ p m. build_form p m class (stmt_form_view body.value.form))) }
    ensures short { IfOk result (λ c. height context.new + gives c ≤ height context.old + 1) }
    ensures begun { context.new.begun ≡ context.old.begun }
{
    match block_call(program, &body)? {
        Some(call) => build_parts(context, heap, program, class, body, call),
        None => Ok(Control::Wrong),
    }
}
