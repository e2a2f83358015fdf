// `throw`, and `try` with its catches and its `finally`.

ghost use Rattle.std.specs.Prelude.{◌≡◌, ◌≤◌, ◌+◌, [], IfOk, MatchOption, Some, length, map, option_map};
ghost use Rattle.je_core.specs.declared.value.ObjId.{ObjId as TheObjId};
ghost use Rattle.je_core.specs.Core.{no_stmt, a_stmt};
ghost use Rattle.je_core.specs.View.{view, stmt_view, stmt_form_view, catch_view, program_view};
ghost use Rattle.je_java.specs.Steps.{bind, catching, throw_value};
ghost use Rattle.je_java.specs.Meaning.{Meanings, catch_for as the_catch_for, handled, caught, with_last};
ghost use Rattle.machine_parts.specs.Ways.{ended, finishes, catches_of, last_of, ended_by, height, gives};
ghost use Rattle.machine_parts.specs.way.Clauses.{BeginsEnd, IsAhead, GoesAhead, GoesAheadOf, GoesAheadOver, handled_by};

use je_core::{Catch, ClassId, Expr, Memory, ObjId, Program, Stmt, StmtForm, Value};
use je_heap::Heap;
use machine_parts::class::is_subclass;
use machine_parts::frame::{Context, Control, End, Frame};
use machine_parts::shape::class_of;
use machine_parts::stack::Stack;
use std::rc::Rc;

/// The value that is to be thrown.
pub fn begin_throw(value: &Rc<Expr>, frames: &mut Stack) -> Result<Control, Memory>
    ensures goes { IfOk result (BeginsEnd frames.old frames.new
        (λ p m. bind (m.eval (view value.now.value)) (λ v. throw_value p v))) }
    ensures short { IfOk result (λ c. length frames.new + gives c ≤ length frames.old + 1) }
{
    frames.push(Frame::Thrown)?;
    Ok(Control::Eval(value.clone()?))
}

/// The body of a `try`.
#[tactic(auto, using(crate::proofs::Finishing::try_begins))]
pub fn begin_try(node: Rc<Stmt>, body: &Rc<Stmt>, frames: &mut Stack) -> Result<Control, Memory>
    ensures goes { IfOk result (BeginsEnd frames.old frames.new (λ p m.
        with_last m (last_of (stmt_form_view node.value.form))
        (catching (m.exec (stmt_view body.now.value))
        (caught p m (catches_of (stmt_form_view node.value.form)))))) }
    ensures short { IfOk result (λ c. length frames.new + gives c ≤ length frames.old + 1) }
{
    frames.push(Frame::Try { node })?;
    Ok(Control::Exec(body.clone()?))
}

/// A statement has ended so.
pub fn go_on(end: End) -> Control
    ensures goes { IsAhead result (λ p m k. ended_by end k) }
    ensures short { gives result ≤ 1 }
{
    match end {
        End::Next => Control::Next,
        End::Leave(value) => Control::Leave(value),
        End::Throw(exception) => Control::Throw(exception),
        End::Jump { again, label } => Control::Jump { again, label },
    }
}

// The block behind `finally`.
fn last(form: &StmtForm) -> Option<&Rc<Stmt>>
    ensures { MatchOption result (last_of (stmt_form_view form.now) ≡ no_stmt)
        (λ s. last_of (stmt_form_view form.now) ≡ a_stmt (stmt_view s.now.value)) }
{
    match form {
        StmtForm::Try { last, .. } => match last {
            Some(last) => Some(last),
            None => None,
        },
        _ => None,
    }
}

#[tactic(auto, using(crate::proofs::Finishing::last_begins))]
fn begin_last(last: &Rc<Stmt>, end: End, frames: &mut Stack) -> Result<Control, Memory>
    ensures goes { IfOk result (GoesAheadOf frames.old frames.new
        (λ p m k. ended_by end (finishes (a_stmt (stmt_view last.now.value)) m k))) }
    ensures short { IfOk result (λ c. length frames.new + gives c ≤ length frames.old + 1) }
{
    frames.push(Frame::Finishing { end })?;
    Ok(Control::Exec(last.clone()?))
}

/// The body and the catches of a `try` have ended so: the block behind `finally` runs, if there is one.
#[tactic(auto)]
pub fn finish(form: &StmtForm, end: End, frames: &mut Stack) -> Result<Control, Memory>
    ensures goes { IfOk result (GoesAheadOf frames.old frames.new
        (λ p m k. ended_by end (finishes (last_of (stmt_form_view form.now)) m k))) }
    ensures short { IfOk result (λ c. length frames.new + gives c ≤ length frames.old + 1) }
{
    match last(form) {
        Some(last) => begin_last(last, end, frames),
        None => Ok(go_on(end)),
    }
}

// The catches of a `try`.
#[tactic(auto, using(machine_parts::proofs::Seen::lists_seen))]
fn catches(form: &StmtForm) -> Option<&Vec<Catch>>
    ensures { MatchOption result (catches_of (stmt_form_view form.now) ≡ [])
        (λ v. catches_of (stmt_form_view form.now) ≡ map catch_view v.now.items) }
{
    match form {
        StmtForm::Try { catches, .. } => Some(catches),
        _ => None,
    }
}

// The first catch that takes an exception of a class.
#[tactic(auto, using(je_core::proofs::Views::parts_seen))]
fn catch_among<'a>(program: &Program, catches: &'a [Catch], own: ClassId) -> Option<&'a Catch>
    ensures { option_map (λ c. catch_view c.now) result ≡
        the_catch_for (program_view program.now) (map catch_view catches.now) own }
{
    for taken in catches {
        if is_subclass(program, own, taken.class) {
            return Some(taken);
        }
    }
    None
}

// What it does with the exception: the local that takes it, and the block.
#[tactic(auto, using(je_core::proofs::Views::parts_seen))]
fn catch_for(
    program: &Program,
    form: &StmtForm,
    own: ClassId,
) -> Result<Option<(u32, Rc<Stmt>)>, Memory>
    ensures { IfOk result (λ found. (m : Meanings) (exception : TheObjId) →
        handled_by m found exception ≡ handled m
        (the_catch_for (program_view program.now) (catches_of (stmt_form_view form.now)) own)
        exception) }
{
    let Some(catches) = catches(form) else {
        return Ok(None);
    };
    match catch_among(program, catches, own) {
        Some(taken) => Ok(Some((taken.local, taken.body.clone()?))),
        None => Ok(None),
    }
}

// The block of a catch.
fn begin_handler(node: Rc<Stmt>, block: Rc<Stmt>, frames: &mut Stack) -> Result<Control, Memory>
    ensures goes { IfOk result (GoesAheadOf frames.old frames.new
        (λ p m k. ended (m.exec (stmt_view block.value))
        (finishes (last_of (stmt_form_view node.value.form)) m k))) }
    ensures short { IfOk result (λ c. length frames.new + gives c ≤ length frames.old + 1) }
{
    frames.push(Frame::Finally { node })?;
    Ok(Control::Exec(block))
}

// An exception comes to the local of a catch, and its block begins.
fn handle(
    context: &mut Context,
    node: Rc<Stmt>,
    local: u32,
    block: Rc<Stmt>,
    exception: ObjId,
) -> Result<Control, Memory>
    ensures goes { IfOk result (GoesAhead context.old context.new
        (λ p m k. ended (handled_by m (Some (local, block)) exception)
        (finishes (last_of (stmt_form_view node.value.form)) m k))) }
    ensures short { IfOk result (λ c. height context.new + gives c ≤ height context.old + 1) }
    ensures begun { context.new.begun ≡ context.old.begun }
{
    if (local as usize) < context.env.locals.len() {
        context
            .env
            .locals
            .set(local as usize, Value::Ref(exception));
        begin_handler(node, block, &mut context.frames)
    } else {
        Ok(Control::Wrong)
    }
}

/// An exception leaves the body of a `try`.
pub fn catch(
    context: &mut Context,
    heap: &Heap,
    program: &Program,
    node: Rc<Stmt>,
    exception: ObjId,
) -> Result<Control, Memory>
    ensures goes { IfOk result (GoesAheadOver program.now
        context.old heap.now context.new heap.now
        (λ p m k. ended (caught p m (catches_of (stmt_form_view node.value.form)) exception)
        (finishes (last_of (stmt_form_view node.value.form)) m k))) }
    ensures short { IfOk result (λ c. height context.new + gives c ≤ height context.old + 1) }
    ensures begun { context.new.begun ≡ context.old.begun }
{
    let Some(own) = class_of(heap, exception) else {
        return Ok(Control::Wrong);
    };
    match catch_for(program, &node.form, own)? {
        Some((local, block)) => handle(context, node, local, block, exception),
        None => finish(&node.form, End::Throw(exception), &mut context.frames),
    }
}
