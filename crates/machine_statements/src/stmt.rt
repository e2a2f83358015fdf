// A statement begins, once its unit is taken.

ghost use Rattle.std.specs.Prelude.{◌≡◌, ◌≤◌, ◌<◌, ◌+◌, ◌^◌, [], IfOk, IsSome, MatchOption, length, drop};
ghost use Rattle.machine_parts.specs.way.Clauses.{BeginsEnd, IsEnd, GoesToEnd, NextStmt};
ghost use Rattle.je_core.specs.View.{view, stmt_view, stmt_view_if, stmt_form_view, stmt_views};
ghost use Rattle.je_java.specs.Steps.{ret, seq, bind, leave as the_leave, jump as the_jump, wrong as the_wrong};
ghost use Rattle.je_java.specs.Meaning.{block as the_block, exec_maybe, taken as the_taken, taken_in, passed as the_passed, passed_in, labels_of, tested, exec_form};
ghost use Rattle.je_core.specs.Core.{maybe_stmt};
ghost use Rattle.je_java.specs.Constructors.{parts_of};
ghost use Rattle.machine_parts.specs.Ways.{gives, height};

use crate::catch::{begin_throw, begin_try};
use crate::switch::begin_switch;
use crate::turn::{begin_body, begin_condition, begin_labelled, behind_labels};
use je_base::NameId;
use je_core::{Expr, Memory, Program, Stmt, StmtForm, Value};
use je_heap::Heap;
use machine_parts::frame::{Context, Control, Frame};
use machine_parts::stack::Stack;
use std::rc::Rc;

// The statements of a block.
#[tactic(auto, using(machine_parts::proofs::Seen::lists_seen))]
fn parts(form: &StmtForm) -> Option<&Vec<Rc<Stmt>>>
    ensures { MatchOption result (parts_of (stmt_form_view form.now) ≡ [])
        (λ v. parts_of (stmt_form_view form.now) ≡ stmt_views v.now.items) }
{
    match form {
        StmtForm::Block { parts, .. } => Some(parts),
        _ => None,
    }
}

/// A statement of a list, by its place.
pub fn nth(parts: &[Rc<Stmt>], at: usize) -> Result<Option<Rc<Stmt>>, Memory>
    ensures goes { IfOk result (NextStmt (stmt_views parts.now) at) }
    ensures room { IfOk result (λ found. IsSome found → at + 1 < 2 ^ 64) }
{
    match parts.get(at) {
        Some(part) => Ok(Some(part.clone()?)),
        None => Ok(None),
    }
}

fn part_at(form: &StmtForm, at: usize) -> Result<Option<Rc<Stmt>>, Memory>
    ensures goes { IfOk result (NextStmt (parts_of (stmt_form_view form.now)) at) }
    ensures room { IfOk result (λ found. IsSome found → at + 1 < 2 ^ 64) }
{
    match parts(form) {
        Some(parts) => nth(parts, at),
        None => Ok(None),
    }
}

fn begin_part(
    block: Rc<Stmt>,
    next: usize,
    part: Rc<Stmt>,
    frames: &mut Stack,
) -> Result<Control, Memory>
    ensures goes { IfOk result (BeginsEnd frames.old frames.new
        (λ p m. seq (m.exec (stmt_view part.value))
        (the_block m (drop next (parts_of (stmt_form_view block.value.form)))))) }
    ensures short { IfOk result (λ c. length frames.new + gives c ≤ length frames.old + 1) }
{
    frames.push(Frame::Parts { block, next })?;
    Ok(Control::Exec(part))
}

/// Nothing is left to do: the statement is at its end.
pub fn begin_nothing() -> Control
    ensures goes { IsEnd result (λ p m. ret tt) }
    ensures short { gives result ≤ 1 }
{
    Control::Next
}

/// What no program that fits its types comes to.
pub fn begin_wrong() -> Control
    ensures goes { IsEnd result (λ p m. the_wrong) }
    ensures short { gives result ≤ 1 }
{
    Control::Wrong
}

/// The method is left with a value.
pub fn begin_leave(value: Value) -> Control
    ensures goes { IsEnd result (λ p m. the_leave value) }
    ensures short { gives result ≤ 1 }
{
    Control::Leave(value)
}

fn begin_jump(again: bool, label: Option<NameId>) -> Control
    ensures goes { IsEnd result (λ p m. the_jump again label) }
    ensures short { gives result ≤ 1 }
{
    Control::Jump { again, label }
}

/// The statements of a block from a place on.
#[tactic(auto)]
pub fn parts_from(block: Rc<Stmt>, next: usize, frames: &mut Stack) -> Result<Control, Memory>
    ensures goes { IfOk result (BeginsEnd frames.old frames.new
        (λ p m. the_block m (drop next (parts_of (stmt_form_view block.value.form))))) }
    ensures short { IfOk result (λ c. length frames.new + gives c ≤ length frames.old + 1) }
{
    match part_at(&block.form, next)? {
        Some(part) => begin_part(block, next + 1, part, frames),
        None => Ok(begin_nothing()),
    }
}

fn begin_do(expr: &Rc<Expr>, frames: &mut Stack) -> Result<Control, Memory>
    ensures goes { IfOk result (BeginsEnd frames.old frames.new
        (λ p m. seq (m.eval (view expr.now.value)) (ret tt))) }
    ensures short { IfOk result (λ c. length frames.new + gives c ≤ length frames.old + 1) }
{
    frames.push(Frame::Ignored)?;
    Ok(Control::Eval(expr.clone()?))
}

// A statement that may be absent.
fn exec_if(node: &Option<Rc<Stmt>>) -> Result<Control, Memory>
    ensures goes { IfOk result (λ c.
        IsEnd c (λ p m. exec_maybe m (maybe_stmt (stmt_view_if node.now)))) }
    ensures short { IfOk result (λ c. gives c ≤ 1) }
{
    match node {
        Some(node) => Ok(Control::Exec(node.clone()?)),
        None => Ok(begin_nothing()),
    }
}

// What a statement does where its condition holds, by its form behind its labels.
#[tactic(auto)]
fn take_in(node: Rc<Stmt>, form: &StmtForm, frames: &mut Stack) -> Result<Control, Memory>
    ensures goes { IfOk result (BeginsEnd frames.old frames.new
        (λ p m. taken_in m (stmt_view node.value) (labels_of (stmt_form_view node.value.form))
        (stmt_form_view form.now))) }
    ensures short { IfOk result (λ c. length frames.new + gives c ≤ length frames.old + 1) }
{
    match form {
        StmtForm::If { yes, .. } => Ok(Control::Exec(yes.clone()?)),
        StmtForm::Loop { body, .. } => begin_body(node, body.clone()?, frames),
        StmtForm::DoLoop { body, .. } => begin_body(node, body.clone()?, frames),
        _ => Ok(begin_wrong()),
    }
}

// Where a condition holds.
#[tactic(auto)]
fn take(node: Rc<Stmt>, frames: &mut Stack) -> Result<Control, Memory>
    ensures goes { IfOk result (BeginsEnd frames.old frames.new
        (λ p m. the_taken m (stmt_view node.value) (stmt_form_view node.value.form))) }
    ensures short { IfOk result (λ c. length frames.new + gives c ≤ length frames.old + 1) }
{
    take_in(node.clone()?, behind_labels(&node.form), frames)
}

// Where a condition does not hold, by the form behind the labels.
#[tactic(auto)]
fn pass_in(form: &StmtForm) -> Result<Control, Memory>
    ensures goes { IfOk result (λ c. IsEnd c (λ p m. passed_in m (stmt_form_view form.now))) }
    ensures short { IfOk result (λ c. gives c ≤ 1) }
{
    match form {
        StmtForm::If { no, .. } => exec_if(no),
        StmtForm::Loop { .. } => Ok(begin_nothing()),
        StmtForm::DoLoop { .. } => Ok(begin_nothing()),
        _ => Ok(begin_wrong()),
    }
}

// Where a condition does not hold.
#[tactic(auto)]
fn pass(form: &StmtForm) -> Result<Control, Memory>
    ensures goes { IfOk result (λ c. IsEnd c (λ p m. the_passed m (stmt_form_view form.now))) }
    ensures short { IfOk result (λ c. gives c ≤ 1) }
{
    pass_in(behind_labels(form))
}

/// What a statement does with its condition's value.
pub fn test(value: Value, node: Rc<Stmt>, frames: &mut Stack) -> Result<Control, Memory>
    ensures goes { IfOk result (BeginsEnd frames.old frames.new
        (λ p m. tested m (stmt_view node.value) (stmt_form_view node.value.form) value)) }
    ensures short { IfOk result (λ c. length frames.new + gives c ≤ length frames.old + 1) }
{
    match value {
        Value::Bool(true) => take(node, frames),
        Value::Bool(false) => pass(&node.form),
        _ => Ok(begin_wrong()),
    }
}

fn begin_return(value: &Rc<Expr>, frames: &mut Stack) -> Result<Control, Memory>
    ensures goes { IfOk result (BeginsEnd frames.old frames.new
        (λ p m. bind (m.eval (view value.now.value)) (λ v. the_leave v))) }
    ensures short { IfOk result (λ c. length frames.new + gives c ≤ length frames.old + 1) }
{
    frames.push(Frame::Returned)?;
    Ok(Control::Eval(value.clone()?))
}

/// A statement begins, by its form.
#[tactic(auto)]
pub fn begin_stmt(
    context: &mut Context,
    heap: &Heap,
    program: &Program,
    node: Rc<Stmt>,
) -> Result<Control, Memory>
    ensures goes { IfOk result (GoesToEnd program.now context.old heap.now context.new heap.now
        (λ p m. exec_form p m (stmt_view node.value) (stmt_form_view node.value.form))) }
    ensures short { IfOk result (λ c. height context.new + gives c ≤ height context.old + 1) }
    ensures begun { context.new.begun ≡ context.old.begun }
{
    match &node.form {
        StmtForm::Empty => Ok(begin_nothing()),
        StmtForm::If { condition, .. } => {
            begin_condition(node.clone()?, condition, &mut context.frames)
        }
        StmtForm::Loop { condition, .. } => {
            begin_condition(node.clone()?, condition, &mut context.frames)
        }
        StmtForm::DoLoop { body, .. } => {
            begin_body(node.clone()?, body.clone()?, &mut context.frames)
        }
        StmtForm::Labelled { name, body } => {
            begin_labelled(*name, node.clone()?, body, &mut context.frames)
        }
        StmtForm::Switch { selector, .. } => {
            begin_switch(node.clone()?, selector, &mut context.frames)
        }
        StmtForm::Throw { value } => begin_throw(value, &mut context.frames),
        StmtForm::Try { body, .. } => begin_try(node.clone()?, body, &mut context.frames),
        StmtForm::Jump { again, label } => Ok(begin_jump(*again, *label)),
        StmtForm::Block { .. } => parts_from(node.clone()?, 0, &mut context.frames),
        StmtForm::Do { expr } => begin_do(expr, &mut context.frames),
        StmtForm::Return { value: None } => Ok(begin_leave(Value::Null)),
        StmtForm::Return { value: Some(value) } => begin_return(value, &mut context.frames),
    }
}
