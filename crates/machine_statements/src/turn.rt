// Loops and labels: the turns of a loop.

ghost use Rattle.std.specs.Prelude.{◌≡◌, ◌≤◌, ◌<◌, ◌+◌, ◌^◌, [], IfOk, IsSome, MatchOption, Some, None, nat_eq, length, drop};
ghost use Rattle.std.specs.List.{list_any};
ghost use Rattle.je_base.specs.declared.span.NameId.{NameId as TheNameId};
ghost use Rattle.je_core.specs.View.{view, views, stmt_view, stmt_form_view};
ghost use Rattle.je_java.specs.Steps.{seq, bind, looped, labelled, takes as the_takes, is_label};
ghost use Rattle.je_java.specs.Meaning.{labels_of, behind_labels as the_behind_labels, tested, taken_in, passed_in, steps_of, condition_of, asked, further, turn as the_turn};
ghost use Rattle.machine_parts.specs.Ways.{gives};
ghost use Rattle.machine_parts.specs.way.Clauses.{BeginsEnd, RunsOn, NextExpr};

use crate::stmt::begin_wrong;
use je_base::NameId;
use je_core::{Expr, Memory, Stmt, StmtForm};
use machine_parts::frame::{Control, Frame};
use machine_parts::stack::Stack;
use std::rc::Rc;

/// The statement behind some labels.
#[tactic(auto, using(crate::proofs::Turns::behind_step))]
pub fn behind_labels(form: &StmtForm) -> &StmtForm
    ensures { stmt_form_view result.now ≡ the_behind_labels (stmt_form_view form.now) }
{
    match form {
        StmtForm::Labelled { body, .. } => behind_labels(&body.form),
        _ => form,
    }
}

// Whether one of the labels before a statement is that name.
#[tactic(auto, using(crate::proofs::Turns::label_step))]
fn has_label(form: &StmtForm, name: NameId) -> bool
    ensures { result ≡ list_any (λ (own : TheNameId). nat_eq own.0 name.0)
        (labels_of (stmt_form_view form.now)) }
{
    match form {
        StmtForm::Labelled { name: own, body } => {
            if own.0 == name.0 {
                true
            } else {
                has_label(&body.form, name)
            }
        }
        _ => false,
    }
}

/// Whether a jump comes to a loop.
pub fn takes(form: &StmtForm, label: Option<NameId>) -> bool
    ensures { result ≡ the_takes (labels_of (stmt_form_view form.now)) label }
{
    match label {
        None => true,
        Some(name) => has_label(form, name),
    }
}

/// The body of a loop.
pub fn begin_body(node: Rc<Stmt>, body: Rc<Stmt>, frames: &mut Stack) -> Result<Control, Memory>
    ensures goes { IfOk result (BeginsEnd frames.old frames.new (λ p m.
        looped (the_takes (labels_of (stmt_form_view node.value.form)))
        (m.again (stmt_view node.value)) (m.exec (stmt_view body.value)))) }
    ensures short { IfOk result (λ c. length frames.new + gives c ≤ length frames.old + 1) }
{
    frames.push(Frame::Body { node })?;
    Ok(Control::Exec(body))
}

/// The statement behind a label.
pub fn begin_labelled(
    label: NameId,
    node: Rc<Stmt>,
    body: &Rc<Stmt>,
    frames: &mut Stack,
) -> Result<Control, Memory>
    ensures goes { IfOk result (BeginsEnd frames.old frames.new (λ p m.
        labelled (is_label label) (m.again (stmt_view node.value))
        (m.exec (stmt_view body.now.value)))) }
    ensures short { IfOk result (λ c. length frames.new + gives c ≤ length frames.old + 1) }
{
    frames.push(Frame::Labelled { label, node })?;
    Ok(Control::Exec(body.clone()?))
}

/// The condition of a statement.
pub fn begin_condition(
    node: Rc<Stmt>,
    condition: &Rc<Expr>,
    frames: &mut Stack,
) -> Result<Control, Memory>
    ensures goes { IfOk result (BeginsEnd frames.old frames.new
        (λ p m. bind (m.eval (view condition.now.value))
        (λ v. tested m (stmt_view node.value) (stmt_form_view node.value.form) v))) }
    ensures short { IfOk result (λ c. length frames.new + gives c ≤ length frames.old + 1) }
{
    let condition = condition.clone()?;
    frames.push(Frame::Test { node })?;
    Ok(Control::Eval(condition))
}

// The steps of a loop.
fn steps(form: &StmtForm) -> Option<&Vec<Rc<Expr>>>
    ensures { MatchOption result (steps_of (the_behind_labels (stmt_form_view form.now)) ≡ [])
        (λ v. steps_of (the_behind_labels (stmt_form_view form.now)) ≡ views v.now.items) }
{
    match behind_labels(form) {
        StmtForm::Loop { steps, .. } => Some(steps),
        _ => None,
    }
}

fn step_at(form: &StmtForm, at: usize) -> Result<Option<Rc<Expr>>, Memory>
    ensures goes { IfOk result
        (NextExpr (steps_of (the_behind_labels (stmt_form_view form.now))) at) }
    ensures room { IfOk result (λ found. IsSome found → at + 1 < 2 ^ 64) }
{
    let Some(steps) = steps(form) else {
        return Ok(None);
    };
    match steps.get(at) {
        Some(step) => Ok(Some(step.clone()?)),
        None => Ok(None),
    }
}

fn begin_step(
    node: Rc<Stmt>,
    next: usize,
    step: Rc<Expr>,
    frames: &mut Stack,
) -> Result<Control, Memory>
    ensures goes { IfOk result (BeginsEnd frames.old frames.new
        (λ p m. seq (m.eval (view step.value))
        (further m (stmt_view node.value) (stmt_form_view node.value.form) next))) }
    ensures short { IfOk result (λ c. length frames.new + gives c ≤ length frames.old + 1) }
{
    frames.push(Frame::Steps { node, next })?;
    Ok(Control::Eval(step))
}

// The condition of a loop.
fn condition(form: &StmtForm) -> Option<&Rc<Expr>>
    ensures { MatchOption result (condition_of (the_behind_labels (stmt_form_view form.now)) ≡ None)
        (λ e. condition_of (the_behind_labels (stmt_form_view form.now)) ≡
        Some (view e.now.value)) }
{
    match behind_labels(form) {
        StmtForm::Loop { condition, .. } => Some(condition),
        StmtForm::DoLoop { condition, .. } => Some(condition),
        _ => None,
    }
}

// Whether a loop has another turn.
#[tactic(auto)]
fn ask(node: Rc<Stmt>, frames: &mut Stack) -> Result<Control, Memory>
    ensures goes { IfOk result (BeginsEnd frames.old frames.new
        (λ p m. asked m (stmt_view node.value) (stmt_form_view node.value.form))) }
    ensures short { IfOk result (λ c. length frames.new + gives c ≤ length frames.old + 1) }
{
    match condition(&node.form) {
        Some(condition) => begin_condition(node.clone()?, condition, frames),
        None => Ok(begin_wrong()),
    }
}

/// The steps of a loop from a place on, and then its condition.
#[tactic(auto)]
pub fn steps_from(node: Rc<Stmt>, next: usize, frames: &mut Stack) -> Result<Control, Memory>
    ensures goes { IfOk result (BeginsEnd frames.old frames.new
        (λ p m. further m (stmt_view node.value) (stmt_form_view node.value.form) next)) }
    ensures short { IfOk result (λ c. length frames.new + gives c ≤ length frames.old + 1) }
{
    match step_at(&node.form, next)? {
        Some(step) => begin_step(node, next + 1, step, frames),
        None => ask(node, frames),
    }
}

/// How a loop goes on after a turn of its body.
#[tactic(auto, using(crate::proofs::Turns::again_is))]
pub fn again(node: Rc<Stmt>, frames: &mut Stack) -> Result<Control, Memory>
    ensures goes { IfOk result (RunsOn frames.old frames.new
        (λ m. m.again (stmt_view node.value))) }
    ensures short { IfOk result (λ c. length frames.new + gives c ≤ length frames.old + 1) }
{
    steps_from(node, 0, frames)
}
