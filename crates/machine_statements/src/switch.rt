// `switch`.

ghost use Rattle.std.specs.Prelude.{◌≡◌, ◌≤◌, ◌<◌, ◌+◌, ◌^◌, [], ◌∷◌, IfOk, IsSome, MatchOption, Some, None, is_none, length, drop, map};
ghost use Rattle.std.specs.List.{list_any};
ghost use Rattle.je_core.specs.Core.{CoreLabel};
ghost use Rattle.je_core.specs.View.{view, stmt_view, stmt_form_view, group_view, label_view};
ghost use Rattle.je_java.specs.Steps.{bind};
ghost use Rattle.je_java.specs.Meaning.{is_number as the_is_number, has_number as the_has_number, is_default as the_is_default, groups_from, selected, parts_in, switched, block};
ghost use Rattle.machine_parts.specs.Ways.{ended, groups_of, rest_of, broken, gives};
ghost use Rattle.machine_parts.specs.way.Clauses.{BeginsEnd, GoesAheadOf, NextStmt, NextCase};

use crate::stmt::{begin_nothing, begin_wrong, nth};
use je_arith::number;
use je_core::{Expr, Group, Label, Memory, Stmt, StmtForm, Value};
use machine_parts::frame::{Control, Frame};
use machine_parts::stack::Stack;
use std::rc::Rc;

/// The selector of a `switch`.
pub fn begin_switch(
    node: Rc<Stmt>,
    selector: &Rc<Expr>,
    frames: &mut Stack,
) -> Result<Control, Memory>
    ensures goes { IfOk result (BeginsEnd frames.old frames.new
        (λ p m. bind (m.eval (view selector.now.value))
        (λ v. switched m (groups_of (stmt_form_view node.value.form)) v))) }
    ensures short { IfOk result (λ c. length frames.new + gives c ≤ length frames.old + 1) }
{
    let selector = selector.clone()?;
    frames.push(Frame::Switch { node })?;
    Ok(Control::Eval(selector))
}

// The groups of a `switch`.
#[tactic(auto, using(machine_parts::proofs::Seen::lists_seen))]
fn groups(form: &StmtForm) -> Option<&Vec<Group>>
    ensures { MatchOption result (groups_of (stmt_form_view form.now) ≡ [])
        (λ v. groups_of (stmt_form_view form.now) ≡ map group_view v.now.items) }
{
    match form {
        StmtForm::Switch { groups, .. } => Some(groups),
        _ => None,
    }
}

// Whether a label is that number.
fn is_number(number: i64, label: Option<i32>) -> bool
    ensures { result ≡ the_is_number number label }
{
    match label {
        None => false,
        Some(own) => own as i64 == number,
    }
}

// Whether one of some labels is that number.
fn name_number(labels: &[Label], number: i64) -> bool
    ensures { result ≡ list_any (λ (label : CoreLabel). the_is_number number label.value)
        (map label_view labels.now) }
{
    for label in labels {
        if is_number(number, label.value) {
            return true;
        }
    }
    false
}

// Whether a group has a label of that number.
#[tactic(auto, using(crate::proofs::Cases::number_seen))]
fn has_number(group: &Group, number: i64) -> bool
    ensures { result ≡ the_has_number number (group_view group.now) }
{
    name_number(&group.labels, number)
}

// Whether one of some labels is `default`.
fn name_default(labels: &[Label]) -> bool
    ensures { result ≡ list_any (λ (label : CoreLabel). is_none label.value)
        (map label_view labels.now) }
{
    for label in labels {
        if label.value.is_none() {
            return true;
        }
    }
    false
}

// Whether a group has the label `default`.
#[tactic(auto, using(crate::proofs::Cases::default_seen))]
fn has_default(group: &Group) -> bool
    ensures { result ≡ the_is_default (group_view group.now) }
{
    name_default(&group.labels)
}

// The first group with a label of that number.
fn numbered(groups: &[Group], number: i64) -> Option<usize>
    ensures { MatchOption result
        (groups_from (the_has_number number) (map group_view groups.now) ≡ None)
        (λ at. groups_from (the_has_number number) (map group_view groups.now) ≡
        Some (drop at (map group_view groups.now))) }
{
    for (at, group) in groups.iter().enumerate() {
        if has_number(group, number) {
            return Some(at);
        }
    }
    None
}

// The first group with the label `default`.
fn defaults(groups: &[Group]) -> Option<usize>
    ensures { MatchOption result
        (groups_from the_is_default (map group_view groups.now) ≡ None)
        (λ at. groups_from the_is_default (map group_view groups.now) ≡
        Some (drop at (map group_view groups.now))) }
{
    for (at, group) in groups.iter().enumerate() {
        if has_default(group) {
            return Some(at);
        }
    }
    None
}

// Where the groups begin that a number selects.
fn select(form: &StmtForm, number: i64) -> usize
    ensures { selected number (groups_of (stmt_form_view form.now)) ≡
        drop result (groups_of (stmt_form_view form.now)) }
{
    let Some(groups) = groups(form) else {
        return 0;
    };
    match numbered(groups, number) {
        Some(at) => at,
        None => match defaults(groups) {
            Some(at) => at,
            None => groups.len(),
        },
    }
}

// A statement of a group, by its place.
#[tactic(auto, using(crate::proofs::Cases::parts_seen))]
fn part_of(group: &Group, at: usize) -> Result<Option<Rc<Stmt>>, Memory>
    ensures goes { IfOk result (NextStmt (parts_in (group_view group.now)) at) }
    ensures room { IfOk result (λ found. IsSome found → at + 1 < 2 ^ 64) }
{
    nth(&group.parts, at)
}

// The next statement among some groups, and the place behind it.
fn next_among(
    groups: &[Group],
    group: usize,
    next: usize,
) -> Result<Option<(usize, usize, Rc<Stmt>)>, Memory>
    ensures { IfOk result (NextCase (map group_view groups.now) group next) }
{
    let mut next = next;
    for at in group..groups.len() {
        if let Some(part) = part_of(&groups[at], next)? {
            return Ok(Some((at, next + 1, part)));
        }
        next = 0;
    }
    Ok(None)
}

// The same of a `switch`.
fn next_case(
    form: &StmtForm,
    group: usize,
    next: usize,
) -> Result<Option<(usize, usize, Rc<Stmt>)>, Memory>
    ensures { IfOk result (NextCase (groups_of (stmt_form_view form.now)) group next) }
{
    match groups(form) {
        Some(groups) => next_among(groups, group, next),
        None => Ok(None),
    }
}

fn begin_case(
    node: Rc<Stmt>,
    group: usize,
    next: usize,
    part: Rc<Stmt>,
    frames: &mut Stack,
) -> Result<Control, Memory>
    ensures goes { IfOk result (GoesAheadOf frames.old frames.new
        (λ p m k. ended (block m (stmt_view part.value ∷
        rest_of (groups_of (stmt_form_view node.value.form)) group next)) (broken k))) }
    ensures short { IfOk result (λ c. length frames.new + gives c ≤ length frames.old + 1) }
{
    frames.push(Frame::Cases { node, group, next })?;
    Ok(Control::Exec(part))
}

/// The statements of a `switch` from a place on.
#[tactic(auto, unfolding(machine_parts::specs::way::Opened::opened))]
pub fn cases_from(
    node: Rc<Stmt>,
    group: usize,
    next: usize,
    frames: &mut Stack,
) -> Result<Control, Memory>
    ensures goes { IfOk result (GoesAheadOf frames.old frames.new
        (λ p m k. ended (block m (rest_of (groups_of (stmt_form_view node.value.form)) group next))
        (broken k))) }
    ensures short { IfOk result (λ c. length frames.new + gives c ≤ length frames.old + 1) }
{
    match next_case(&node.form, group, next)? {
        Some((group, next, part)) => begin_case(node, group, next, part, frames),
        None => Ok(begin_nothing()),
    }
}

/// What a `switch` does with its selector's value.
pub fn switch(value: Value, node: Rc<Stmt>, frames: &mut Stack) -> Result<Control, Memory>
    ensures goes { IfOk result (BeginsEnd frames.old frames.new
        (λ p m. switched m (groups_of (stmt_form_view node.value.form)) value)) }
    ensures short { IfOk result (λ c. length frames.new + gives c ≤ length frames.old + 1) }
{
    match number(value) {
        Some(number) => {
            let group = select(&node.form, number);
            cases_from(node, group, 0, frames)
        }
        None => Ok(begin_wrong()),
    }
}
