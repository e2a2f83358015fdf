// Which statements can be reached, and which can complete normally.

ghost use Rattle.std.specs.Prelude.{◌≡◌, IfOk, OnOk, None, map, if◌then◌else◌};
ghost use Rattle.je_core.specs.Core.{core_stmts, maybe_stmt, core_groups, core_catches};
ghost use Rattle.je_core.specs.View.{stmt_view, stmt_form_view, stmt_views, stmt_view_if, group_view, catch_view, label_view};
ghost use Rattle.flow_base.specs.way.Kept.{first_of};
ghost use Rattle.reachability.specs.Reachable.{ends as the_ends, going_on as the_going_on, either as the_either, in_turn as the_in_turn, is_continued as the_is_continued, past_label as the_past_label, loop_ends, labelled_ends, enters as the_enters, switch_ends, past_finally as the_past_finally, jump_ends, statement_ends, form_ends, parts_end, part_ends, groups_end, catches_end, last_ends, statement_faults, form_faults, parts_faults, part_faults, groups_faults, catches_faults};
ghost use Rattle.reachability.specs.Jumps.{no_jumps};
ghost use Rattle.reachability.specs.View.{ends_view, jumps_view};
ghost use Rattle.reachability.specs.way.Parts.{group_ends, group_faults, body_of};

use crate::jumps::Jumps;
use flow_base::{FaultKind, FirstFault, Way, has_default, is_constantly};
use je_core::{Catch, Group, Label, Memory, NameId, Span, Stmt, StmtForm};
use std::alloc::Global;
use std::rc::Rc;

/// Whether a statement can complete normally, and the reachable jumps that leave it.
#[derive(Drop)]
pub struct Ends {
    pub completes: bool,
    pub jumps: Jumps,
}

/// How a statement ends, by the label directly before it and whether it can be reached. The faults of the statements in it
/// that can't be reached are added to those found.
#[cycle(walk)]
#[tactic(auto, using(je_core::proofs::Views::stmt_view_is))]
pub fn walk_statement(
    alloc: Global,
    statement: &Stmt,
    label: Option<NameId>,
    reachable: bool,
    found: &mut FirstFault,
) -> Result<Ends, Memory>
    ensures ends { IfOk result (λ e. ends_view e ≡
        statement_ends label reachable (stmt_view statement.now)) }
    ensures faults { OnOk result (found.new ≡
        first_of found.old (statement_faults reachable (stmt_view statement.now))) }
{
    found.add_where(!reachable, FaultKind::Unreachable, statement.span);
    walk_form(alloc, &statement.form, label, reachable, found)
}

#[cycle(walk)]
fn walk_form(
    alloc: Global,
    form: &StmtForm,
    label: Option<NameId>,
    reachable: bool,
    found: &mut FirstFault,
) -> Result<Ends, Memory>
    ensures ends { IfOk result (λ e. ends_view e ≡
        form_ends label reachable (stmt_form_view form.now)) }
    ensures faults { OnOk result (found.new ≡
        first_of found.old (form_faults reachable (stmt_form_view form.now))) }
{
    match form {
        StmtForm::Empty | StmtForm::Do { .. } => Ok(going_on(alloc, reachable)),
        StmtForm::Block { parts, .. } => walk_parts(
            alloc,
            parts,
            going_on(alloc, reachable),
            found,
        ),
        StmtForm::If { yes, no, .. } => {
            let chosen = walk_statement(alloc, yes, None, reachable, found)?;
            let other = walk_part(alloc, no, reachable, found)?;
            either(chosen, other)
        }
        StmtForm::Loop {
            condition,
            body,
            ..
        } => {
            let inner = reachable && !is_constantly(condition, false);
            let inside = walk_statement(alloc, body, None, inner, found)?;
            end_loop(label, inside, reachable && !is_constantly(condition, true))
        }
        StmtForm::DoLoop { body, condition } => {
            let inside = walk_statement(alloc, body, None, reachable, found)?;
            let comes_by = inside.completes || is_continued(label, &inside.jumps);
            end_loop(label, inside, comes_by && !is_constantly(condition, true))
        }
        StmtForm::Switch { groups, .. } => {
            let inside = walk_groups(alloc, groups, reachable, going_on(alloc, false), found)?;
            end_switch(reachable, has_default(groups), inside)
        }
        StmtForm::Labelled { name, body } => {
            let inside = walk_statement(alloc, body, Some(*name), reachable, found)?;
            end_labelled(*name, inside)
        }
        StmtForm::Jump { again, label } => jump(alloc, reachable, *again, *label),
        StmtForm::Return { .. } | StmtForm::Throw { .. } => Ok(going_on(alloc, false)),
        StmtForm::Try {
            body,
            catches,
            last,
        } => {
            let tried = walk_statement(alloc, body, None, reachable, found)?;
            let handled = walk_catches(alloc, catches, reachable, tried, found)?;
            walk_last(alloc, last, reachable, handled, found)
        }
    }
}

// The statements of a block, behind what ends so.
#[cycle(walk)]
fn walk_parts(
    alloc: Global,
    parts: &[Rc<Stmt>],
    before: Ends,
    found: &mut FirstFault,
) -> Result<Ends, Memory>
    ensures ends { IfOk result (λ e. ends_view e ≡
        parts_end (ends_view before) (core_stmts (stmt_views parts.now))) }
    ensures faults { OnOk result (found.new ≡
        first_of found.old (parts_faults (ends_view before) (core_stmts (stmt_views parts.now)))) }
{
    let mut done = before;
    for part in parts {
        let next = walk_statement(alloc, part, None, done.completes, found)?;
        done = in_turn(done, next)?;
    }
    Ok(done)
}

// A part, if it is there.
#[cycle(walk)]
fn walk_part(
    alloc: Global,
    part: &Option<Rc<Stmt>>,
    reachable: bool,
    found: &mut FirstFault,
) -> Result<Ends, Memory>
    ensures ends { IfOk result (λ e. ends_view e ≡
        part_ends reachable (maybe_stmt (stmt_view_if part.now))) }
    ensures faults { OnOk result (found.new ≡
        first_of found.old (part_faults reachable (maybe_stmt (stmt_view_if part.now)))) }
{
    match part {
        None => Ok(going_on(alloc, reachable)),
        Some(part) => walk_statement(alloc, part, None, reachable, found),
    }
}

// The groups of a switch, behind those that end so.
#[cycle(walk)]
#[tactic(auto, using(crate::proofs::Parts::groups_step))]
fn walk_groups(
    alloc: Global,
    groups: &[Group],
    reachable: bool,
    before: Ends,
    found: &mut FirstFault,
) -> Result<Ends, Memory>
    ensures ends { IfOk result (λ e. ends_view e ≡
        groups_end reachable (ends_view before) (core_groups (map group_view groups.now))) }
    ensures faults { OnOk result (found.new ≡ first_of found.old
        (groups_faults reachable (ends_view before) (core_groups (map group_view groups.now)))) }
{
    let mut done = before;
    for group in groups {
        done = walk_group(alloc, group, reachable, done, found)?;
    }
    Ok(done)
}

#[cycle(walk)]
#[tactic(auto, using(je_core::proofs::Views::parts_seen))]
fn walk_group(
    alloc: Global,
    group: &Group,
    reachable: bool,
    before: Ends,
    found: &mut FirstFault,
) -> Result<Ends, Memory>
    ensures ends { IfOk result (λ e. ends_view e ≡
        group_ends reachable (ends_view before) (group_view group.now)) }
    ensures faults { OnOk result (found.new ≡ first_of found.old
        (group_faults reachable (ends_view before) (group_view group.now))) }
{
    let first = enter(&group.labels, reachable, before);
    walk_parts(alloc, &group.parts, first, found)
}

// The catches of a `try`, beside what ends so.
#[cycle(walk)]
#[tactic(auto, using(crate::proofs::Parts::catches_step))]
fn walk_catches(
    alloc: Global,
    catches: &[Catch],
    reachable: bool,
    before: Ends,
    found: &mut FirstFault,
) -> Result<Ends, Memory>
    ensures ends { IfOk result (λ e. ends_view e ≡
        catches_end reachable (ends_view before) (core_catches (map catch_view catches.now))) }
    ensures faults { OnOk result (found.new ≡ first_of found.old
        (catches_faults reachable (core_catches (map catch_view catches.now)))) }
{
    let mut done = before;
    for catch in catches {
        let handled = walk_catch(alloc, catch, reachable, found)?;
        done = either(done, handled)?;
    }
    Ok(done)
}

#[cycle(walk)]
#[tactic(auto, using(je_core::proofs::Views::parts_seen))]
fn walk_catch(
    alloc: Global,
    catch: &Catch,
    reachable: bool,
    found: &mut FirstFault,
) -> Result<Ends, Memory>
    ensures ends { IfOk result (λ e. ends_view e ≡
        statement_ends None reachable (body_of (catch_view catch.now))) }
    ensures faults { OnOk result (found.new ≡ first_of found.old
        (statement_faults reachable (body_of (catch_view catch.now)))) }
{
    walk_statement(alloc, &catch.body, None, reachable, found)
}

// The block behind `finally`, if it is there, behind what ends so.
#[cycle(walk)]
fn walk_last(
    alloc: Global,
    last: &Option<Rc<Stmt>>,
    reachable: bool,
    before: Ends,
    found: &mut FirstFault,
) -> Result<Ends, Memory>
    ensures ends { IfOk result (λ e. ends_view e ≡
        last_ends reachable (ends_view before) (maybe_stmt (stmt_view_if last.now))) }
    ensures faults { OnOk result (found.new ≡
        first_of found.old (part_faults reachable (maybe_stmt (stmt_view_if last.now)))) }
{
    match last {
        None => Ok(before),
        Some(last) => {
            let last = walk_statement(alloc, last, None, reachable, found)?;
            past_finally(alloc, before, last)
        }
    }
}

fn going_on(alloc: Global, completes: bool) -> Ends
    ensures { ends_view result ≡ the_going_on completes }
{
    Ends {
        completes,
        jumps: Jumps::none(alloc),
    }
}

// What ends in one of two ways.
fn either(one: Ends, other: Ends) -> Result<Ends, Memory>
    ensures { IfOk result (λ e. ends_view e ≡ the_either (ends_view one) (ends_view other)) }
{
    Ok(Ends {
        completes: one.completes || other.completes,
        jumps: one.jumps.joined(other.jumps)?,
    })
}

// What ends so, behind what ended before.
fn in_turn(before: Ends, after: Ends) -> Result<Ends, Memory>
    ensures { IfOk result (λ e. ends_view e ≡ the_in_turn (ends_view before) (ends_view after)) }
{
    Ok(Ends {
        completes: after.completes,
        jumps: before.jumps.joined(after.jumps)?,
    })
}

// Whether a reachable `continue` continues a loop of this label.
fn is_continued(label: Option<NameId>, jumps: &Jumps) -> bool
    ensures { result ≡ the_is_continued label (jumps_view jumps.now) }
{
    match label {
        None => jumps.has(Way::Continues(None)),
        Some(label) => { jumps.has(Way::Continues(None)) || jumps.has(Way::Continues(Some(label))) }
    }
}

// How a loop of this label ends, by its body and whether its condition can end it.
fn end_loop(label: Option<NameId>, inside: Ends, by_condition: bool) -> Result<Ends, Memory>
    ensures { IfOk result (λ e. ends_view e ≡ loop_ends label (ends_view inside) by_condition) }
{
    let by_break = inside.jumps.has(Way::Breaks(None));
    let jumps = inside
        .jumps
        .beyond(Way::Breaks(None))?
        .beyond(Way::Continues(None))?;
    Ok(Ends {
        completes: by_condition || by_break,
        jumps: past_label(label, jumps)?,
    })
}

// The jumps but for a `continue` with this label.
fn past_label(label: Option<NameId>, jumps: Jumps) -> Result<Jumps, Memory>
    ensures { IfOk result (λ j. jumps_view j ≡ the_past_label label (jumps_view jumps)) }
{
    match label {
        None => Ok(jumps),
        Some(label) => jumps.beyond(Way::Continues(Some(label))),
    }
}

// How a statement behind a label ends.
fn end_labelled(label: NameId, inside: Ends) -> Result<Ends, Memory>
    ensures { IfOk result (λ e. ends_view e ≡ labelled_ends label (ends_view inside)) }
{
    let by_break = inside.jumps.has(Way::Breaks(Some(label)));
    Ok(Ends {
        completes: inside.completes || by_break,
        jumps: inside.jumps.beyond(Way::Breaks(Some(label)))?,
    })
}

fn jump(alloc: Global, reachable: bool, again: bool, label: Option<NameId>) -> Result<Ends, Memory>
    ensures { IfOk result (λ e. ends_view e ≡ jump_ends reachable again label) }
{
    let way = if again {
        Way::Continues(label)
    } else {
        Way::Breaks(label)
    };
    Ok(Ends {
        completes: false,
        jumps: Jumps::one(alloc, reachable, way)?,
    })
}

// What comes to the statements behind some labels.
fn enter(labels: &[Label], reachable: bool, before: Ends) -> Ends
    ensures { ends_view result ≡ the_ends
        (the_enters reachable (map label_view labels.now) before.completes) (jumps_view before.jumps) }
{
    Ends {
        completes: enters(labels, reachable, before.completes),
        jumps: before.jumps,
    }
}

// Whether the statements behind some labels can be reached.
fn enters(labels: &[Label], reachable: bool, before: bool) -> bool
    ensures { result ≡ the_enters reachable (map label_view labels.now) before }
{
    if labels.is_empty() {
        return reachable && before;
    }
    reachable
}

// How a switch ends, by its groups.
fn end_switch(reachable: bool, default: bool, inside: Ends) -> Result<Ends, Memory>
    ensures { IfOk result (λ e. ends_view e ≡ switch_ends reachable default (ends_view inside)) }
{
    let by_break = inside.jumps.has(Way::Breaks(None));
    let by_end = if default { inside.completes } else { reachable };
    Ok(Ends {
        completes: by_end || by_break,
        jumps: inside.jumps.beyond(Way::Breaks(None))?,
    })
}

// How a `try` ends, by its `finally`.
fn past_finally(alloc: Global, before: Ends, last: Ends) -> Result<Ends, Memory>
    ensures { IfOk result (λ e. ends_view e ≡
        the_past_finally (ends_view before) (ends_view last)) }
{
    let completes = last.completes;
    let jumps = passing(alloc, completes, before.jumps).joined(last.jumps)?;
    Ok(Ends {
        completes: before.completes && completes,
        jumps,
    })
}

// The jumps that pass a `finally`.
fn passing(alloc: Global, completes: bool, jumps: Jumps) -> Jumps
    ensures { jumps_view result ≡ (if completes then jumps_view jumps else no_jumps) }
{
    if completes { jumps } else { Jumps::none(alloc) }
}
