// What is before a catch and a `finally` (JLS 16.2.15), and the variables that are assigned nowhere in a statement.

ghost use Rattle.std.specs.Prelude.{◌≡◌, IfOk, map};
ghost use Rattle.je_core.specs.Core.{core_stmts, maybe_stmt, core_groups, core_catches};
ghost use Rattle.je_core.specs.View.{view_if, stmt_view, stmt_form_view, stmt_views, stmt_view_if, group_view, catch_view};
ghost use Rattle.variable_sets.specs.Sets.{everything};
ghost use Rattle.variable_sets.specs.SetView.{set_view};
ghost use Rattle.assignment_rules.specs.Rules.{handled as the_handled};
ghost use Rattle.assigned_expressions.specs.Untouched.{untouched};
ghost use Rattle.assigned_statements.specs.Untouched.{value_untouched, statement_untouched, form_untouched, parts_untouched, part_untouched, groups_untouched, catches_untouched};
ghost use Rattle.assignment_rules.specs.View.{follow_view};
ghost use Rattle.assigned_statements.specs.way.Parts.{group_untouched, catch_untouched};

use assigned_expressions::{without_all, without_assigned};
use assignment_rules::{Follow, Rule, handled};
use je_core::{Catch, ClassId, Expr, Group, Memory, Stmt, StmtForm};
use std::alloc::Global;
use std::rc::Rc;
use variable_sets::Variables;

/// The set before the catches of a `try`.
pub fn before_catches(
    alloc: Global,
    follow: &Follow,
    body: &Stmt,
    before: &Variables,
) -> Result<Variables, Memory>
    ensures { IfOk result (λ v. set_view v ≡
        the_handled (follow_view follow.now).rule (set_view before.now)
        (statement_untouched (follow_view follow.now).home everything (stmt_view body.now))) }
{
    match follow.rule {
        Rule::Assigned => before.copy(),
        Rule::Unassigned => {
            let untouched = untouched_by(follow.home, body, Variables::everything(alloc))?;
            handled(follow.rule, before.copy()?, &untouched)
        }
    }
}

/// The set before the `finally` of a `try`, by that before its catches.
pub fn before_last(
    alloc: Global,
    follow: &Follow,
    catches: &[Catch],
    start: &Variables,
) -> Result<Variables, Memory>
    ensures { IfOk result (λ v. set_view v ≡
        the_handled (follow_view follow.now).rule (set_view start.now)
        (catches_untouched (follow_view follow.now).home everything
        (core_catches (map catch_view catches.now)))) }
{
    match follow.rule {
        Rule::Assigned => start.copy(),
        Rule::Unassigned => {
            let everything = Variables::everything(alloc);
            let untouched = untouched_by_catches(follow.home, catches, everything)?;
            handled(follow.rule, start.copy()?, &untouched)
        }
    }
}

/// The variables of a set that are assigned nowhere in a statement.
#[cycle(statements)]
#[tactic(auto, using(je_core::proofs::Views::stmt_view_is))]
pub fn untouched_by(
    home: Option<ClassId>,
    statement: &Stmt,
    set: Variables,
) -> Result<Variables, Memory>
    ensures { IfOk result (λ v. set_view v ≡
        statement_untouched home (set_view set) (stmt_view statement.now)) }
{
    untouched_by_form(home, &statement.form, set)
}

#[cycle(statements)]
fn untouched_by_form(
    home: Option<ClassId>,
    form: &StmtForm,
    set: Variables,
) -> Result<Variables, Memory>
    ensures { IfOk result (λ v. set_view v ≡
        form_untouched home (set_view set) (stmt_form_view form.now)) }
{
    match form {
        StmtForm::Empty | StmtForm::Jump { .. } => Ok(set),
        StmtForm::Block { parts, .. } => untouched_by_parts(home, parts, set),
        StmtForm::Do { expr: value } | StmtForm::Throw { value } => without_assigned(
            home, value, set,
        ),
        StmtForm::If { condition, yes, no } => {
            let rest = without_assigned(home, condition, set)?;
            let rest = untouched_by(home, yes, rest)?;
            untouched_by_part(home, no, rest)
        }
        StmtForm::Loop {
            condition,
            steps,
            body,
        } => {
            let rest = without_assigned(home, condition, set)?;
            let rest = without_all(home, steps, rest)?;
            untouched_by(home, body, rest)
        }
        StmtForm::DoLoop { body, condition } => {
            let rest = untouched_by(home, body, set)?;
            without_assigned(home, condition, rest)
        }
        StmtForm::Switch {
            selector,
            groups,
            ..
        } => {
            let rest = without_assigned(home, selector, set)?;
            untouched_by_groups(home, groups, rest)
        }
        StmtForm::Labelled { body, .. } => untouched_by(home, body, set),
        StmtForm::Return { value } => without_value(home, value, set),
        StmtForm::Try {
            body,
            catches,
            last,
        } => {
            let rest = untouched_by(home, body, set)?;
            let rest = untouched_by_catches(home, catches, rest)?;
            untouched_by_part(home, last, rest)
        }
    }
}

#[cycle(statements)]
fn untouched_by_parts(
    home: Option<ClassId>,
    parts: &[Rc<Stmt>],
    set: Variables,
) -> Result<Variables, Memory>
    ensures { IfOk result (λ v. set_view v ≡
        parts_untouched home (set_view set) (core_stmts (stmt_views parts.now))) }
{
    let mut rest = set;
    for part in parts {
        rest = untouched_by(home, part, rest)?;
    }
    Ok(rest)
}

#[cycle(statements)]
fn untouched_by_part(
    home: Option<ClassId>,
    part: &Option<Rc<Stmt>>,
    set: Variables,
) -> Result<Variables, Memory>
    ensures { IfOk result (λ v. set_view v ≡
        part_untouched home (set_view set) (maybe_stmt (stmt_view_if part.now))) }
{
    match part {
        None => Ok(set),
        Some(part) => untouched_by(home, part, set),
    }
}

#[cycle(statements)]
#[tactic(auto, using(crate::proofs::Parts::untouched_step))]
fn untouched_by_groups(
    home: Option<ClassId>,
    groups: &[Group],
    set: Variables,
) -> Result<Variables, Memory>
    ensures { IfOk result (λ v. set_view v ≡
        groups_untouched home (set_view set) (core_groups (map group_view groups.now))) }
{
    let mut rest = set;
    for group in groups {
        rest = untouched_by_group(home, group, rest)?;
    }
    Ok(rest)
}

#[cycle(statements)]
#[tactic(auto, using(je_core::proofs::Views::parts_seen))]
fn untouched_by_group(
    home: Option<ClassId>,
    group: &Group,
    set: Variables,
) -> Result<Variables, Memory>
    ensures { IfOk result (λ v. set_view v ≡
        group_untouched home (set_view set) (group_view group.now)) }
{
    untouched_by_parts(home, &group.parts, set)
}

/// The variables of a set that are assigned nowhere in the catches of a `try`.
#[cycle(statements)]
#[tactic(auto, using(crate::proofs::Parts::untouched_step))]
pub fn untouched_by_catches(
    home: Option<ClassId>,
    catches: &[Catch],
    set: Variables,
) -> Result<Variables, Memory>
    ensures { IfOk result (λ v. set_view v ≡
        catches_untouched home (set_view set) (core_catches (map catch_view catches.now))) }
{
    let mut rest = set;
    for catch in catches {
        rest = untouched_by_catch(home, catch, rest)?;
    }
    Ok(rest)
}

#[cycle(statements)]
#[tactic(auto, using(je_core::proofs::Views::parts_seen))]
fn untouched_by_catch(
    home: Option<ClassId>,
    catch: &Catch,
    set: Variables,
) -> Result<Variables, Memory>
    ensures { IfOk result (λ v. set_view v ≡
        catch_untouched home (set_view set) (catch_view catch.now)) }
{
    untouched_by(home, &catch.body, set)
}

fn without_value(
    home: Option<ClassId>,
    value: &Option<Rc<Expr>>,
    set: Variables,
) -> Result<Variables, Memory>
    ensures { IfOk result (λ v. set_view v ≡
        value_untouched home (set_view set) (view_if value.now)) }
{
    match value {
        None => Ok(set),
        Some(value) => without_assigned(home, value, set),
    }
}
