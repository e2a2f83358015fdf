// Whether a statement fits where it stands.

ghost use Rattle.std.specs.Prelude.{◌≡◌, ◌&&◌, IfOk, map, slice_get};
ghost use Rattle.std.specs.List.{list_all};
ghost use Rattle.je_core.specs.Core.{core_stmts, maybe_stmt, core_groups, core_catches, ty_of};
ghost use Rattle.je_core.specs.View.{view, views, view_if, stmt_view, stmt_form_view, stmt_views, stmt_view_if, group_view, catch_view, label_view, program_view};
ghost use Rattle.je_classes.specs.Subtypes.{class_type as the_class_type, is_subtype as the_is_subtype};
ghost use Rattle.je_fitting.specs.Types.{agrees as the_agrees, is_bool as the_is_bool, throwable as the_throwable};
ghost use Rattle.je_fitting.specs.Statements.{is_selector as the_is_selector, labelled_by};
ghost use Rattle.je_fitting.specs.way.Deciding.{is_fit};
ghost use Rattle.je_fitting.specs.way.DecidingStatements.{if_some, gives_value as the_gives_value, labels_fit as the_labels_fit, is_statement_fit, is_form_fit, are_statements_fit, is_maybe_fit, are_groups_fit, are_catches_fit};
ghost use Rattle.fit_statements.specs.way.Parts.{is_group_fit, is_catch_fit};

use crate::targets::{Targets, can_jump, is_loop, is_selector, locals_there, with_label};
use fit_nodes::expression_fits;
use fit_parts::{
    Body, agrees, class_type, is_bool, is_void, local_type, throwable, type_of, uses_there,
};
use je_classes::is_subtype;
use je_core::{Catch, ClassId, Expr, Group, Label, Memory, NameId, Program, Stmt, StmtForm, Ty};
use std::alloc::Global;
use std::rc::Rc;

// Whether each of some expressions fits.
fn steps_fit(
    alloc: Global,
    program: &Program,
    body: &Body<'_>,
    steps: &[Rc<Expr>],
) -> Result<bool, Memory>
    ensures { IfOk result (λ fit. fit ≡
        list_all (is_fit (program_view program.now) body.now) (views steps.now)) }
{
    for step in steps {
        if !expression_fits(alloc, program, body, step)? {
            return Ok(false);
        }
    }
    Ok(true)
}

// Whether a condition fits and is boolean.
fn condition_fits(
    alloc: Global,
    program: &Program,
    body: &Body<'_>,
    condition: &Expr,
) -> Result<bool, Memory>
    ensures { IfOk result (λ fits. fits ≡ (is_fit (program_view program.now) body.now
        (view condition.now) && the_is_bool (ty_of (view condition.now)))) }
{
    if !expression_fits(alloc, program, body, condition)? {
        return Ok(false);
    }
    Ok(is_bool(type_of(condition)))
}

// Whether a switch's selector fits, and is of a type by which a switch selects.
fn selector_fits(
    alloc: Global,
    program: &Program,
    body: &Body<'_>,
    selector: &Expr,
) -> Result<bool, Memory>
    ensures { IfOk result (λ fits. fits ≡ (is_fit (program_view program.now) body.now
        (view selector.now) && the_is_selector (ty_of (view selector.now)))) }
{
    if !expression_fits(alloc, program, body, selector)? {
        return Ok(false);
    }
    Ok(is_selector(type_of(selector)))
}

// Whether a value fits and goes to a place of a type.
fn value_fits(
    alloc: Global,
    program: &Program,
    body: &Body<'_>,
    value: &Expr,
    ty: Ty,
) -> Result<bool, Memory>
    ensures { IfOk result (λ fits. fits ≡ (is_fit (program_view program.now) body.now
        (view value.now) && the_agrees (program_view program.now) (ty_of (view value.now)) ty)) }
{
    if !expression_fits(alloc, program, body, value)? {
        return Ok(false);
    }
    agrees(alloc, program, type_of(value), ty)
}

// Whether a return may stand in a body, with this value or with none.
fn return_fits(
    alloc: Global,
    program: &Program,
    body: &Body<'_>,
    value: &Option<Rc<Expr>>,
) -> Result<bool, Memory>
    ensures { IfOk result (λ fits. fits ≡ the_gives_value (program_view program.now) body.now
        body.now.returns (view_if value.now)) }
{
    let Some(ty) = body.returns else {
        return Ok(false);
    };
    match value {
        None => Ok(is_void(ty)),
        Some(value) => value_fits(alloc, program, body, value, ty),
    }
}

// Whether a thrown value fits and is a Throwable.
fn throw_fits(
    alloc: Global,
    program: &Program,
    body: &Body<'_>,
    value: &Expr,
) -> Result<bool, Memory>
    ensures { IfOk result (λ fits. fits ≡ (is_fit (program_view program.now) body.now
        (view value.now) && the_is_subtype (program_view program.now)
        (ty_of (view value.now)) the_throwable)) }
{
    if !expression_fits(alloc, program, body, value)? {
        return Ok(false);
    }
    is_subtype(alloc, program, type_of(value), throwable())
}

// Whether the library fields that labels of a switch name are there.
fn labels_fit(program: &Program, labels: &[Label]) -> bool
    ensures { result ≡ the_labels_fit (program_view program.now) (map label_view labels.now) }
{
    for label in labels {
        if !uses_there(program, &label.uses) {
            return false;
        }
    }
    true
}

// Whether a catch's local takes its class, and that is a Throwable.
fn takes_class(
    alloc: Global,
    program: &Program,
    body: &Body<'_>,
    local: u32,
    class: ClassId,
) -> Result<bool, Memory>
    ensures { IfOk result (λ takes. takes ≡
        (if_some (the_agrees (program_view program.now) (the_class_type class))
        (slice_get body.now.locals local) &&
        the_is_subtype (program_view program.now) (the_class_type class) the_throwable)) }
{
    let Some(ty) = local_type(body, local) else {
        return Ok(false);
    };
    if !agrees(alloc, program, class_type(class), ty)? {
        return Ok(false);
    }
    is_subtype(alloc, program, class_type(class), throwable())
}

/// Whether a statement fits where it stands.
#[cycle(statement)]
#[tactic(auto, using(je_core::proofs::Views::stmt_view_is))]
pub fn statement_fits(
    alloc: Global,
    program: &Program,
    body: &Body<'_>,
    targets: &Targets<'_>,
    statement: &Stmt,
) -> Result<bool, Memory>
    ensures { IfOk result (λ fits. fits ≡ is_statement_fit (program_view program.now) body.now
        targets.now (stmt_view statement.now)) }
{
    form_fits(alloc, program, body, targets, &statement.form)
}

#[cycle(statement)]
fn form_fits(
    alloc: Global,
    program: &Program,
    body: &Body<'_>,
    targets: &Targets<'_>,
    form: &StmtForm,
) -> Result<bool, Memory>
    ensures { IfOk result (λ fits. fits ≡ is_form_fit (program_view program.now) body.now
        targets.now (stmt_form_view form.now)) }
{
    match form {
        StmtForm::Empty => Ok(true),
        StmtForm::Block { locals, parts } => {
            if !locals_there(body, locals) {
                return Ok(false);
            }
            statements_fit(alloc, program, body, targets, parts)
        }
        StmtForm::Do { expr } => expression_fits(alloc, program, body, expr),
        StmtForm::If { condition, yes, no } => {
            if !condition_fits(alloc, program, body, condition)? {
                return Ok(false);
            }
            if !statement_fits(alloc, program, body, targets, yes)? {
                return Ok(false);
            }
            part_fits(alloc, program, body, targets, no)
        }
        StmtForm::Loop {
            condition,
            steps,
            body: inner,
        } => {
            if !condition_fits(alloc, program, body, condition)? {
                return Ok(false);
            }
            if !steps_fit(alloc, program, body, steps)? {
                return Ok(false);
            }
            statement_fits(alloc, program, body, &targets.in_loop(), inner)
        }
        StmtForm::DoLoop {
            body: inner,
            condition,
        } => {
            if !statement_fits(alloc, program, body, &targets.in_loop(), inner)? {
                return Ok(false);
            }
            condition_fits(alloc, program, body, condition)
        }
        StmtForm::Switch {
            locals,
            selector,
            groups,
        } => {
            if !locals_there(body, locals) || !selector_fits(alloc, program, body, selector)? {
                return Ok(false);
            }
            groups_fit(alloc, program, body, &targets.in_switch(), groups)
        }
        StmtForm::Labelled { name, body: inner } => {
            labelled_fits(alloc, program, body, targets, *name, inner)
        }
        StmtForm::Jump { again, label } => Ok(can_jump(targets, *again, *label)),
        StmtForm::Return { value } => return_fits(alloc, program, body, value),
        StmtForm::Throw { value } => throw_fits(alloc, program, body, value),
        StmtForm::Try {
            body: inner,
            catches,
            last,
        } => {
            if !statement_fits(alloc, program, body, targets, inner)? {
                return Ok(false);
            }
            if !catches_fit(alloc, program, body, targets, catches)? {
                return Ok(false);
            }
            part_fits(alloc, program, body, targets, last)
        }
    }
}

// Whether a statement fits under a name.
#[cycle(statement)]
fn labelled_fits(
    alloc: Global,
    program: &Program,
    body: &Body<'_>,
    targets: &Targets<'_>,
    name: NameId,
    inner: &Stmt,
) -> Result<bool, Memory>
    ensures { IfOk result (λ fits. fits ≡ is_statement_fit (program_view program.now) body.now
        (labelled_by name (stmt_view inner.now) targets.now) (stmt_view inner.now)) }
{
    let labels = with_label(alloc, targets.labels, name, is_loop(inner))?;
    let inside = Targets {
        labels: &labels,
        has_break: targets.has_break,
        has_continue: targets.has_continue,
    };
    statement_fits(alloc, program, body, &inside, inner)
}

/// Whether each of some statements fits where it stands.
#[cycle(statement)]
pub fn statements_fit(
    alloc: Global,
    program: &Program,
    body: &Body<'_>,
    targets: &Targets<'_>,
    list: &[Rc<Stmt>],
) -> Result<bool, Memory>
    ensures { IfOk result (λ fit. fit ≡ are_statements_fit (program_view program.now) body.now
        targets.now (core_stmts (stmt_views list.now))) }
{
    for statement in list {
        if !statement_fits(alloc, program, body, targets, statement)? {
            return Ok(false);
        }
    }
    Ok(true)
}

// Whether a part fits, if it is there.
#[cycle(statement)]
fn part_fits(
    alloc: Global,
    program: &Program,
    body: &Body<'_>,
    targets: &Targets<'_>,
    part: &Option<Rc<Stmt>>,
) -> Result<bool, Memory>
    ensures { IfOk result (λ fits. fits ≡ is_maybe_fit (program_view program.now) body.now
        targets.now (maybe_stmt (stmt_view_if part.now))) }
{
    match part {
        None => Ok(true),
        Some(part) => statement_fits(alloc, program, body, targets, part),
    }
}

#[cycle(statement)]
#[tactic(auto, using(crate::proofs::Parts::groups_step))]
fn groups_fit(
    alloc: Global,
    program: &Program,
    body: &Body<'_>,
    targets: &Targets<'_>,
    groups: &[Group],
) -> Result<bool, Memory>
    ensures { IfOk result (λ fit. fit ≡ are_groups_fit (program_view program.now) body.now
        targets.now (core_groups (map group_view groups.now))) }
{
    for group in groups {
        if !group_fits(alloc, program, body, targets, group)? {
            return Ok(false);
        }
    }
    Ok(true)
}

#[cycle(statement)]
#[tactic(auto, using(je_core::proofs::Views::parts_seen))]
fn group_fits(
    alloc: Global,
    program: &Program,
    body: &Body<'_>,
    targets: &Targets<'_>,
    group: &Group,
) -> Result<bool, Memory>
    ensures { IfOk result (λ fits. fits ≡ is_group_fit (program_view program.now) body.now
        targets.now (group_view group.now)) }
{
    if !labels_fit(program, &group.labels) {
        return Ok(false);
    }
    statements_fit(alloc, program, body, targets, &group.parts)
}

#[cycle(statement)]
#[tactic(auto, using(crate::proofs::Parts::catches_step))]
fn catches_fit(
    alloc: Global,
    program: &Program,
    body: &Body<'_>,
    targets: &Targets<'_>,
    catches: &[Catch],
) -> Result<bool, Memory>
    ensures { IfOk result (λ fit. fit ≡ are_catches_fit (program_view program.now) body.now
        targets.now (core_catches (map catch_view catches.now))) }
{
    for catch in catches {
        if !catch_fits(alloc, program, body, targets, catch)? {
            return Ok(false);
        }
    }
    Ok(true)
}

#[cycle(statement)]
#[tactic(auto, using(je_core::proofs::Views::parts_seen))]
fn catch_fits(
    alloc: Global,
    program: &Program,
    body: &Body<'_>,
    targets: &Targets<'_>,
    catch: &Catch,
) -> Result<bool, Memory>
    ensures { IfOk result (λ fits. fits ≡ is_catch_fit (program_view program.now) body.now
        targets.now (catch_view catch.now)) }
{
    if !takes_class(alloc, program, body, catch.local, catch.class)? {
        return Ok(false);
    }
    statement_fits(alloc, program, body, targets, &catch.body)
}
