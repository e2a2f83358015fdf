// Definite assignment and unassignment in expressions (JLS 16.1).

ghost use Rattle.std.specs.Prelude.{◌≡◌, Some, IfOk, OnOk};
ghost use Rattle.je_core.specs.Core.{cores, maybe_core};
ghost use Rattle.assigned_expressions.specs.Places.{at_of, variable_of as the_variable_of};
ghost use Rattle.je_core.specs.View.{view, form_view, views, view_if};
ghost use Rattle.flow_base.specs.way.Kept.{first_of};
ghost use Rattle.variable_sets.specs.Sets.{both};
ghost use Rattle.variable_sets.specs.SetView.{set_view};
ghost use Rattle.assigned_expressions.specs.Expressions.{plain, split, whole as the_whole, when_true, when_false, after_constant, after_unary, after_choice, assigning, assign_faults, after, form_after, all_past, maybe_past, place_past, place_form_past, faults, form_faults, all_faults, maybe_faults, place_faults, place_form_faults};
ghost use Rattle.assigned_expressions.specs.Reads.{read_faults};
ghost use Rattle.assignment_rules.specs.View.{follow_view};
ghost use Rattle.assigned_expressions.specs.View.{after_view};

use crate::places::{variable_in, variable_of};
use crate::reads::{test_read, test_standing};
use assignment_rules::{Follow, Rule, Site, marked};
use flow_base::{FaultKind, FirstFault, constant_in_form};
use je_core::{Expr, Form, Memory, Span, UnOp};
use std::alloc::Global;
use std::rc::Rc;
use variable_sets::Variables;

/// The variables that are assigned after an expression; after some boolean ones they depend on its value.
#[derive(Drop)]
pub enum After {
    /// Whatever the value.
    Plain(Variables),
    /// Those when the value is true, and those when it is false.
    Split(Variables, Variables),
}

impl After {
    /// Those whatever the value.
    #[tactic(auto, unfolding(crate::specs::Expressions::whole))]
    pub fn whole(self) -> Result<Variables, Memory>
        ensures { IfOk result (λ v. set_view v ≡ the_whole (after_view self)) }
    {
        match self {
            After::Plain(a) => Ok(a),
            After::Split(a, b) => a.meet(&b),
        }
    }

    /// Those when the value is true, and those when it is false.
    #[tactic(auto, unfolding(crate::specs::Expressions::when_true, crate::specs::Expressions::when_false))]
    pub fn split(self) -> Result<(Variables, Variables), Memory>
        ensures on_true { IfOk result (λ v. set_view v.0 ≡ when_true (after_view self)) }
        ensures on_false { IfOk result (λ v. set_view v.1 ≡ when_false (after_view self)) }
    {
        match self {
            After::Plain(a) => {
                let b = a.copy()?;
                Ok((a, b))
            }
            After::Split(a, b) => Ok((a, b)),
        }
    }
}

/// What is assigned, or unassigned, after an expression. Its faults are added to those found.
#[cycle(walk)]
#[tactic(auto, using(je_core::proofs::Views::view_is))]
pub fn walk_expression(
    alloc: Global,
    follow: &Follow,
    e: &Expr,
    before: Variables,
    found: &mut FirstFault,
) -> Result<After, Memory>
    ensures after { IfOk result (λ a. after_view a ≡
        after (follow_view follow.now) (set_view before) (view e.now)) }
    ensures faults { OnOk result (found.new ≡
        first_of found.old (faults (follow_view follow.now) (set_view before) (view e.now))) }
{
    walk_form(alloc, follow, &e.form, e.at, before, found)
}

#[cycle(walk)]
fn walk_form(
    alloc: Global,
    follow: &Follow,
    form: &Form,
    at: Span,
    before: Variables,
    found: &mut FirstFault,
) -> Result<After, Memory>
    ensures after { IfOk result (λ a. after_view a ≡
        form_after (follow_view follow.now) (set_view before) (form_view form.now)) }
    ensures faults { OnOk result (found.new ≡ first_of found.old
        (form_faults (follow_view follow.now) at (set_view before) (form_view form.now))) }
{
    match form {
        Form::Const { .. } => constant(alloc, constant_in_form(form), before),
        Form::Text { .. } | Form::This => Ok(After::Plain(before)),
        Form::Local { .. } => Ok(read(
            follow.rule,
            variable_in(follow.home, form),
            at,
            before,
            found,
        )),
        Form::Field { object, .. } => {
            let past = walk_expression(alloc, follow, object, before, found)?.whole()?;
            Ok(read(follow.rule, variable_in(follow.home, form), at, past, found))
        }
        Form::Static { object, .. } => {
            let past = walk_maybe(alloc, follow, object, before, found)?;
            Ok(read(follow.rule, variable_in(follow.home, form), at, past, found))
        }
        Form::Assign { place, value } => {
            let past = walk_place(alloc, follow, place, before, found)?;
            let past = walk_expression(alloc, follow, value, past, found)?.whole()?;
            assign(follow, place, past, found)
        }
        Form::Update { place, operand, .. } => {
            let past = walk_expression(alloc, follow, place, before, found)?.whole()?;
            let past = walk_maybe(alloc, follow, operand, past, found)?;
            assign(follow, place, past, found)
        }
        Form::Unary { op, operand } => {
            unary(*op, walk_expression(alloc, follow, operand, before, found)?)
        }
        Form::Index {
            array: left,
            index: right,
        }
        | Form::Binary { left, right, .. }
        | Form::Concat { left, right } => {
            let past = walk_expression(alloc, follow, left, before, found)?.whole()?;
            let past = walk_expression(alloc, follow, right, past, found)?.whole()?;
            Ok(After::Plain(past))
        }
        Form::And { left, right } => {
            let (on_true, on_false) = walk_expression(alloc, follow, left, before, found)?.split()?;
            and(
                on_false,
                walk_expression(alloc, follow, right, on_true, found)?,
            )
        }
        Form::Or { left, right } => {
            let (on_true, on_false) = walk_expression(alloc, follow, left, before, found)?.split()?;
            or(
                on_true,
                walk_expression(alloc, follow, right, on_false, found)?,
            )
        }
        Form::Choose { condition, yes, no } => {
            let (on_true, on_false) = walk_expression(
                alloc, follow, condition, before, found,
            )?.split()?;
            let chosen = walk_expression(alloc, follow, yes, on_true, found)?;
            let other = walk_expression(alloc, follow, no, on_false, found)?;
            choose(chosen, other)
        }
        Form::Length { array: operand }
        | Form::Convert { operand }
        | Form::Cast { operand }
        | Form::InstanceOf { operand, .. } => {
            let past = walk_expression(alloc, follow, operand, before, found)?.whole()?;
            Ok(After::Plain(past))
        }
        Form::CallVirtual { receiver, args, .. } => {
            let past = walk_expression(alloc, follow, receiver, before, found)?.whole()?;
            Ok(After::Plain(walk_all(alloc, follow, args, past, found)?))
        }
        Form::CallExact { receiver, args, .. } => {
            let past = walk_maybe(alloc, follow, receiver, before, found)?;
            Ok(After::Plain(walk_all(alloc, follow, args, past, found)?))
        }
        Form::New { class, args, .. } => {
            let past = walk_all(alloc, follow, args, before, found)?;
            test_standing(follow, Site::Creation { class: *class }, &past, found);
            Ok(After::Plain(past))
        }
        Form::NewArray { lengths: parts } | Form::ArrayOf { values: parts } => {
            Ok(After::Plain(walk_all(alloc, follow, parts, before, found)?))
        }
    }
}

/// What is assigned past expressions, one after another.
#[cycle(walk)]
pub fn walk_all(
    alloc: Global,
    follow: &Follow,
    parts: &[Rc<Expr>],
    before: Variables,
    found: &mut FirstFault,
) -> Result<Variables, Memory>
    ensures after { IfOk result (λ v. set_view v ≡
        all_past (follow_view follow.now) (set_view before) (cores (views parts.now))) }
    ensures faults { OnOk result (found.new ≡ first_of found.old
        (all_faults (follow_view follow.now) (set_view before) (cores (views parts.now)))) }
{
    let mut past = before;
    for part in parts {
        past = walk_expression(alloc, follow, part, past, found)?.whole()?;
    }
    Ok(past)
}

// What is assigned past a part, if it is there.
#[cycle(walk)]
fn walk_maybe(
    alloc: Global,
    follow: &Follow,
    part: &Option<Rc<Expr>>,
    before: Variables,
    found: &mut FirstFault,
) -> Result<Variables, Memory>
    ensures after { IfOk result (λ v. set_view v ≡
        maybe_past (follow_view follow.now) (set_view before) (maybe_core (view_if part.now))) }
    ensures faults { OnOk result (found.new ≡ first_of found.old
        (maybe_faults (follow_view follow.now) (set_view before) (maybe_core (view_if part.now)))) }
{
    match part {
        None => Ok(before),
        Some(part) => walk_expression(alloc, follow, part, before, found)?.whole(),
    }
}

// What is assigned past the parts of a place that is assigned.
#[cycle(walk)]
#[tactic(auto, using(je_core::proofs::Views::view_is))]
fn walk_place(
    alloc: Global,
    follow: &Follow,
    place: &Expr,
    before: Variables,
    found: &mut FirstFault,
) -> Result<Variables, Memory>
    ensures after { IfOk result (λ v. set_view v ≡
        place_past (follow_view follow.now) (set_view before) (view place.now)) }
    ensures faults { OnOk result (found.new ≡ first_of found.old
        (place_faults (follow_view follow.now) (set_view before) (view place.now))) }
{
    walk_place_form(alloc, follow, &place.form, before, found)
}

#[cycle(walk)]
fn walk_place_form(
    alloc: Global,
    follow: &Follow,
    form: &Form,
    before: Variables,
    found: &mut FirstFault,
) -> Result<Variables, Memory>
    ensures after { IfOk result (λ v. set_view v ≡
        place_form_past (follow_view follow.now) (set_view before) (form_view form.now)) }
    ensures faults { OnOk result (found.new ≡ first_of found.old
        (place_form_faults (follow_view follow.now) (set_view before) (form_view form.now))) }
{
    match form {
        Form::Field { object, .. } => walk_expression(
            alloc, follow, object, before, found,
        )?.whole(),
        Form::Static { object, .. } => walk_maybe(alloc, follow, object, before, found),
        Form::Index { array, index } => {
            let past = walk_expression(alloc, follow, array, before, found)?.whole()?;
            walk_expression(alloc, follow, index, past, found)?.whole()
        }
        _ => Ok(before),
    }
}

fn constant(alloc: Global, value: Option<bool>, before: Variables) -> Result<After, Memory>
    ensures { IfOk result (λ a. after_view a ≡ after_constant value (set_view before)) }
{
    match value {
        None => Ok(After::Plain(before)),
        Some(true) => Ok(After::Split(before, Variables::everything(alloc))),
        Some(false) => Ok(After::Split(Variables::everything(alloc), before)),
    }
}

// Reads a variable, if one is named.
fn read(
    rule: Rule,
    variable: Option<usize>,
    at: Span,
    before: Variables,
    found: &mut FirstFault,
) -> After
    ensures after { after_view result ≡ plain (set_view before) }
    ensures faults { found.new ≡
        first_of found.old (read_faults rule at (set_view before) variable) }
{
    if let Some(variable) = variable {
        test_read(rule, variable, at, &before, found);
    }
    After::Plain(before)
}

// Assigns the variable that a place names, if it names one.
#[tactic(auto, using(je_core::proofs::Views::view_is))]
fn assign(
    follow: &Follow,
    place: &Expr,
    before: Variables,
    found: &mut FirstFault,
) -> Result<After, Memory>
    ensures after { IfOk result (λ a. after_view a ≡ plain (assigning (follow_view follow.now).rule
        (the_variable_of (follow_view follow.now).home (view place.now)) (set_view before))) }
    ensures faults { OnOk result (found.new ≡ first_of found.old
        (assign_faults (follow_view follow.now).rule (follow_view follow.now).finals
        (at_of (view place.now)) (set_view before)
        (the_variable_of (follow_view follow.now).home (view place.now)))) }
{
    let variable = variable_of(follow.home, place);
    assign_variable(follow, variable, token(place), before, found)
}

// The token that a rule points to.
#[tactic(auto, using(je_core::proofs::Views::view_is))]
fn token(e: &Expr) -> Span
    ensures { result ≡ at_of (view e.now) }
{
    e.at
}

fn assign_variable(
    follow: &Follow,
    variable: Option<usize>,
    at: Span,
    before: Variables,
    found: &mut FirstFault,
) -> Result<After, Memory>
    ensures after { IfOk result (λ a. after_view a ≡
        plain (assigning (follow_view follow.now).rule variable (set_view before))) }
    ensures faults { OnOk result (found.new ≡ first_of found.old
        (assign_faults (follow_view follow.now).rule (follow_view follow.now).finals at
        (set_view before) variable)) }
{
    match variable {
        None => Ok(After::Plain(before)),
        Some(variable) => {
            test_assignment(follow, variable, at, &before, found);
            Ok(After::Plain(marked(follow.rule, variable, before)?))
        }
    }
}

fn test_assignment(
    follow: &Follow,
    variable: usize,
    at: Span,
    before: &Variables,
    found: &mut FirstFault,
)
    ensures { found.new ≡ first_of found.old
        (assign_faults (follow_view follow.now).rule (follow_view follow.now).finals at
        (set_view before.now) (Some variable)) }
{
    match follow.rule {
        Rule::Assigned => {}
        Rule::Unassigned => {
            let is_twice = follow.finals.has(variable) && !before.has(variable);
            found.add_where(is_twice, FaultKind::AssignedTwice, at);
        }
    }
}

fn unary(op: UnOp, operand: After) -> Result<After, Memory>
    ensures { IfOk result (λ a. after_view a ≡ after_unary op (after_view operand)) }
{
    match op {
        UnOp::Not => {
            let (on_true, on_false) = operand.split()?;
            Ok(After::Split(on_false, on_true))
        }
        UnOp::Minus | UnOp::Tilde => Ok(After::Plain(operand.whole()?)),
    }
}

// After `&&`, by what is assigned when its left side is false.
fn and(left_false: Variables, right: After) -> Result<After, Memory>
    ensures { IfOk result (λ a. after_view a ≡ split (when_true (after_view right))
        (both (set_view left_false) (when_false (after_view right)))) }
{
    let (on_true, on_false) = right.split()?;
    Ok(After::Split(on_true, left_false.meet(&on_false)?))
}

// After `||`, by what is assigned when its left side is true.
fn or(left_true: Variables, right: After) -> Result<After, Memory>
    ensures { IfOk result (λ a. after_view a ≡ split
        (both (set_view left_true) (when_true (after_view right))) (when_false (after_view right))) }
{
    let (on_true, on_false) = right.split()?;
    Ok(After::Split(left_true.meet(&on_true)?, on_false))
}

// After `?:`, whichever was chosen.
fn choose(chosen: After, other: After) -> Result<After, Memory>
    ensures { IfOk result (λ a. after_view a ≡
        after_choice (after_view chosen) (after_view other)) }
{
    let (chosen_true, chosen_false) = chosen.split()?;
    let (other_true, other_false) = other.split()?;
    Ok(After::Split(
        chosen_true.meet(&other_true)?,
        chosen_false.meet(&other_false)?,
    ))
}
