// Two sets at once through expressions, and through statements that have no others in them.

ghost use Rattle.std.specs.Prelude.{◌≡◌, IfOk, Some, None, map};
ghost use Rattle.je_core.specs.Core.{cores, core_catches};
ghost use Rattle.je_core.specs.View.{view, views, view_if, stmt_view, catch_view};
ghost use Rattle.flow_base.specs.declared.jumps.Way.TheVariants.{Returns};
ghost use Rattle.variable_sets.specs.Sets.{everything};
ghost use Rattle.variable_sets.specs.SetView.{set_view};
ghost use Rattle.variable_sets.specs.ExitSets.{no_exits, exit_by, met};
ghost use Rattle.variable_sets.specs.ExitsView.{exits_view};
ghost use Rattle.assignment_rules.specs.Rules.{declared as the_declared, handled as the_handled};
ghost use Rattle.assigned_statements.specs.Untouched.{statement_untouched, catches_untouched};
ghost use Rattle.assigned_expressions.specs.Expressions.{whole, when_true, when_false, after, all_past};
ghost use Rattle.assignment_rules.specs.Ends.{ends, going_on as the_going_on, jumping as the_jumping, one_of as the_one_of, jump_ends};
ghost use Rattle.assigned_statements.specs.Statements.{value_past};
ghost use Rattle.assignment_rules.specs.View.{ends_view, follow_view};
ghost use Rattle.assigned_expressions.specs.View.{after_view};

use crate::untouched::{untouched_by, untouched_by_catches};
use assigned_expressions::{After, walk_all, walk_expression};
use assignment_rules::{Ends, Follow, declared, going_on, handled, jump, jumping, one_of};
use flow_base::{FirstFault, Way};
use je_core::{Catch, Expr, Memory, NameId, Stmt};
use std::alloc::Global;
use std::rc::Rc;
use variable_sets::{Exits, Variables};

/// How a statement ends from each of two sets before it.
#[derive(Drop)]
pub struct Pair {
    pub first: Ends,
    pub second: Ends,
}

/// What ends so, beside the exits of what stands before it.
pub fn behind(exits: Exits, next: Ends) -> Result<Ends, Memory>
    ensures { IfOk result (λ e. ends_view e ≡
        ends (ends_view next).after (met (exits_view exits) (ends_view next).exits)) }
{
    Ok(Ends {
        after: next.after,
        exits: exits.met(next.exits)?,
    })
}

/// What is so when a condition is true and when it is false, by each of two sets before it.
#[derive(Drop)]
pub struct On {
    pub first_true: Variables,
    pub first_false: Variables,
    pub second_true: Variables,
    pub second_false: Variables,
}

/// The sets when a condition is true and when it is false.
pub fn pair_condition(
    alloc: Global,
    follow: &Follow,
    condition: &Expr,
    first: Variables,
    second: Variables,
) -> Result<On, Memory>
    ensures first_true { IfOk result (λ o. set_view o.first_true ≡
        when_true (after (follow_view follow.now) (set_view first) (view condition.now))) }
    ensures first_false { IfOk result (λ o. set_view o.first_false ≡
        when_false (after (follow_view follow.now) (set_view first) (view condition.now))) }
    ensures second_true { IfOk result (λ o. set_view o.second_true ≡
        when_true (after (follow_view follow.now) (set_view second) (view condition.now))) }
    ensures second_false { IfOk result (λ o. set_view o.second_false ≡
        when_false (after (follow_view follow.now) (set_view second) (view condition.now))) }
{
    let (first_true, first_false) = past(alloc, follow, condition, first)?.split()?;
    let (second_true, second_false) = past(alloc, follow, condition, second)?.split()?;
    Ok(On {
        first_true,
        first_false,
        second_true,
        second_false,
    })
}

/// The sets before the catches of a `try`, and before its `finally`, by each of two sets before it.
#[derive(Drop)]
pub struct Starts {
    pub first: Variables,
    pub second: Variables,
    pub first_last: Variables,
    pub second_last: Variables,
}

/// The sets before the catches of a `try`, and before its `finally`.
pub fn pair_starts(
    alloc: Global,
    follow: &Follow,
    body: &Stmt,
    catches: &[Catch],
    first: &Variables,
    second: &Variables,
) -> Result<Starts, Memory>
    ensures first { IfOk result (λ s. set_view s.first ≡ the_handled (follow_view follow.now).rule
        (set_view first.now) (statement_untouched (follow_view follow.now).home everything
        (stmt_view body.now))) }
    ensures second { IfOk result (λ s. set_view s.second ≡ the_handled (follow_view follow.now).rule
        (set_view second.now) (statement_untouched (follow_view follow.now).home everything
        (stmt_view body.now))) }
    ensures first_last { IfOk result (λ s. set_view s.first_last ≡ the_handled
        (follow_view follow.now).rule (set_view s.first)
        (catches_untouched (follow_view follow.now).home everything
        (core_catches (map catch_view catches.now)))) }
    ensures second_last { IfOk result (λ s. set_view s.second_last ≡ the_handled
        (follow_view follow.now).rule (set_view s.second)
        (catches_untouched (follow_view follow.now).home everything
        (core_catches (map catch_view catches.now)))) }
{
    let by_body = untouched_by(follow.home, body, Variables::everything(alloc))?;
    let by_catches = untouched_by_catches(follow.home, catches, Variables::everything(alloc))?;
    let first = handled(follow.rule, first.copy()?, &by_body)?;
    let second = handled(follow.rule, second.copy()?, &by_body)?;
    let first_last = handled(follow.rule, first.copy()?, &by_catches)?;
    let second_last = handled(follow.rule, second.copy()?, &by_catches)?;
    Ok(Starts {
        first,
        second,
        first_last,
        second_last,
    })
}

/// An expression statement.
pub fn pair_do(
    alloc: Global,
    follow: &Follow,
    e: &Expr,
    first: Variables,
    second: Variables,
) -> Result<Pair, Memory>
    ensures first { IfOk result (λ x. ends_view x.first ≡
        the_going_on (whole (after (follow_view follow.now) (set_view first) (view e.now)))) }
    ensures second { IfOk result (λ x. ends_view x.second ≡
        the_going_on (whole (after (follow_view follow.now) (set_view second) (view e.now)))) }
{
    let first = past(alloc, follow, e, first)?.whole()?;
    let second = past(alloc, follow, e, second)?.whole()?;
    Ok(pair_going_on(alloc, first, second))
}

/// A `break` or a `continue`.
pub fn pair_jump(
    alloc: Global,
    first: Variables,
    second: Variables,
    again: bool,
    label: Option<NameId>,
) -> Result<Pair, Memory>
    ensures first { IfOk result (λ e. ends_view e.first ≡ jump_ends (set_view first) again label) }
    ensures second { IfOk result (λ e. ends_view e.second ≡
        jump_ends (set_view second) again label) }
{
    Ok(Pair {
        first: jump(alloc, first, again, label)?,
        second: jump(alloc, second, again, label)?,
    })
}

/// A `return`, with a value or with none.
pub fn pair_return(
    alloc: Global,
    follow: &Follow,
    value: &Option<Rc<Expr>>,
    first: Variables,
    second: Variables,
) -> Result<Pair, Memory>
    ensures first { IfOk result (λ e. ends_view e.first ≡ the_jumping (exit_by Returns
        (value_past (follow_view follow.now) (set_view first) (view_if value.now)))) }
    ensures second { IfOk result (λ e. ends_view e.second ≡ the_jumping (exit_by Returns
        (value_past (follow_view follow.now) (set_view second) (view_if value.now)))) }
{
    Ok(Pair {
        first: past_return(alloc, follow, value, first)?,
        second: past_return(alloc, follow, value, second)?,
    })
}

/// What no exit leaves, and no end.
pub fn pair_jumping(alloc: Global) -> Pair
    ensures first { ends_view result.first ≡ the_jumping no_exits }
    ensures second { ends_view result.second ≡ the_jumping no_exits }
{
    Pair {
        first: jumping(alloc, Exits::none(alloc)),
        second: jumping(alloc, Exits::none(alloc)),
    }
}

/// What no jump leaves.
pub fn pair_going_on(alloc: Global, first: Variables, second: Variables) -> Pair
    ensures first { ends_view result.first ≡ the_going_on (set_view first) }
    ensures second { ends_view result.second ≡ the_going_on (set_view second) }
{
    Pair {
        first: going_on(alloc, first),
        second: going_on(alloc, second),
    }
}

/// What ends in one of two ways.
pub fn pair_one_of(one: Pair, other: Pair) -> Result<Pair, Memory>
    ensures first { IfOk result (λ e. ends_view e.first ≡
        the_one_of (ends_view one.first) (ends_view other.first)) }
    ensures second { IfOk result (λ e. ends_view e.second ≡
        the_one_of (ends_view one.second) (ends_view other.second)) }
{
    Ok(Pair {
        first: one_of(one.first, other.first)?,
        second: one_of(one.second, other.second)?,
    })
}

/// What is so after an expression, whatever its faults.
pub fn past(alloc: Global, follow: &Follow, e: &Expr, before: Variables) -> Result<After, Memory>
    ensures { IfOk result (λ a. after_view a ≡ after (follow_view follow.now) (set_view before)
        (view e.now)) }
{
    let mut unused = FirstFault::none();
    walk_expression(alloc, follow, e, before, &mut unused)
}

/// What is so after expressions, one after another.
pub fn past_steps(
    alloc: Global,
    follow: &Follow,
    steps: &[Rc<Expr>],
    before: Variables,
) -> Result<Variables, Memory>
    ensures { IfOk result (λ v. set_view v ≡
        all_past (follow_view follow.now) (set_view before) (cores (views steps.now))) }
{
    let mut unused = FirstFault::none();
    walk_all(alloc, follow, steps, before, &mut unused)
}

/// What is so after the selector of a `switch`, where the locals of its groups are declared.
pub fn past_selector(
    alloc: Global,
    follow: &Follow,
    selector: &Expr,
    locals: &[u32],
    before: Variables,
) -> Result<Variables, Memory>
    ensures { IfOk result (λ v. set_view v ≡ the_declared (follow_view follow.now).rule locals.now
        (whole (after (follow_view follow.now) (set_view before) (view selector.now)))) }
{
    let past = past(alloc, follow, selector, before)?.whole()?;
    declared(follow.rule, locals, past)
}

fn past_return(
    alloc: Global,
    follow: &Follow,
    value: &Option<Rc<Expr>>,
    before: Variables,
) -> Result<Ends, Memory>
    ensures { IfOk result (λ e. ends_view e ≡ the_jumping (exit_by Returns
        (value_past (follow_view follow.now) (set_view before) (view_if value.now)))) }
{
    let past = past_value(alloc, follow, value, before)?;
    Ok(jumping(alloc, Exits::one(alloc, Way::Returns, past)?))
}

fn past_value(
    alloc: Global,
    follow: &Follow,
    value: &Option<Rc<Expr>>,
    before: Variables,
) -> Result<Variables, Memory>
    ensures { IfOk result (λ v. set_view v ≡
        value_past (follow_view follow.now) (set_view before) (view_if value.now)) }
{
    match value {
        None => Ok(before),
        Some(value) => past(alloc, follow, value, before)?.whole(),
    }
}
