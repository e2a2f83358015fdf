// Two sets at once through a statement, without faults. Each part is walked once: no variable looks at another, so what a loop
// leaves from any set is picked from what it leaves from everything and from nothing. By the text a loop is walked twice, and
// loops in one another two to the power of their depth times.

ghost use Rattle.std.specs.Prelude.{◌≡◌, IfOk, Some, None, map};
ghost use Rattle.je_core.specs.Core.{core_stmts, maybe_stmt, core_groups, core_catches, Loop as LoopForm, DoLoop as DoLoopForm, Switch as SwitchForm};
ghost use Rattle.je_core.specs.View.{view, views, stmt_view, stmt_form_view, stmt_views, stmt_view_if, group_view, catch_view};
ghost use Rattle.variable_sets.specs.Sets.{everything, nothing};
ghost use Rattle.variable_sets.specs.SetView.{set_view};
ghost use Rattle.assignment_rules.specs.Rules.{entry, declared as the_declared};
ghost use Rattle.assigned_expressions.specs.Expressions.{when_true, when_false, after};
ghost use Rattle.assignment_rules.specs.Ends.{ends, in_turn, going_on as the_going_on, one_of as the_one_of, labelled_ends};
ghost use Rattle.assigned_statements.specs.Statements.{statement_ends, form_ends, parts_end, part_ends, groups_end, catches_end, last_ends, loop_from, loop_turn, do_from, do_turn};
ghost use Rattle.assignment_rules.specs.View.{ends_view, follow_view};
ghost use Rattle.assigned_statements.specs.way.Parts.{group_ends, catch_ends};
ghost use Rattle.assignment_rules.specs.way.Picked.{pick_ends};

use crate::simple_pairs::{
    Pair, Starts, behind, pair_condition, pair_do, pair_going_on, pair_jump, pair_jumping,
    pair_one_of, pair_return, pair_starts, past, past_selector, past_steps,
};
use assignment_rules::{
    Ends, Follow, Rule, bottom, declared, end_labelled, end_loop, end_switch, enter, entered,
    marked, past_finally, pick,
};
use flow_base::has_default;
use je_core::{Catch, Expr, Group, Memory, NameId, Stmt, StmtForm};
use std::alloc::Global;
use std::rc::Rc;
use variable_sets::{Variables, local_number};

// A loop: what is so after a turn were all so before it, and what the loop leaves were all so, or none, where each turn begins.
#[derive(Drop)]
struct Turns {
    turn: Variables,
    all: Ends,
    none: Ends,
}

/// The set before the condition of a `while` or a `for`, by that before the loop.
pub fn enter_loop(
    alloc: Global,
    follow: &Follow,
    body: &Stmt,
    condition: &Expr,
    steps: &[Rc<Expr>],
    label: Option<NameId>,
    before: Variables,
) -> Result<Variables, Memory>
    ensures { IfOk result (λ v. set_view v ≡ entry (follow_view follow.now).rule (set_view before)
        (loop_turn (follow_view follow.now) label (view condition.now) (views steps.now)
        (stmt_view body.now))) }
{
    match follow.rule {
        Rule::Assigned => Ok(before),
        Rule::Unassigned => {
            let turns = loop_turns(alloc, follow, body, condition, steps, label)?;
            entered(follow.rule, before, &turns.turn)
        }
    }
}

/// The set before the body of a `do`, by that before the loop.
pub fn enter_do(
    alloc: Global,
    follow: &Follow,
    body: &Stmt,
    condition: &Expr,
    label: Option<NameId>,
    before: Variables,
) -> Result<Variables, Memory>
    ensures { IfOk result (λ v. set_view v ≡ entry (follow_view follow.now).rule (set_view before)
        (do_turn (follow_view follow.now) label (stmt_view body.now) (view condition.now))) }
{
    match follow.rule {
        Rule::Assigned => Ok(before),
        Rule::Unassigned => {
            let turns = do_turns(alloc, follow, body, condition, label)?;
            entered(follow.rule, before, &turns.turn)
        }
    }
}

#[cycle(pairs)]
#[tactic(auto, using(je_core::proofs::Views::stmt_view_is))]
fn pair_statement(
    alloc: Global,
    follow: &Follow,
    statement: &Stmt,
    label: Option<NameId>,
    first: Variables,
    second: Variables,
) -> Result<Pair, Memory>
    ensures first { IfOk result (λ e. ends_view e.first ≡
        statement_ends (follow_view follow.now) label (set_view first) (stmt_view statement.now)) }
    ensures second { IfOk result (λ e. ends_view e.second ≡
        statement_ends (follow_view follow.now) label (set_view second) (stmt_view statement.now)) }
{
    pair_form(alloc, follow, &statement.form, label, first, second)
}

#[cycle(pairs)]
fn pair_form(
    alloc: Global,
    follow: &Follow,
    form: &StmtForm,
    label: Option<NameId>,
    first: Variables,
    second: Variables,
) -> Result<Pair, Memory>
    ensures first { IfOk result (λ e. ends_view e.first ≡
        form_ends (follow_view follow.now) label (set_view first) (stmt_form_view form.now)) }
    ensures second { IfOk result (λ e. ends_view e.second ≡
        form_ends (follow_view follow.now) label (set_view second) (stmt_form_view form.now)) }
{
    match form {
        StmtForm::Empty => Ok(pair_going_on(alloc, first, second)),
        StmtForm::Block { locals, parts } => {
            pair_block(alloc, follow, parts, locals, first, second)
        }
        StmtForm::Do { expr } => pair_do(alloc, follow, expr, first, second),
        StmtForm::If { condition, yes, no } => {
            let chosen = pair_chosen(alloc, follow, yes, condition, first, second)?;
            pair_other(alloc, follow, no, chosen)
        }
        StmtForm::Loop {
            condition,
            steps,
            body,
        } => pair_loop(alloc, follow, body, condition, steps, label, first, second),
        StmtForm::DoLoop { body, condition } => {
            pair_do_loop(alloc, follow, body, condition, label, first, second)
        }
        StmtForm::Switch {
            locals,
            selector,
            groups,
        } => pair_switch(alloc, follow, groups, locals, selector, first, second),
        StmtForm::Labelled { name, body } => {
            pair_labelled(alloc, follow, body, *name, first, second)
        }
        StmtForm::Jump { again, label } => pair_jump(alloc, first, second, *again, *label),
        StmtForm::Return { value } => pair_return(alloc, follow, value, first, second),
        StmtForm::Throw { .. } => Ok(pair_jumping(alloc)),
        StmtForm::Try {
            body,
            catches,
            last,
        } => {
            let starts = pair_starts(alloc, follow, body, catches, &first, &second)?;
            let tried = pair_statement(alloc, follow, body, None, first, second)?;
            let caught = pair_catches(alloc, follow, catches, &starts, tried)?;
            pair_last(alloc, follow, last, starts, caught)
        }
    }
}

// A branch of an `if`, and the sets before the other one.
#[derive(Drop)]
struct Chosen {
    ends: Pair,
    first_false: Variables,
    second_false: Variables,
}

#[cycle(pairs)]
fn pair_chosen(
    alloc: Global,
    follow: &Follow,
    yes: &Stmt,
    condition: &Expr,
    first: Variables,
    second: Variables,
) -> Result<Chosen, Memory>
    ensures first { IfOk result (λ c. ends_view c.ends.first ≡
        statement_ends (follow_view follow.now) None
        (when_true (after (follow_view follow.now) (set_view first) (view condition.now)))
        (stmt_view yes.now)) }
    ensures second { IfOk result (λ c. ends_view c.ends.second ≡
        statement_ends (follow_view follow.now) None
        (when_true (after (follow_view follow.now) (set_view second) (view condition.now)))
        (stmt_view yes.now)) }
    ensures first_false { IfOk result (λ c. set_view c.first_false ≡
        when_false (after (follow_view follow.now) (set_view first) (view condition.now))) }
    ensures second_false { IfOk result (λ c. set_view c.second_false ≡
        when_false (after (follow_view follow.now) (set_view second) (view condition.now))) }
{
    let on = pair_condition(alloc, follow, condition, first, second)?;
    let ends = pair_statement(alloc, follow, yes, None, on.first_true, on.second_true)?;
    Ok(Chosen {
        ends,
        first_false: on.first_false,
        second_false: on.second_false,
    })
}

#[cycle(pairs)]
fn pair_other(
    alloc: Global,
    follow: &Follow,
    no: &Option<Rc<Stmt>>,
    chosen: Chosen,
) -> Result<Pair, Memory>
    ensures first { IfOk result (λ e. ends_view e.first ≡ the_one_of (ends_view chosen.ends.first)
        (part_ends (follow_view follow.now) (set_view chosen.first_false)
        (maybe_stmt (stmt_view_if no.now)))) }
    ensures second { IfOk result (λ e. ends_view e.second ≡
        the_one_of (ends_view chosen.ends.second)
        (part_ends (follow_view follow.now) (set_view chosen.second_false)
        (maybe_stmt (stmt_view_if no.now)))) }
{
    let other = pair_part(alloc, follow, no, chosen.first_false, chosen.second_false)?;
    pair_one_of(chosen.ends, other)
}

#[cycle(pairs)]
fn pair_labelled(
    alloc: Global,
    follow: &Follow,
    body: &Stmt,
    name: NameId,
    first: Variables,
    second: Variables,
) -> Result<Pair, Memory>
    ensures first { IfOk result (λ e. ends_view e.first ≡ labelled_ends name
        (statement_ends (follow_view follow.now) (Some name) (set_view first)
        (stmt_view body.now))) }
    ensures second { IfOk result (λ e. ends_view e.second ≡ labelled_ends name
        (statement_ends (follow_view follow.now) (Some name) (set_view second)
        (stmt_view body.now))) }
{
    let inside = pair_statement(alloc, follow, body, Some(name), first, second)?;
    Ok(Pair {
        first: end_labelled(name, inside.first)?,
        second: end_labelled(name, inside.second)?,
    })
}

#[cycle(pairs)]
fn pair_block(
    alloc: Global,
    follow: &Follow,
    parts: &[Rc<Stmt>],
    locals: &[u32],
    first: Variables,
    second: Variables,
) -> Result<Pair, Memory>
    ensures first { IfOk result (λ e. ends_view e.first ≡ parts_end (follow_view follow.now)
        (the_going_on (the_declared (follow_view follow.now).rule locals.now (set_view first)))
        (core_stmts (stmt_views parts.now))) }
    ensures second { IfOk result (λ e. ends_view e.second ≡ parts_end (follow_view follow.now)
        (the_going_on (the_declared (follow_view follow.now).rule locals.now (set_view second)))
        (core_stmts (stmt_views parts.now))) }
{
    let first = declared(follow.rule, locals, first)?;
    let second = declared(follow.rule, locals, second)?;
    pair_parts(alloc, follow, parts, pair_going_on(alloc, first, second))
}

#[cycle(pairs)]
fn pair_loop(
    alloc: Global,
    follow: &Follow,
    body: &Stmt,
    condition: &Expr,
    steps: &[Rc<Expr>],
    label: Option<NameId>,
    first: Variables,
    second: Variables,
) -> Result<Pair, Memory>
    ensures first { IfOk result (λ e. ends_view e.first ≡ form_ends (follow_view follow.now) label
        (set_view first) (LoopForm (view condition.now) (views steps.now) (stmt_view body.now))) }
    ensures second { IfOk result (λ e. ends_view e.second ≡ form_ends (follow_view follow.now) label
        (set_view second) (LoopForm (view condition.now) (views steps.now) (stmt_view body.now))) }
{
    let turns = loop_turns(alloc, follow, body, condition, steps, label)?;
    end_turns(follow.rule, &turns, first, second)
}

#[cycle(pairs)]
fn pair_do_loop(
    alloc: Global,
    follow: &Follow,
    body: &Stmt,
    condition: &Expr,
    label: Option<NameId>,
    first: Variables,
    second: Variables,
) -> Result<Pair, Memory>
    ensures first { IfOk result (λ e. ends_view e.first ≡ form_ends (follow_view follow.now) label
        (set_view first) (DoLoopForm (stmt_view body.now) (view condition.now))) }
    ensures second { IfOk result (λ e. ends_view e.second ≡ form_ends (follow_view follow.now) label
        (set_view second) (DoLoopForm (stmt_view body.now) (view condition.now))) }
{
    let turns = do_turns(alloc, follow, body, condition, label)?;
    end_turns(follow.rule, &turns, first, second)
}

// A `while` or a `for`, its body walked once.
#[cycle(pairs)]
fn loop_turns(
    alloc: Global,
    follow: &Follow,
    body: &Stmt,
    condition: &Expr,
    steps: &[Rc<Expr>],
    label: Option<NameId>,
) -> Result<Turns, Memory>
    ensures turn { IfOk result (λ t. set_view t.turn ≡ loop_turn (follow_view follow.now) label
        (view condition.now) (views steps.now) (stmt_view body.now)) }
    ensures all { IfOk result (λ t. ends_view t.all ≡ loop_from (follow_view follow.now) label
        (view condition.now) (stmt_view body.now) everything) }
    ensures none { IfOk result (λ t. ends_view t.none ≡ loop_from (follow_view follow.now) label
        (view condition.now) (stmt_view body.now) nothing) }
{
    let everything = Variables::everything(alloc);
    let inside = pair_chosen(
        alloc,
        follow,
        body,
        condition,
        everything,
        Variables::nothing(alloc),
    )?;
    let Pair { first, second } = inside.ends;
    let turn = past_steps(alloc, follow, steps, bottom(label, &first)?)?;
    Ok(Turns {
        turn,
        all: end_loop(label, first, inside.first_false)?,
        none: end_loop(label, second, inside.second_false)?,
    })
}

// A `do`, its body walked once.
#[cycle(pairs)]
fn do_turns(
    alloc: Global,
    follow: &Follow,
    body: &Stmt,
    condition: &Expr,
    label: Option<NameId>,
) -> Result<Turns, Memory>
    ensures turn { IfOk result (λ t. set_view t.turn ≡
        do_turn (follow_view follow.now) label (stmt_view body.now) (view condition.now)) }
    ensures all { IfOk result (λ t. ends_view t.all ≡ do_from (follow_view follow.now) label
        (stmt_view body.now) (view condition.now) everything) }
    ensures none { IfOk result (λ t. ends_view t.none ≡
        do_from (follow_view follow.now) label (stmt_view body.now) (view condition.now) nothing) }
{
    let everything = Variables::everything(alloc);
    let nothing = Variables::nothing(alloc);
    let inside = pair_statement(alloc, follow, body, None, everything, nothing)?;
    let all_bottom = bottom(label, &inside.first)?;
    let none_bottom = bottom(label, &inside.second)?;
    let (turn, all_false) = past(alloc, follow, condition, all_bottom)?.split()?;
    let (_, none_false) = past(alloc, follow, condition, none_bottom)?.split()?;
    Ok(Turns {
        turn,
        all: end_loop(label, inside.first, all_false)?,
        none: end_loop(label, inside.second, none_false)?,
    })
}

// What a loop leaves from each of two sets before it.
fn end_turns(rule: Rule, turns: &Turns, first: Variables, second: Variables) -> Result<Pair, Memory>
    ensures first { IfOk result (λ e. ends_view e.first ≡
        pick_ends (entry rule (set_view first) (set_view turns.now.turn))
        (ends_view turns.now.all) (ends_view turns.now.none)) }
    ensures second { IfOk result (λ e. ends_view e.second ≡
        pick_ends (entry rule (set_view second) (set_view turns.now.turn))
        (ends_view turns.now.all) (ends_view turns.now.none)) }
{
    let first_entry = entered(rule, first, &turns.turn)?;
    let second_entry = entered(rule, second, &turns.turn)?;
    Ok(Pair {
        first: pick(&first_entry, &turns.all, &turns.none)?,
        second: pick(&second_entry, &turns.all, &turns.none)?,
    })
}

#[cycle(pairs)]
fn pair_switch(
    alloc: Global,
    follow: &Follow,
    groups: &[Group],
    locals: &[u32],
    selector: &Expr,
    first: Variables,
    second: Variables,
) -> Result<Pair, Memory>
    ensures first { IfOk result (λ e. ends_view e.first ≡ form_ends (follow_view follow.now) None
        (set_view first) (SwitchForm locals.now (view selector.now)
        (core_groups (map group_view groups.now)))) }
    ensures second { IfOk result (λ e. ends_view e.second ≡ form_ends (follow_view follow.now) None
        (set_view second) (SwitchForm locals.now (view selector.now)
        (core_groups (map group_view groups.now)))) }
{
    let first_start = past_selector(alloc, follow, selector, locals, first)?;
    let second_start = past_selector(alloc, follow, selector, locals, second)?;
    let none = pair_jumping(alloc);
    let inside = pair_groups(alloc, follow, groups, &first_start, &second_start, none)?;
    let default = has_default(groups);
    Ok(Pair {
        first: end_switch(default, first_start, inside.first)?,
        second: end_switch(default, second_start, inside.second)?,
    })
}

#[cycle(pairs)]
fn pair_parts(
    alloc: Global,
    follow: &Follow,
    parts: &[Rc<Stmt>],
    before: Pair,
) -> Result<Pair, Memory>
    ensures first { IfOk result (λ e. ends_view e.first ≡ parts_end (follow_view follow.now)
        (ends_view before.first) (core_stmts (stmt_views parts.now))) }
    ensures second { IfOk result (λ e. ends_view e.second ≡ parts_end (follow_view follow.now)
        (ends_view before.second) (core_stmts (stmt_views parts.now))) }
{
    let mut done = before;
    for part in parts {
        done = pair_next(alloc, follow, part, done)?;
    }
    Ok(done)
}

// A statement behind what ends so.
#[cycle(pairs)]
fn pair_next(alloc: Global, follow: &Follow, part: &Stmt, before: Pair) -> Result<Pair, Memory>
    ensures first { IfOk result (λ e. ends_view e.first ≡ in_turn (ends_view before.first)
        (statement_ends (follow_view follow.now) None (ends_view before.first).after
        (stmt_view part.now))) }
    ensures second { IfOk result (λ e. ends_view e.second ≡ in_turn (ends_view before.second)
        (statement_ends (follow_view follow.now) None (ends_view before.second).after
        (stmt_view part.now))) }
{
    let (first, second) = (before.first, before.second);
    let next = pair_statement(alloc, follow, part, None, first.after, second.after)?;
    Ok(Pair {
        first: behind(first.exits, next.first)?,
        second: behind(second.exits, next.second)?,
    })
}

#[cycle(pairs)]
fn pair_part(
    alloc: Global,
    follow: &Follow,
    part: &Option<Rc<Stmt>>,
    first: Variables,
    second: Variables,
) -> Result<Pair, Memory>
    ensures first { IfOk result (λ e. ends_view e.first ≡
        part_ends (follow_view follow.now) (set_view first) (maybe_stmt (stmt_view_if part.now))) }
    ensures second { IfOk result (λ e. ends_view e.second ≡
        part_ends (follow_view follow.now) (set_view second) (maybe_stmt (stmt_view_if part.now))) }
{
    match part {
        None => Ok(pair_going_on(alloc, first, second)),
        Some(part) => pair_statement(alloc, follow, part, None, first, second),
    }
}

#[cycle(pairs)]
#[tactic(auto, using(crate::proofs::Parts::groups_step))]
fn pair_groups(
    alloc: Global,
    follow: &Follow,
    groups: &[Group],
    first_start: &Variables,
    second_start: &Variables,
    before: Pair,
) -> Result<Pair, Memory>
    ensures first { IfOk result (λ e. ends_view e.first ≡ groups_end (follow_view follow.now)
        (set_view first_start.now) (ends_view before.first)
        (core_groups (map group_view groups.now))) }
    ensures second { IfOk result (λ e. ends_view e.second ≡ groups_end (follow_view follow.now)
        (set_view second_start.now) (ends_view before.second)
        (core_groups (map group_view groups.now))) }
{
    let mut done = before;
    for group in groups {
        done = pair_group(alloc, follow, group, first_start, second_start, done)?;
    }
    Ok(done)
}

#[cycle(pairs)]
#[tactic(auto, using(je_core::proofs::Views::parts_seen))]
fn pair_group(
    alloc: Global,
    follow: &Follow,
    group: &Group,
    first_start: &Variables,
    second_start: &Variables,
    before: Pair,
) -> Result<Pair, Memory>
    ensures first { IfOk result (λ e. ends_view e.first ≡ group_ends (follow_view follow.now)
        (set_view first_start.now) (ends_view before.first) (group_view group.now)) }
    ensures second { IfOk result (λ e. ends_view e.second ≡ group_ends (follow_view follow.now)
        (set_view second_start.now) (ends_view before.second) (group_view group.now)) }
{
    let start = Pair {
        first: enter(&group.labels, first_start, before.first)?,
        second: enter(&group.labels, second_start, before.second)?,
    };
    pair_parts(alloc, follow, &group.parts, start)
}

#[cycle(pairs)]
#[tactic(auto, using(crate::proofs::Parts::catches_step))]
fn pair_catches(
    alloc: Global,
    follow: &Follow,
    catches: &[Catch],
    starts: &Starts,
    before: Pair,
) -> Result<Pair, Memory>
    ensures first { IfOk result (λ e. ends_view e.first ≡ catches_end (follow_view follow.now)
        (set_view starts.now.first) (ends_view before.first)
        (core_catches (map catch_view catches.now))) }
    ensures second { IfOk result (λ e. ends_view e.second ≡ catches_end (follow_view follow.now)
        (set_view starts.now.second) (ends_view before.second)
        (core_catches (map catch_view catches.now))) }
{
    let mut done = before;
    for catch in catches {
        let caught = pair_catch(alloc, follow, catch, starts)?;
        done = pair_one_of(done, caught)?;
    }
    Ok(done)
}

#[cycle(pairs)]
#[tactic(auto, using(je_core::proofs::Views::parts_seen))]
fn pair_catch(
    alloc: Global,
    follow: &Follow,
    catch: &Catch,
    starts: &Starts,
) -> Result<Pair, Memory>
    ensures first { IfOk result (λ e. ends_view e.first ≡
        catch_ends (follow_view follow.now) (set_view starts.now.first) (catch_view catch.now)) }
    ensures second { IfOk result (λ e. ends_view e.second ≡
        catch_ends (follow_view follow.now) (set_view starts.now.second) (catch_view catch.now)) }
{
    let parameter = local_number(catch.local as usize);
    let first = marked(follow.rule, parameter, starts.first.copy()?)?;
    let second = marked(follow.rule, parameter, starts.second.copy()?)?;
    pair_statement(alloc, follow, &catch.body, None, first, second)
}

#[cycle(pairs)]
fn pair_last(
    alloc: Global,
    follow: &Follow,
    last: &Option<Rc<Stmt>>,
    starts: Starts,
    before: Pair,
) -> Result<Pair, Memory>
    ensures first { IfOk result (λ e. ends_view e.first ≡ last_ends (follow_view follow.now)
        (set_view starts.first_last) (ends_view before.first) (maybe_stmt (stmt_view_if last.now))) }
    ensures second { IfOk result (λ e. ends_view e.second ≡ last_ends (follow_view follow.now)
        (set_view starts.second_last) (ends_view before.second)
        (maybe_stmt (stmt_view_if last.now))) }
{
    match last {
        None => Ok(before),
        Some(last) => {
            let past = pair_statement(
                alloc,
                follow,
                last,
                None,
                starts.first_last,
                starts.second_last,
            )?;
            Ok(Pair {
                first: past_finally(follow.rule, before.first, past.first)?,
                second: past_finally(follow.rule, before.second, past.second)?,
            })
        }
    }
}
