// How a statement ends, by how its parts end (JLS 16.2).

ghost use Rattle.std.specs.Prelude.{◌≡◌, IfOk, map};
ghost use Rattle.je_core.specs.View.{label_view};
ghost use Rattle.variable_sets.specs.SetView.{set_view};
ghost use Rattle.variable_sets.specs.ExitsView.{exits_view};
ghost use Rattle.assignment_rules.specs.Ends.{ends as the_ends, going_on as the_going_on, jumping as the_jumping, one_of as the_one_of, at_continues as the_at_continues, past_label as the_past_label, bottom as the_bottom, loop_ends, labelled_ends, entering as the_entering, switch_ends, past_finally as the_past_finally, jump_ends};
ghost use Rattle.assignment_rules.specs.way.Picked.{pick_ends};
ghost use Rattle.assignment_rules.specs.View.{ends_view};

use crate::rules::Rule;
use flow_base::Way;
use je_core::{Label, Memory, NameId};
use std::alloc::Global;
use variable_sets::{Exits, Variables};

/// The variables that are assigned, or unassigned, after a statement, and before every exit of it by each way.
#[derive(Drop)]
pub struct Ends {
    pub after: Variables,
    pub exits: Exits,
}

/// A statement that no jump leaves.
pub fn going_on(alloc: Global, after: Variables) -> Ends
    ensures { ends_view result ≡ the_going_on (set_view after) }
{
    Ends {
        after,
        exits: Exits::none(alloc),
    }
}

/// A statement that jumps.
pub fn jumping(alloc: Global, exits: Exits) -> Ends
    ensures { ends_view result ≡ the_jumping (exits_view exits) }
{
    Ends {
        after: Variables::everything(alloc),
        exits,
    }
}

/// What ends in one of two ways.
pub fn one_of(one: Ends, other: Ends) -> Result<Ends, Memory>
    ensures { IfOk result (λ e. ends_view e ≡ the_one_of (ends_view one) (ends_view other)) }
{
    Ok(Ends {
        after: one.after.meet(&other.after)?,
        exits: one.exits.met(other.exits)?,
    })
}

// Before every `continue` of a loop of this label.
fn at_continues(label: Option<NameId>, exits: &Exits) -> Result<Variables, Memory>
    ensures { IfOk result (λ v. set_view v ≡ the_at_continues label (exits_view exits.now)) }
{
    let all = exits.by(Way::Continues(None))?;
    match label {
        None => Ok(all),
        Some(label) => all.meet(&exits.by(Way::Continues(Some(label)))?),
    }
}

/// Before the steps of a `for`, and before the condition of a `do`.
pub fn bottom(label: Option<NameId>, inside: &Ends) -> Result<Variables, Memory>
    ensures { IfOk result (λ v. set_view v ≡ the_bottom label (ends_view inside.now)) }
{
    inside
        .after
        .copy()?
        .meet(&at_continues(label, &inside.exits)?)
}

/// How a loop of this label ends, by its body and what is assigned when its condition is false.
pub fn end_loop(label: Option<NameId>, inside: Ends, out: Variables) -> Result<Ends, Memory>
    ensures { IfOk result (λ e. ends_view e ≡ loop_ends label (ends_view inside) (set_view out)) }
{
    let at_breaks = inside.exits.by(Way::Breaks(None))?;
    let exits = inside
        .exits
        .beyond(Way::Breaks(None))?
        .beyond(Way::Continues(None))?;
    Ok(Ends {
        after: out.meet(&at_breaks)?,
        exits: past_label(label, exits)?,
    })
}

// The exits but for a `continue` with this label.
fn past_label(label: Option<NameId>, exits: Exits) -> Result<Exits, Memory>
    ensures { IfOk result (λ x. exits_view x ≡ the_past_label label (exits_view exits)) }
{
    match label {
        None => Ok(exits),
        Some(label) => exits.beyond(Way::Continues(Some(label))),
    }
}

/// How a statement behind a label ends.
pub fn end_labelled(label: NameId, inside: Ends) -> Result<Ends, Memory>
    ensures { IfOk result (λ e. ends_view e ≡ labelled_ends label (ends_view inside)) }
{
    let at_breaks = inside.exits.by(Way::Breaks(Some(label)))?;
    Ok(Ends {
        after: inside.after.meet(&at_breaks)?,
        exits: inside.exits.beyond(Way::Breaks(Some(label)))?,
    })
}

/// A `break`, or a `continue`, with a label or with none.
pub fn jump(
    alloc: Global,
    before: Variables,
    again: bool,
    label: Option<NameId>,
) -> Result<Ends, Memory>
    ensures { IfOk result (λ e. ends_view e ≡ jump_ends (set_view before) again label) }
{
    let way = if again {
        Way::Continues(label)
    } else {
        Way::Breaks(label)
    };
    Ok(jumping(alloc, Exits::one(alloc, way, before)?))
}

/// What comes to the statements behind some labels.
pub fn enter(labels: &[Label], start: &Variables, before: Ends) -> Result<Ends, Memory>
    ensures { IfOk result (λ e. ends_view e ≡
        the_ends (the_entering (set_view start.now) (map label_view labels.now)
        (set_view before.after)) (exits_view before.exits)) }
{
    if labels.is_empty() {
        return Ok(before);
    }
    Ok(Ends {
        after: before.after.meet(start)?,
        exits: before.exits,
    })
}

/// How a switch ends, by its groups.
pub fn end_switch(default: bool, start: Variables, inside: Ends) -> Result<Ends, Memory>
    ensures { IfOk result (λ e. ends_view e ≡
        switch_ends default (set_view start) (ends_view inside)) }
{
    let at_breaks = inside.exits.by(Way::Breaks(None))?;
    let after = if default {
        inside.after
    } else {
        inside.after.meet(&start)?
    };
    Ok(Ends {
        after: after.meet(&at_breaks)?,
        exits: inside.exits.beyond(Way::Breaks(None))?,
    })
}

/// How a `try` ends, by its `finally`.
pub fn past_finally(rule: Rule, before: Ends, last: Ends) -> Result<Ends, Memory>
    ensures { IfOk result (λ e. ends_view e ≡
        the_past_finally rule (ends_view before) (ends_view last)) }
{
    match rule {
        Rule::Assigned => Ok(Ends {
            after: before.after.join(&last.after)?,
            exits: before.exits.gaining(&last.after)?.met(last.exits)?,
        }),
        Rule::Unassigned => Ok(Ends {
            after: before.after.meet(&last.after)?,
            exits: before.exits.limited(&last.after)?.met(last.exits)?,
        }),
    }
}

/// Of the variables in a set what ends so, and of all others what ends otherwise.
pub fn pick(which: &Variables, yes: &Ends, no: &Ends) -> Result<Ends, Memory>
    ensures { IfOk result (λ e. ends_view e ≡
        pick_ends (set_view which.now) (ends_view yes.now) (ends_view no.now)) }
{
    Ok(Ends {
        after: which.pick(&yes.after, &no.after)?,
        exits: Exits::pick(which, &yes.exits, &no.exits)?,
    })
}
