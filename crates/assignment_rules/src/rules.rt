// What is followed, and the steps that differ by it.

ghost use Rattle.std.specs.Prelude.{◌≡◌, IfOk};
ghost use Rattle.variable_sets.specs.SetView.{set_view};
ghost use Rattle.assignment_rules.specs.Rules.{marking, declaring, declared as the_declared, none_marked as the_none_marked, all_marked as the_all_marked, entry, handled as the_handled};

use captured_reads::Standing;
use je_core::{ClassId, Memory};
use std::alloc::Global;
use variable_sets::{Variables, local_number};

/// What is followed of variables (JLS 16).
#[derive(Clone, Copy, PartialEq, Eq)]
pub enum Rule {
    /// Which are definitely assigned. What is read is to be so before.
    Assigned,
    /// Which are definitely unassigned. A final variable that is assigned is to be so before.
    Unassigned,
}

/// What a walk follows.
#[derive(Drop)]
pub struct Follow {
    pub rule: Rule,
    /// The class whose fields are followed; none in a body where all fields count as assigned.
    pub home: Option<ClassId>,
    /// The variables that may be assigned only once.
    pub finals: Variables,
    /// The classes that stand in the body. What they read of its locals is to be assigned before them.
    pub standing: Vec<Standing>,
}

/// The set behind an assignment to a variable.
pub fn marked(rule: Rule, variable: usize, set: Variables) -> Result<Variables, Memory>
    ensures { IfOk result (λ v. set_view v ≡ marking rule variable (set_view set)) }
{
    let mut set = set;
    match rule {
        Rule::Assigned => set.insert(variable)?,
        Rule::Unassigned => set.remove(variable)?,
    }
    Ok(set)
}

/// The set behind the declaration of a local.
fn newly_declared(rule: Rule, variable: usize, set: Variables) -> Result<Variables, Memory>
    ensures { IfOk result (λ v. set_view v ≡ declaring rule variable (set_view set)) }
{
    let mut set = set;
    match rule {
        Rule::Assigned => set.remove(variable)?,
        Rule::Unassigned => set.insert(variable)?,
    }
    Ok(set)
}

/// The set behind the declaration of these locals.
pub fn declared(rule: Rule, locals: &[u32], set: Variables) -> Result<Variables, Memory>
    ensures { IfOk result (λ v. set_view v ≡ the_declared rule locals.now (set_view set)) }
{
    let mut rest = set;
    for local in locals {
        rest = newly_declared(rule, local_number(*local as usize), rest)?;
    }
    Ok(rest)
}

/// The set where each turn of a loop begins, by that before the loop and what a turn leaves were all so before it.
pub fn entered(rule: Rule, before: Variables, turn: &Variables) -> Result<Variables, Memory>
    ensures { IfOk result (λ v. set_view v ≡ entry rule (set_view before) (set_view turn.now)) }
{
    match rule {
        Rule::Assigned => Ok(before),
        Rule::Unassigned => before.meet(turn),
    }
}

/// The set before a catch or a `finally`, by that before the `try` and the variables that are assigned nowhere in between.
pub fn handled(rule: Rule, before: Variables, untouched: &Variables) -> Result<Variables, Memory>
    ensures { IfOk result (λ v. set_view v ≡
        the_handled rule (set_view before) (set_view untouched.now)) }
{
    match rule {
        Rule::Assigned => Ok(before),
        Rule::Unassigned => before.meet(untouched),
    }
}

/// The set where no variable was assigned yet.
pub fn none_marked(alloc: Global, rule: Rule) -> Variables
    ensures { set_view result ≡ the_none_marked rule }
{
    match rule {
        Rule::Assigned => Variables::nothing(alloc),
        Rule::Unassigned => Variables::everything(alloc),
    }
}

/// The set where all variables count as assigned.
pub fn all_marked(alloc: Global, rule: Rule) -> Variables
    ensures { set_view result ≡ the_all_marked rule }
{
    match rule {
        Rule::Assigned => Variables::everything(alloc),
        Rule::Unassigned => Variables::nothing(alloc),
    }
}
