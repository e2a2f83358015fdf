// The breaks that a walk found, and the list of them.

ghost use Rattle.std.specs.Prelude.{◌≡◌, ◌↔◌, [], IfOk, OnOk};
ghost use Rattle.std.specs.List.{Contains};
ghost use Rattle.std.specs.List.Sorted.{IsStrictlySortedBy};
ghost use Rattle.rule_breaks.specs.Breaks.{Breaks, one, ◌∪◌, break_where, break_order, IsListOf};
ghost use Rattle.rule_breaks.specs.declared.breaks.Break.{Break as TheBreak};
ghost use Rattle.rule_breaks.specs.way.Found.{followed_by};

use crate::breaks::Break;
use crate::rules::ConfinementRule;
use je_base::{Memory, Span};
use std::alloc::Global;
use std::marker::Model;

/// The breaks that were found so far.
#[derive(Drop)]
pub struct Found {
    breaks: Vec<Break>,
}

impl Model for Found {
    ghost use Rattle.std.specs.Prelude.{List};
    ghost use Rattle.rule_breaks.specs.declared.breaks.Break.{Break as SomeBreak};

    ghost Value = { List SomeBreak };

    ghost view = { λ f. f.breaks.items };
}

impl Found {
    /// None yet.
    pub fn new(alloc: Global) -> Found
        ensures { result ≡ [] }
    {
        Found {
            breaks: Vec::new(alloc),
        }
    }

    /// One more break.
    pub fn add(&mut self, rule: ConfinementRule, span: Span) -> Result<(), Memory>
        ensures { OnOk result (self.new ≡ followed_by self.old
            (one (record { rule = rule; span = span }))) }
    {
        self.breaks.push(Break { rule, span })?;
        Ok(())
    }

    /// One more break, where the test holds.
    pub fn add_where(&mut self, test: bool, rule: ConfinementRule, span: Span) -> Result<(), Memory>
        ensures { OnOk result (self.new ≡ followed_by self.old (break_where test rule span)) }
    {
        if test {
            self.add(rule, span)?;
        }
        Ok(())
    }

    /// The list of what was found: in order, and each break once.
    pub fn in_order(self) -> Vec<Break>
        ensures { (breaks : Breaks) → self ≡ followed_by [] breaks → IsListOf breaks result.items }
    {
        sorted(self.breaks)
    }
}

/// The list of two sets together, from a list of each.
pub fn merged(one: Vec<Break>, other: Vec<Break>) -> Result<Vec<Break>, Memory>
    ensures { (a b : Breaks) → IsListOf a one.items → IsListOf b other.items
        → IfOk result (λ all. IsListOf (a ∪ b) all.items) }
{
    let mut all = one;
    all.extend_from_slice(&other)?;
    Ok(sorted(all))
}

// The same breaks in order, each once.
fn sorted(breaks: Vec<Break>) -> Vec<Break>
    ensures in_order { IsStrictlySortedBy break_order result.items }
    ensures members { (b : TheBreak) → Contains result.items b ↔ Contains breaks.items b }
{
    let mut sorted = breaks;
    sorted.sort_unstable();
    sorted.dedup();
    sorted
}
