// Reads of variables that aren't assigned (JLS 16), by an expression or in a class that stands at a place.

ghost use Rattle.std.specs.Prelude.{◌≡◌, Some};
ghost use Rattle.flow_base.specs.way.Kept.{first_of};
ghost use Rattle.variable_sets.specs.SetView.{set_view};
ghost use Rattle.assignment_rules.specs.View.{follow_view};
ghost use Rattle.assigned_expressions.specs.Reads.{captured_faults, read_faults, standing_faults};

use assignment_rules::{Follow, Rule, Site, stands_at};
use captured_reads::CapturedRead;
use flow_base::{FaultKind, FirstFault};
use je_core::Span;
use variable_sets::{Variables, local_number};

/// Adds a fault where a variable that is read isn't assigned.
pub fn test_read(rule: Rule, variable: usize, at: Span, before: &Variables, found: &mut FirstFault)
    ensures { found.new ≡
        first_of found.old (read_faults rule at (set_view before.now) (Some variable)) }
{
    match rule {
        Rule::Assigned => {
            let is_assigned = before.has(variable);
            found.add_where(!is_assigned, FaultKind::NotAssigned, at);
        }
        Rule::Unassigned => {}
    }
}

/// Adds a fault for each local that is read in a class at a place and isn't assigned there.
pub fn test_standing(follow: &Follow, site: Site, before: &Variables, found: &mut FirstFault)
    ensures { found.new ≡ first_of found.old (standing_faults (follow_view follow.now).rule site
        (set_view before.now) (follow_view follow.now).standing) }
{
    for class in &follow.standing {
        if stands_at(site, class) {
            test_captured(follow.rule, &class.reads, before, found);
        }
    }
}

// Adds a fault for each local that a class reads and that isn't assigned where it stands.
fn test_captured(rule: Rule, reads: &[CapturedRead], before: &Variables, found: &mut FirstFault)
    ensures { found.new ≡
        first_of found.old (captured_faults rule (set_view before.now) reads.now) }
{
    for read in reads {
        let local = local_number(read.local as usize);
        test_read(rule, local, read.span, before, found);
    }
}
