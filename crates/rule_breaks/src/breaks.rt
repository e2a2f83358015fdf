// A rule that is broken, and where.

ghost use Rattle.std.proofs.Common.{rules as usual};
ghost use Rattle.std.specs.Cmp.{partial_order_from_own_ties};
ghost use Rattle.std.specs.Cmp.Rules.{comparing};
ghost use Rattle.std.specs.Ordering.{as_partial_cmp, eq_by_cmp};

use crate::rules::ConfinementRule;
use je_base::Span;
use std::cmp::Ordering;

/// A rule that is broken, and the place. Breaks are ordered by place, and at one place by the rule's number.
#[derive(Clone, Copy)]
pub struct Break {
    pub rule: ConfinementRule,
    pub span: Span,
}

impl Ord for Break {
    ghost use Rattle.rule_breaks.specs.Breaks.{break_order};

    ghost cmp = { break_order };

    ghost total = { Prim.search (comparing, usual) depth 9 };

    ghost matches_partial_cmp = { Prim.search (comparing, usual) };

    ghost matches_eq = { Prim.search (comparing, usual) };

    fn cmp(&self, other: &Break) -> Ordering {
        self.span
            .file
            .cmp(&other.span.file)
            .then(self.span.start.cmp(&other.span.start))
            .then(self.span.end.cmp(&other.span.end))
            .then(self.rule.number().cmp(&other.rule.number()))
    }
}

impl PartialOrd for Break {
    ghost use Rattle.rule_breaks.specs.Breaks.{break_order};

    ghost partial_cmp = { as_partial_cmp break_order };

    ghost laws = { partial_order_from_own_ties (Prim.search (comparing, usual) depth 9) (Prim.search (comparing, usual)) };

    fn partial_cmp(&self, other: &Break) -> Option<Ordering> {
        Some(self.cmp(other))
    }
}

impl PartialEq for Break {
    ghost use Rattle.rule_breaks.specs.Breaks.{break_order};

    ghost eq = { eq_by_cmp break_order };

    ghost laws = { Prim.search (comparing, usual) depth 9 };

    fn eq(&self, other: &Break) -> bool {
        self.cmp(other).is_eq()
    }
}

impl Eq for Break {
    ghost laws = { Prim.search (comparing, usual) depth 9 };
}
