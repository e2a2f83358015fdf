// The labels of a `switch` that are met.

ghost use Rattle.std.specs.Prelude.{◌≡◌, IfOk, OnOk, None, Some};
ghost use Rattle.std.specs.List.{list_any};
ghost use Rattle.je_arith.specs.Comparison.{is_same};
ghost use Rattle.statement_steps.specs.Switches.{Met, met_value, none_met};

use je_base::Memory;
use std::alloc::Global;
use std::collections::HashSet;

/// The labels that a `switch` has so far: the numbers of those that have one, and whether `default` is among them.
#[derive(Drop)]
pub struct LabelsMet {
    pub(crate) numbers: HashSet<i32>,
    pub(crate) has_default: bool,
}

impl LabelsMet {
    ghost use Rattle.std.specs.Prelude.{◌≡◌, IfOk, OnOk, None, Some};
    ghost use Rattle.std.specs.List.{list_any};
    ghost use Rattle.je_arith.specs.Comparison.{is_same};
    ghost use Rattle.statement_steps.specs.Switches.{Met, met_value, none_met};
    ghost use Rattle.value_statements.specs.Labels.{Knows};

    /// None yet.
    pub fn none(alloc: Global) -> LabelsMet
        ensures { Knows result none_met }
    {
        LabelsMet {
            numbers: HashSet::new(alloc),
            has_default: false,
        }
    }

    /// Meets a number, and says whether it was met before.
    pub(crate) fn meet(&mut self, number: i32) -> Result<bool, Memory>
        ensures before { IfOk result (λ before. (met : Met) → Knows self.old met →
            before ≡ list_any (is_same number) met.numbers) }
        ensures now { OnOk result ((met : Met) → Knows self.old met →
            Knows self.new (met_value met (Some number))) }
    {
        let is_new = self.numbers.insert(number)?;
        Ok(!is_new)
    }

    /// Meets `default`, and says whether it was met before.
    pub(crate) fn meet_default(&mut self) -> bool
        ensures before { (met : Met) → Knows self.old met → result ≡ met.has_default }
        ensures now { (met : Met) → Knows self.old met → Knows self.new (met_value met None) }
    {
        let before = self.has_default;
        self.has_default = true;
        before
    }
}
