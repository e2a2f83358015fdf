// Names that were met.

ghost use Rattle.std.specs.Prelude.{◌≡◌, ◌||◌, false, IfOk, OnOk};
ghost use Rattle.je_base.specs.declared.span.NameId.{NameId};
ghost use Rattle.je_scopes.specs.Headers.{same_name};
ghost use Rattle.name_faults.specs.Met.{is_met};

use je_base::{Memory, NameId};
use std::alloc::Global;
use std::collections::HashSet;

/// The names that were met so far.
#[derive(Drop)]
pub struct Met {
    numbers: HashSet<u32>,
}

impl Met {
    /// None yet.
    #[tactic(auto, unfolding(crate::specs::Met::is_met))]
    pub fn none(alloc: Global) -> Met
        ensures { (x : NameId) → is_met result x ≡ false }
    {
        Met {
            numbers: HashSet::new(alloc),
        }
    }

    /// Meets a name, and says whether it was met before.
    #[tactic(auto, unfolding(crate::specs::Met::is_met))]
    pub fn meet(&mut self, name: NameId) -> Result<bool, Memory>
        ensures before { IfOk result (λ before. before ≡ is_met self.old name) }
        ensures now { OnOk result
            ((x : NameId) → is_met self.new x ≡ (is_met self.old x || same_name name x)) }
    {
        let is_new = self.numbers.insert(name.0)?;
        Ok(!is_new)
    }

    /// Whether a name was met.
    #[tactic(auto, unfolding(crate::specs::Met::is_met))]
    pub fn has(&self, name: NameId) -> bool
        ensures { result ≡ is_met self.now name }
    {
        self.numbers.contains(&name.0)
    }
}
