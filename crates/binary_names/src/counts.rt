// Counts by names in classes.

ghost use Rattle.std.specs.Prelude.{◌≡◌, ◌+◌, ◌<◌, ◌^◌, ◌&&◌, ℕ, Option, IfOk, OnOk, if◌then◌else◌};
ghost use Rattle.je_base.specs.declared.span.NameId.{NameId};
ghost use Rattle.je_scopes.specs.Scope.{same_place};
ghost use Rattle.je_scopes.specs.BinaryNames.{same_names};
ghost use Rattle.binary_names.specs.Counts.{counted};

use je_base::{Memory, NameId};
use std::alloc::Global;
use std::collections::HashMap;

/// How many classes of each name there are so far directly in each class. Those of no name count together.
#[derive(Drop)]
pub struct Counts {
    values: HashMap<(Option<usize>, Option<u32>), usize>,
}

impl Counts {
    /// No classes.
    #[tactic(auto, unfolding(crate::specs::Counts::counted))]
    pub fn new(alloc: Global) -> Counts
        ensures { (p : Option ℕ) (x : Option NameId) → counted result p x ≡ 0 }
    {
        Counts {
            values: HashMap::new(alloc),
        }
    }

    /// Counts one more, and says how many there are of its name in its class.
    #[tactic(auto, unfolding(crate::specs::Counts::counted))]
    pub fn next(&mut self, place: Option<usize>, name: Option<NameId>) -> Result<usize, Memory>
        requires { counted self.old place name < 2 ^ 32 }
        ensures number { IfOk result (λ n. n ≡ counted self.new place name) }
        ensures counts { OnOk result ((p : Option ℕ) (x : Option NameId) → counted self.new p x ≡
            counted self.old p x + (if (same_place p place && same_names x name) then 1 else 0)) }
    {
        let count = self.count(place, name) + 1;
        self.values.insert((place, number(name)), count)?;
        Ok(count)
    }

    // How many there are of a name in a class.
    #[tactic(auto, unfolding(crate::specs::Counts::counted))]
    fn count(&self, place: Option<usize>, name: Option<NameId>) -> usize
        ensures { result ≡ counted self.now place name }
    {
        match self.values.get(&(place, number(name))) {
            Some(count) => *count,
            None => 0,
        }
    }
}

ghost use Rattle.binary_names.specs.Counts.{name_number};

// The number of a name.
fn number(name: Option<NameId>) -> Option<u32>
    ensures { result ≡ name_number name }
{
    match name {
        Some(name) => Some(name.0),
        None => None,
    }
}
