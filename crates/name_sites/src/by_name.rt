// Numbers by names in places.

ghost use Rattle.std.specs.Prelude.{◌≡◌, ℕ, Option, None, OnOk};
ghost use Rattle.je_base.specs.declared.span.NameId.{NameId};
ghost use Rattle.name_sites.specs.ByName.{kept, or_else, at_key};

use je_base::{Memory, NameId};
use std::alloc::Global;
use std::collections::HashMap;

/// The first number that was put under each name in each place.
#[derive(Drop)]
pub struct ByName {
    values: HashMap<(Option<usize>, u32), u32>,
}

impl ByName {
    /// Nothing under any name.
    #[tactic(auto, unfolding(crate::specs::ByName::kept))]
    pub fn new(alloc: Global) -> ByName
        ensures { (p : Option ℕ) (x : NameId) → kept result p x ≡ None }
    {
        ByName {
            values: HashMap::new(alloc),
        }
    }

    /// What stands under a name in a place.
    #[tactic(auto, unfolding(crate::specs::ByName::kept))]
    pub fn get(&self, place: Option<usize>, name: NameId) -> Option<u32>
        ensures { result ≡ kept self.now place name }
    {
        self.values.get(&(place, name.0)).copied()
    }

    /// Puts a number under a name in a place where none stands.
    #[tactic(auto, unfolding(crate::specs::ByName::kept))]
    pub fn keep(&mut self, place: Option<usize>, name: NameId, value: u32) -> Result<(), Memory>
        ensures { OnOk result ((p : Option ℕ) (x : NameId) → kept self.new p x ≡
            or_else (kept self.old p x) (at_key place name value p x)) }
    {
        match self.get(place, name) {
            Some(_) => Ok(()),
            None => {
                self.values.insert((place, name.0), value)?;
                Ok(())
            }
        }
    }
}
