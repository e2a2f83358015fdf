// The headers of all classes, as far as they are known.

ghost use Rattle.std.specs.Prelude.{◌≡◌, ◌≢◌, ◌+◌, ◌<◌, ℕ, IfOk, None, Some, length};
ghost use Rattle.std.specs.Option.{option_map};
ghost use Rattle.name_sites.specs.View.{source_of};
ghost use Rattle.name_lookup.specs.View.{numbers, known_of, unknown_count};

use je_base::Memory;
use je_core::ClassId;
use name_sites::Sites;
use std::alloc::Global;

/// Of each class the classes that its header names as above it, as far as headers are known.
#[derive(Drop)]
pub struct Headers {
    pub(crate) supers: Vec<Option<Vec<ClassId>>>,
}

#[tactic(auto, unfolding(crate::specs::View::known_of, crate::specs::View::unknown_count))]
impl Headers {
    // Headers of which none is known.
    pub(crate) fn unknown(alloc: Global, sites: &Sites) -> Result<Headers, Memory>
        ensures whole { IfOk result
            (λ h. length h.supers.items ≡ length (source_of sites.now).sites) }
        ensures none { IfOk result
            (λ h. (c : ℕ) → c < length (source_of sites.now).sites → known_of h c ≡ None) }
    {
        let mut supers = Vec::new(alloc);
        for _ in 0..sites.len() {
            supers.push(None)?;
        }
        Ok(Headers { supers })
    }

    /// The classes directly above a class; None while its header isn't known.
    pub fn known(&self, class: ClassId) -> Option<&[ClassId]>
        ensures { option_map (λ s. numbers s.now) result ≡ known_of self.now class.0 }
    {
        let Some(header) = self.supers.get(class.0 as usize) else {
            return Some(&[]);
        };
        let Some(supers) = header else {
            return None;
        };
        Some(supers.as_slice())
    }

    // The header of a class is known.
    pub(crate) fn settle(&mut self, class: ClassId, supers: Vec<ClassId>)
        requires { class.0 < length self.old.supers.items }
        ensures here { known_of self.new class.0 ≡ Some (numbers supers.items) }
        ensures others { (c : ℕ) → c ≢ class.0 → known_of self.new c ≡ known_of self.old c }
        ensures whole { length self.new.supers.items ≡ length self.old.supers.items }
        ensures fewer { known_of self.old class.0 ≡ None → unknown_count self.new + 1 ≡
            unknown_count self.old }
    {
        self.supers[class.0 as usize] = Some(supers);
    }
}
