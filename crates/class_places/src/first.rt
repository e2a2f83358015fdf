// Which of all that was met tells where classes stand.

ghost use Rattle.std.specs.Prelude.{◌≡◌, map, option_map, slice_get};
ghost use Rattle.class_typing.specs.Places.{class_standing as the_class_standing};
ghost use Rattle.body_walks.specs.Seen.{met_seen};
ghost use Rattle.name_sites.specs.Number.{number_in};

use body_walks::Met;
use je_base::Memory;
use je_core::ClassId;
use std::alloc::Global;

// The class of which it is told where it stands.
fn class_standing(met: &Met) -> Option<ClassId>
    ensures { number_in result ≡ the_class_standing (met_seen met.now) }
{
    match met {
        Met::Stands { class, .. } | Met::StandsBehindNew { class, .. } => Some(*class),
        Met::Captures { .. } | Met::Makes { .. } => None,
    }
}

fn met_at<'m, 'a>(met: &'m [Met<'a>], at: usize) -> Option<&'m Met<'a>>
    ensures { option_map (λ m. met_seen m.now) result ≡ slice_get (map met_seen met.now) at }
{
    met.get(at)
}

/// Of each class the place of the first of what was met that tells where it stands.
#[derive(Drop)]
pub struct Stands {
    places: Vec<Option<usize>>,
}

impl Stands {
    ghost use Rattle.std.specs.Prelude.{◌≡◌, ◌<◌, ◌≤◌, ◌∷◌, ◌++◌, [], ℕ, IfOk, List, length, map, option_map, take};
    ghost use Rattle.std.specs.List.{find};
    ghost use Rattle.class_typing.specs.Places.{stands_at};
    ghost use Rattle.class_places.specs.First.{AreFirst, place_of};
    ghost use Rattle.body_walks.specs.Seen.{met_seen};
    ghost use Rattle.body_typing.specs.Bodies.{Met as TheMet};

    /// Of so many classes, where nothing was met.
    #[tactic(auto, using(crate::proofs::Telling::nothing_first))]
    pub fn none(alloc: Global, count: usize) -> Result<Stands, Memory>
        ensures { IfOk result (AreFirst count []) }
    {
        let mut places = Vec::new(alloc);
        for _ in 0..count {
            places.push(None)?;
        }
        Ok(Stands { places })
    }

    // One thing more, which is met at a place.
    fn add(&mut self, met: &Met, at: usize)
        ensures { (count : ℕ) (before : List TheMet) → length before ≡ at →
            AreFirst count before self.old →
            AreFirst count (before ++ met_seen met.now ∷ []) self.new }
    {
        let Some(class) = class_standing(met) else {
            return;
        };
        if let Some(place) = self.places.get_mut(class.0 as usize) {
            if place.is_none() {
                *place = Some(at);
            }
        }
    }

    /// All that was met, where those from a place on are new.
    pub fn add_all(&mut self, met: &[Met], from: usize)
        requires { from ≤ length met.now }
        ensures { (count : ℕ) → AreFirst count (map met_seen (take from met.now)) self.old →
            AreFirst count (map met_seen met.now) self.new }
    {
        for at in from..met.len() {
            self.add(&met[at], at);
        }
    }

    /// The first of what was met that tells where a class stands.
    pub fn first<'m, 'a>(&self, met: &'m [Met<'a>], class: ClassId) -> Option<&'m Met<'a>>
        ensures { (count : ℕ) → AreFirst count (map met_seen met.now) self.now →
            class.0 < count → option_map (λ m. met_seen m.now) result ≡
            find (stands_at class.0) (map met_seen met.now) }
    {
        match self.place(class) {
            Some(place) => met_at(met, place),
            None => None,
        }
    }

    // The place of that.
    fn place(&self, class: ClassId) -> Option<usize>
        ensures { result ≡ place_of self.now class.0 }
    {
        match self.places.get(class.0 as usize) {
            Some(place) => *place,
            None => None,
        }
    }
}
