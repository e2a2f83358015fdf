// The classes that the walk has met, and where it stands.

ghost use Rattle.std.specs.Prelude.{length};
ghost use Rattle.name_walk.specs.View.{IsAmong, NameEarlier};

use crate::site::{ClassSite, Context, Spot, Written};
use je_base::Memory;
use je_core::Sort;
use std::alloc::Global;

/// The classes that were met, and what a class would stand in that came next.
#[derive(Drop)]
pub struct Collector<'a> {
    classes: Vec<ClassSite<'a>>,
    spot: Spot,
    ghost among: { IsAmong (length classes.items) spot },
    ghost earlier: { NameEarlier classes.items },
}

impl<'a> Collector<'a> {
    ghost use Rattle.std.specs.Prelude.{◌≡◌, ◌<◌, ◌∷◌, [], ◌++◌, length, IfOk, OnOk, None, Some};
    ghost use Rattle.je_scopes.specs.Sites.{at_top, inside, instance, site};
    ghost use Rattle.je_scopes.specs.Headers.{site_at};
    ghost use Rattle.name_walk.specs.View.{IsAmong, NameEarlier, context_view, in_own_scope, round_from, sites_of, spot_from, written_view};
    ghost use Rattle.name_walk.specs.Collected.{collected, spot_of};

    /// No classes, at the top of the first unit.
    #[tactic(auto, unfolding(crate::specs::Collected::collected, crate::specs::Collected::spot_of, crate::specs::View::sites_of))]
    pub fn new(alloc: Global) -> Collector<'a>
        ensures sites { collected result ≡ [] }
        ensures spot { spot_of result ≡ at_top 0 }
    {
        Collector {
            classes: Vec::new(alloc),
            spot: Spot {
                unit: 0,
                within: None,
                nearest: None,
                context: Context::Static,
            },
        }
    }

    /// The classes that were met.
    #[tactic(auto, unfolding(crate::specs::Collected::collected))]
    pub fn into_classes(self) -> Vec<ClassSite<'a>>
        ensures sites { sites_of result.items ≡ collected self.entry }
        ensures earlier { NameEarlier result.items }
    {
        let Collector { classes, .. } = self;
        classes
    }

    /// How many classes were met: the number of the next one.
    #[tactic(auto, using(crate::proofs::Behind::count_of_sites), unfolding(crate::specs::Collected::collected))]
    pub fn len(&self) -> usize
        ensures { result ≡ length (collected self.now) }
    {
        self.classes.len()
    }

    /// One more class, which stands here, and its number.
    #[tactic(auto, using(crate::proofs::Behind::count_of_sites, crate::proofs::Behind::sites_pushed, crate::proofs::Behind::earlier_pushed), unfolding(crate::specs::Collected::collected, crate::specs::Collected::spot_of))]
    pub fn push(
        &mut self,
        written: Written<'a>,
        sort: Sort,
        is_local: bool,
    ) -> Result<usize, Memory>
        ensures number { IfOk result (λ n. n ≡ length (collected self.old)) }
        ensures sites { let number = length (collected self.old) in OnOk result
            (collected self.new ≡
            collected self.old ++ site (written_view written.entry) sort
            (in_own_scope is_local number (spot_of self.old)) ∷ []) }
        ensures stays { OnOk result (spot_of self.new ≡ spot_of self.old) }
    {
        let number = self.classes.len();
        let spot = self.spot;
        self.classes.push(ClassSite {
            written,
            sort,
            spot,
            is_local,
        })?;
        Ok(number)
    }

    /// Goes to the top of a unit.
    #[tactic(auto, unfolding(crate::specs::Collected::collected, crate::specs::Collected::spot_of))]
    pub fn go_to_top(&mut self, unit: usize)
        ensures sites { collected self.new ≡ collected self.old }
        ensures spot { spot_of self.new ≡ at_top unit }
    {
        self.spot = Spot {
            unit,
            within: None,
            nearest: None,
            context: Context::Static,
        };
    }

    /// Where the walk stands.
    #[tactic(auto, using(crate::proofs::Behind::count_of_sites), unfolding(crate::specs::Collected::collected, crate::specs::Collected::spot_of))]
    pub fn spot(&self) -> Spot
        ensures among { IsAmong (length (collected self.now)) result }
        ensures is { spot_from (collected self.now) result ≡ spot_of self.now }
    {
        self.spot
    }

    /// Goes to where it stood before.
    #[tactic(auto, using(crate::proofs::Behind::count_of_sites), unfolding(crate::specs::Collected::collected, crate::specs::Collected::spot_of))]
    pub fn go_back(&mut self, spot: Spot)
        requires { IsAmong (length (collected self.old)) spot }
        ensures sites { collected self.new ≡ collected self.old }
        ensures spot { spot_of self.new ≡ spot_from (collected self.old) spot }
    {
        self.spot = spot;
    }

    /// Goes into the body of the class of a number, which stands here.
    #[tactic(auto, using(crate::proofs::Behind::count_of_sites), unfolding(crate::specs::Collected::collected, crate::specs::Collected::spot_of))]
    pub fn enter(&mut self, number: usize)
        requires there { number < length (collected self.old) }
        requires here { (site_at (collected self.old) number).spot.round ≡
            (spot_of self.old).round }
        ensures sites { collected self.new ≡ collected self.old }
        ensures spot { spot_of self.new ≡ inside number (spot_of self.old) instance }
    {
        self.spot = Spot {
            unit: self.spot.unit,
            within: Some(number),
            nearest: None,
            context: Context::Instance,
        };
    }

    /// Goes to where this local class, and those in scope in it, are in scope.
    #[tactic(auto, using(crate::proofs::Behind::count_of_sites), unfolding(crate::specs::Collected::collected, crate::specs::Collected::spot_of))]
    pub fn go_behind(&mut self, number: usize)
        requires { number < length (collected self.old) }
        ensures sites { collected self.new ≡ collected self.old }
        ensures spot { spot_of self.new ≡
            record (spot_of self.old) {
              locals =
                  (site_at (collected self.old) number).spot.locals;
            } }
    {
        self.spot.nearest = Some(number);
    }

    /// Goes into another context, and gives the one before.
    #[tactic(auto, unfolding(crate::specs::Collected::collected, crate::specs::Collected::spot_of))]
    pub fn set_context(&mut self, context: Context) -> Context
        ensures was { context_view result ≡ (spot_of self.old).context }
        ensures sites { collected self.new ≡ collected self.old }
        ensures spot { spot_of self.new ≡
            record (spot_of self.old) { context = context_view context } }
    {
        let before = self.spot.context;
        self.spot.context = context;
        before
    }
}
