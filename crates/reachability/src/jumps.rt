// The reachable jumps that leave a statement.

ghost use Rattle.std.specs.Prelude.{◌≡◌, IfOk};
ghost use Rattle.reachability.specs.Jumps.{no_jumps, jump_where, joined as the_joined, beyond as the_beyond, any_by as the_any_by, others as the_others};
ghost use Rattle.reachability.specs.View.{jumps_view};

use flow_base::{Way, is_same};
use je_core::Memory;
use std::alloc::Global;

/// The ways by which a reachable jump leaves a statement.
#[derive(Drop)]
pub struct Jumps {
    alloc: Global,
    ways: Vec<Way>,
}

impl Jumps {
    /// None.
    #[tactic(auto, unfolding(crate::specs::View::jumps_view), using(crate::proofs::Jumped::jumps_none))]
    pub fn none(alloc: Global) -> Jumps
        ensures { jumps_view result ≡ no_jumps }
    {
        Jumps {
            alloc,
            ways: Vec::new(alloc),
        }
    }

    /// One, where it can be reached.
    #[tactic(auto, unfolding(crate::specs::View::jumps_view))]
    pub fn one(alloc: Global, reachable: bool, way: Way) -> Result<Jumps, Memory>
        ensures { IfOk result (λ j. jumps_view j ≡ jump_where reachable way) }
    {
        if !reachable {
            return Ok(Jumps::none(alloc));
        }
        let mut ways = Vec::new(alloc);
        ways.push(way)?;
        Ok(Jumps { alloc, ways })
    }

    /// Whether there is one by that way.
    #[tactic(auto, unfolding(crate::specs::Jumps::jumps_of, crate::specs::View::jumps_view))]
    pub fn has(&self, way: Way) -> bool
        ensures { result ≡ (jumps_view self.now).by way }
    {
        any_by(&self.ways, way)
    }

    /// The jumps of both.
    #[tactic(auto, unfolding(crate::specs::View::jumps_view), using(crate::proofs::Jumped::jumps_joined))]
    pub fn joined(self, other: Jumps) -> Result<Jumps, Memory>
        ensures { IfOk result (λ j. jumps_view j ≡
            the_joined (jumps_view self) (jumps_view other)) }
    {
        let mut ways = self.ways;
        let mut more = other.ways;
        ways.append(&mut more)?;
        Ok(Jumps {
            alloc: self.alloc,
            ways,
        })
    }

    /// The jumps but for those by that way.
    #[tactic(auto, unfolding(crate::specs::View::jumps_view), using(crate::proofs::Jumped::jumps_beyond))]
    pub fn beyond(self, way: Way) -> Result<Jumps, Memory>
        ensures { IfOk result (λ j. jumps_view j ≡
            the_beyond way (jumps_view self)) }
    {
        let ways = others(self.alloc, &self.ways, way)?;
        Ok(Jumps {
            alloc: self.alloc,
            ways,
        })
    }
}

fn any_by(ways: &[Way], way: Way) -> bool
    ensures { result ≡ the_any_by ways.now way }
{
    for one in ways {
        if is_same(*one, way) {
            return true;
        }
    }
    false
}

fn others(alloc: Global, ways: &[Way], way: Way) -> Result<Vec<Way>, Memory>
    ensures { IfOk result (λ v. v.items ≡ the_others way ways.now) }
{
    let mut rest = Vec::new(alloc);
    for one in ways {
        if !is_same(*one, way) {
            rest.push(*one)?;
        }
    }
    Ok(rest)
}
