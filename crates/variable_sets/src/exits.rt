// The exits of a statement, and the variables that are in a set before each.

ghost use Rattle.std.specs.Prelude.{◌≡◌, IfOk};
ghost use Rattle.variable_sets.specs.Sets.{everything, both, either};
ghost use Rattle.variable_sets.specs.SetView.{set_view};
ghost use Rattle.variable_sets.specs.ExitSets.{no_exits, exit_by, met as the_met, beyond as the_beyond, gaining as the_gaining, limited as the_limited, picked};
ghost use Rattle.variable_sets.specs.ExitsView.{exits_view};
ghost use Rattle.variable_sets.specs.way.Lists.{Each, look, others as the_others, putting};

use crate::sets::Variables;
use flow_base::{Way, is_same};
use je_core::Memory;
use std::alloc::Global;

/// One exit, and the variables that are in the set before it.
#[derive(Drop)]
struct Exit {
    way: Way,
    before: Variables,
}

/// The exits of a statement: for each way the variables that are in the set before every exit by it.
#[derive(Drop)]
pub struct Exits {
    alloc: Global,
    list: Vec<Exit>,
}

impl Exits {
    /// None.
    #[tactic(auto, unfolding(crate::specs::ExitsView::exits_view), using(crate::proofs::Looks::exits_none))]
    pub fn none(alloc: Global) -> Exits
        ensures { exits_view result ≡ no_exits }
    {
        Exits {
            alloc,
            list: Vec::new(alloc),
        }
    }

    /// One exit.
    #[tactic(auto, unfolding(crate::specs::ExitsView::exits_view), using(crate::proofs::Looks::exits_one))]
    pub fn one(alloc: Global, way: Way, before: Variables) -> Result<Exits, Memory>
        ensures { IfOk result (λ x. exits_view x ≡ exit_by way (set_view before)) }
    {
        let mut list = Vec::new(alloc);
        list.push(Exit { way, before })?;
        Ok(Exits { alloc, list })
    }

    /// What is in the set before every exit by that way.
    #[tactic(auto, unfolding(crate::specs::ExitsView::exits_view, crate::specs::way::Lists::exits_of))]
    pub fn by(&self, way: Way) -> Result<Variables, Memory>
        ensures { IfOk result (λ v. set_view v ≡ (exits_view self.now).by way) }
    {
        before_all(self.alloc, &self.list, way)
    }

    /// The exits of both.
    #[tactic(auto, unfolding(crate::specs::ExitsView::exits_view), using(crate::proofs::Looks::exits_met))]
    pub fn met(self, other: Exits) -> Result<Exits, Memory>
        ensures { IfOk result (λ x. exits_view x ≡ the_met (exits_view self) (exits_view other)) }
    {
        let mut list = self.list;
        let mut more = other.list;
        list.append(&mut more)?;
        Ok(Exits {
            alloc: self.alloc,
            list,
        })
    }

    /// The exits but for those by that way.
    #[tactic(auto, unfolding(crate::specs::ExitsView::exits_view), using(crate::proofs::Looks::exits_beyond))]
    pub fn beyond(self, way: Way) -> Result<Exits, Memory>
        ensures { IfOk result (λ x. exits_view x ≡ the_beyond way (exits_view self)) }
    {
        let list = others(self.alloc, self.list, way)?;
        Ok(Exits {
            alloc: self.alloc,
            list,
        })
    }

    /// The exits, once more is in the set before each.
    #[tactic(auto, unfolding(crate::specs::ExitsView::exits_view), using(crate::proofs::Looks::exits_gaining))]
    pub fn gaining(self, gain: &Variables) -> Result<Exits, Memory>
        ensures { IfOk result (λ x. exits_view x ≡
            the_gaining (set_view gain.now) (exits_view self)) }
    {
        let list = gained(self.alloc, self.list, gain)?;
        Ok(Exits {
            alloc: self.alloc,
            list,
        })
    }

    /// The exits, and in the set before each only what is in this one too.
    #[tactic(auto, unfolding(crate::specs::ExitsView::exits_view), using(crate::proofs::Looks::exits_limited))]
    pub fn limited(self, limit: &Variables) -> Result<Exits, Memory>
        ensures { IfOk result (λ x. exits_view x ≡
            the_limited (set_view limit.now) (exits_view self)) }
    {
        let list = limited_list(self.alloc, self.list, limit)?;
        Ok(Exits {
            alloc: self.alloc,
            list,
        })
    }

    /// The exits of both; before each, of the variables in `which` those of `yes`, and of all others those of `no`.
    #[tactic(auto, unfolding(crate::specs::ExitsView::exits_view), using(crate::proofs::Picks::picked_is))]
    pub fn pick(which: &Variables, yes: &Exits, no: &Exits) -> Result<Exits, Memory>
        ensures { IfOk result (λ x. exits_view x ≡
            picked (set_view which.now) (exits_view yes.now) (exits_view no.now)) }
    {
        let alloc = yes.alloc;
        let others = which.pick(&Variables::nothing(alloc), &Variables::everything(alloc))?;
        let mine = put_all(&yes.list, &others, Exits::none(alloc))?;
        put_all(&no.list, which, mine)
    }

    // One more exit; those by one way become one.
    #[tactic(auto, using(crate::proofs::Picks::put_is))]
    fn put(self, way: Way, before: Variables) -> Result<Exits, Memory>
        ensures { IfOk result (λ x. exits_view x ≡
            the_met (exits_view self) (exit_by way (set_view before))) }
    {
        let all = self.by(way)?.meet(&before)?;
        let one = Exits::one(self.alloc, way, all)?;
        self.beyond(way)?.met(one)
    }
}

// The exits of a list, each gaining something, beside others.
fn put_all(list: &[Exit], gain: &Variables, exits: Exits) -> Result<Exits, Memory>
    ensures { IfOk result (λ x. exits_view x ≡
        putting (set_view gain.now) list.now (exits_view exits)) }
{
    let mut all = exits;
    for exit in list {
        let before = exit.before.copy()?.join(gain)?;
        all = all.put(exit.way, before)?;
    }
    Ok(all)
}

fn before_all(alloc: Global, list: &[Exit], way: Way) -> Result<Variables, Memory>
    ensures { IfOk result (λ v. set_view v ≡ look everything list.now way) }
{
    let mut set = Variables::everything(alloc);
    for exit in list {
        if is_same(exit.way, way) {
            set = set.meet(&exit.before)?;
        }
    }
    Ok(set)
}

fn others(alloc: Global, list: Vec<Exit>, way: Way) -> Result<Vec<Exit>, Memory>
    ensures { IfOk result (λ v. v.items ≡ the_others way list.items) }
{
    let mut rest = Vec::new(alloc);
    for exit in list {
        if !is_same(exit.way, way) {
            rest.push(exit)?;
        }
    }
    Ok(rest)
}

fn gained(alloc: Global, list: Vec<Exit>, gain: &Variables) -> Result<Vec<Exit>, Memory>
    ensures { IfOk result (λ v. Each (λ s. either s (set_view gain.now)) list.items v.items) }
{
    let mut more = Vec::new(alloc);
    for exit in list {
        let before = exit.before.join(gain)?;
        more.push(Exit {
            way: exit.way,
            before,
        })?;
    }
    Ok(more)
}

fn limited_list(alloc: Global, list: Vec<Exit>, limit: &Variables) -> Result<Vec<Exit>, Memory>
    ensures { IfOk result (λ v. Each (λ s. both s (set_view limit.now)) list.items v.items) }
{
    let mut rest = Vec::new(alloc);
    for exit in list {
        let before = exit.before.meet(limit)?;
        rest.push(Exit {
            way: exit.way,
            before,
        })?;
    }
    Ok(rest)
}
