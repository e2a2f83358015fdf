// Classes that depend on themselves (JLS 8.1.4, 9.1.3).

ghost use Rattle.std.specs.Prelude.{◌≡◌, ◌↔◌, ◌<◌, ◌≤◌, ◌^◌, ℕ, IfOk, IsTrue, length, nat_lt, slice_get, slice_index, Some, true};
ghost use Rattle.std.specs.List.{Contains, list_all};
ghost use Rattle.je_scopes.specs.Laws.{HasLibrary};
ghost use Rattle.je_scopes.specs.Settled.{settled};
ghost use Rattle.je_scopes.specs.Settled as specs;
ghost use Rattle.name_sites.specs.View.{source_of};
ghost use Rattle.name_lookup.specs.View.{numbers, known_of};
ghost use Rattle.name_lookup.specs.Table.{AreHeadersOf};
ghost use Rattle.scope_laws.specs.Ways.{Leads, IsGrounding};
ghost use Rattle.name_cycles.specs.Graph.{depends_on, AreDependencesOf};

use crate::order::Order;
use indexmap::IndexSet;
use je_base::Memory;
use je_core::ClassId;
use name_lookup::{Headers, add_all};
use name_sites::Sites;
use std::alloc::Global;

/// Of each class the classes on which it directly depends.
#[derive(Drop)]
pub struct Dependences {
    pub(crate) lists: Vec<Vec<ClassId>>,
}

/// Of each class the classes that its header names, as qualifiers too, type arguments aside.
pub fn read_dependences(
    alloc: Global,
    sites: &Sites,
    headers: &Headers,
) -> Result<Dependences, Memory>
    requires fits { AreHeadersOf (source_of sites.now) headers.now }
    requires settled { settled (source_of sites.now) ≡ known_of headers.now }
    ensures { IfOk result (AreDependencesOf (source_of sites.now)) }
{
    let mut lists = Vec::new(alloc);
    for at in 0..sites.len() {
        lists.push(dependences_of(alloc, sites, headers, ClassId(at as u32))?)?;
    }
    Ok(Dependences { lists })
}

// The classes that the header of a class names.
fn dependences_of(
    alloc: Global,
    sites: &Sites,
    headers: &Headers,
    class: ClassId,
) -> Result<Vec<ClassId>, Memory>
    requires fits { AreHeadersOf (source_of sites.now) headers.now }
    requires settled { settled (source_of sites.now) ≡ known_of headers.now }
    ensures { IfOk result
        (λ list. numbers list.items ≡ specs.dependences (source_of sites.now) class.0) }
{
    let mut list = Vec::new(alloc);
    let mut at = 0;
    while let Some(head) = sites.head(class, at) {
        let meant = headers.head_meaning(alloc, sites, class, head)?;
        list.extend_from_slice(meant.named.as_slice())?;
        at += 1;
    }
    Ok(list)
}

/// Of each class whether it depends on itself.
pub fn on_cycles(alloc: Global, sites: &Sites, graph: &Dependences) -> Result<Vec<bool>, Memory>
    requires library { HasLibrary (source_of sites.now) }
    requires fits { AreDependencesOf (source_of sites.now) graph.now }
    ensures whole { IfOk result (λ list. length list.items ≡ length (source_of sites.now).sites) }
    ensures each { IfOk result
        (λ list. (c : ℕ) → c < length (source_of sites.now).sites → slice_get list.items c ≡
        Some (specs.depends (source_of sites.now) c c)) }
{
    let count = sites.len();
    let ranks = graph.ranks(alloc)?;
    let mut list = Vec::new(alloc);
    for at in 0..count {
        list.push(graph.is_on_cycle(alloc, ranks.as_slice(), ClassId(at as u32))?)?;
    }
    Ok(list)
}

/// Whether a class depends on another one; it looks at all on which it depends.
pub fn depends(
    alloc: Global,
    sites: &Sites,
    graph: &Dependences,
    class: ClassId,
    other: ClassId,
) -> Result<bool, Memory>
    requires library { HasLibrary (source_of sites.now) }
    requires fits { AreDependencesOf (source_of sites.now) graph.now }
    ensures { IfOk result
        (λ depends. depends ≡ specs.depends (source_of sites.now) class.0 other.0) }
{
    graph.leads(alloc, class, other)
}

impl Dependences {
    #[tactic(auto, unfolding(crate::specs::Graph::depends_on))]
    fn of(&self, class: ClassId) -> &[ClassId]
        ensures { numbers result.now ≡ depends_on self.now class.0 }
    {
        match self.lists.get(class.0 as usize) {
            Some(list) => list.as_slice(),
            None => &[],
        }
    }

    // Whether a class leads back to itself, which none with a rank does.
    fn is_on_cycle(&self, alloc: Global, ranks: &[usize], class: ClassId) -> Result<bool, Memory>
        requires grounding { IsGrounding (depends_on self.now) ranks.now }
        requires within { (c d : ℕ) → Contains (depends_on self.now c) d →
            d < length self.now.lists.items }
        ensures { IfOk result (λ back. IsTrue back ↔ Leads (depends_on self.now) class.0 class.0) }
    {
        if is_ranked(ranks, class) {
            return Ok(false);
        }
        self.leads(alloc, class, class)
    }

    // Whether a class leads to another one: whether that is among all to which it leads.
    fn leads(&self, alloc: Global, from: ClassId, to: ClassId) -> Result<bool, Memory>
        requires within { (c d : ℕ) → Contains (depends_on self.now c) d →
            d < length self.now.lists.items }
        ensures { IfOk result (λ leads. IsTrue leads ↔ Leads (depends_on self.now) from.0 to.0) }
    {
        let mut met = IndexSet::new(alloc);
        add_all(&mut met, self.of(from))?;
        let mut at = 0;
        while let Some(next) = met.get_index(at).copied() {
            add_all(&mut met, self.of(next))?;
            at += 1;
        }
        Ok(met.contains(&to))
    }

    // Of each class that leads to no cycle a number above 0, greater than those of all on which it directly depends; of the others
    // 0, in as far as they are found.
    fn ranks(&self, alloc: Global) -> Result<Vec<usize>, Memory>
        requires { length self.now.lists.items < 2 ^ 32 }
        ensures whole { IfOk result (λ ranks. length ranks.items ≡ length self.now.lists.items) }
        ensures grounding { IfOk result (λ ranks. IsGrounding (depends_on self.now) ranks.items) }
    {
        let mut order = Order::new(alloc, self.lists.len())?;
        let mut ranks = Vec::new(alloc);
        for at in 0..self.lists.len() {
            let class = ClassId(at as u32);
            order.add(class, self.of(class))?;
            ranks.push(0)?;
        }
        for before in 0..self.lists.len() {
            let Some(class) = order.next()? else {
                break;
            };
            self.rank(&mut ranks, class, before + 1);
        }
        Ok(ranks)
    }

    // Gives a class this rank, if it has none and all on which it directly depends have one.
    fn rank(&self, ranks: &mut Vec<usize>, class: ClassId, rank: usize)
        requires grounding { IsGrounding (depends_on self.now) ranks.old.items }
        requires least { (c : ℕ) → slice_index ranks.old.items c < rank }
        ensures whole { length ranks.new.items ≡ length ranks.old.items }
        ensures grounding { IsGrounding (depends_on self.now) ranks.new.items }
        ensures least { (c : ℕ) → slice_index ranks.new.items c ≤ rank }
    {
        let at = class.0 as usize;
        if at >= ranks.len() || !can_rank(ranks.as_slice(), class, self.of(class)) {
            return;
        }
        ranks[at] = rank;
    }
}

// Whether a class has a rank.
fn is_ranked(ranks: &[usize], class: ClassId) -> bool
    ensures { result ≡ nat_lt 0 (slice_index ranks.now class.0) }
{
    let at = class.0 as usize;
    at < ranks.len() && ranks[at] > 0
}

// Whether a class has no rank yet, and each of these has one.
fn can_rank(ranks: &[usize], class: ClassId, above: &[ClassId]) -> bool
    ensures new { result ≡ true → slice_index ranks.now class.0 ≡ 0 }
    ensures above { result ≡ true → (d : ℕ) → Contains (numbers above.now) d →
        0 < slice_index ranks.now d }
{
    !is_ranked(ranks, class) && are_ranked(ranks, above)
}

// Whether each of these has a rank.
fn are_ranked(ranks: &[usize], classes: &[ClassId]) -> bool
    ensures { result ≡ list_all (λ c. nat_lt 0 (slice_index ranks.now c.0)) classes.now }
{
    classes.iter().all(|class| is_ranked(ranks, *class))
}
