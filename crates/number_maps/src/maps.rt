// Binary trees over the bits of a key, from the lowest on, in one list of nodes.

ghost use Rattle.std.specs.Prelude.{◌≡◌};
ghost use Rattle.number_maps.specs.way.Nodes.{BeginsEmpty, value_of};

use je_base::Memory;
use std::alloc::Global;

// What is left of a map for even and for odd keys, behind a bit.
#[derive(Clone, Copy, Drop)]
struct Node {
    even: usize,
    odd: usize,
}

/// Maps from numbers of so many bits to numbers, each known by its first node; 0 is the empty one.
#[derive(Drop)]
pub struct Maps {
    bits: u32,
    // The first is that of the empty map. Behind the last bit stands no node but a value, one more than it is, or 0 for none.
    nodes: Vec<Node>,
    pub ghost begins: { BeginsEmpty nodes.items },
}

// A value behind the last bit.
fn value_at(at: usize) -> Option<usize>
    ensures { result ≡ value_of at }
{
    if at == 0 { None } else { Some(at - 1) }
}

impl Maps {
    ghost use Rattle.std.specs.Prelude.{◌≡◌, ◌<◌, ◌^◌, true, IfOk, OnOk, OnErr};
    ghost use Rattle.number_maps.specs.Maps.{family, IsEmpty, IsMap, Keeps, HasMore};
    ghost use Rattle.number_maps.specs.way.Nodes.{BeginsEmpty, Grows, IsNode, IsWith, bit_of, child as the_child, found, is_tree, value_of};

    /// No map but the empty one.
    #[tactic(auto, using(crate::proofs::Sharing::bits_are))]
    pub fn new(alloc: Global, bits: u32) -> Result<Maps, Memory>
        ensures bits { IfOk result (λ maps. (family maps).bits ≡ bits) }
        ensures empty { IfOk result (λ maps. IsEmpty (family maps) 0) }
    {
        let mut nodes = Vec::new(alloc);
        nodes.push(Node { even: 0, odd: 0 })?;
        Ok(Maps { bits, nodes })
    }

    // What is left of a map behind a bit.
    fn child(&self, at: usize, is_odd: bool) -> usize
        ensures { result ≡ the_child self.now.nodes.items at (bit_of is_odd) }
    {
        match self.nodes.get(at) {
            None => 0,
            Some(node) if is_odd => node.odd,
            Some(node) => node.even,
        }
    }

    // A node of what is left for even and for odd keys.
    fn node(&mut self, even: usize, odd: usize) -> Result<usize, Memory>
        ensures bits { self.new.bits ≡ self.old.bits }
        ensures grows { Grows self.old.nodes.items self.new.nodes.items }
        ensures made { IfOk result (IsNode self.new.nodes.items even odd) }
    {
        let at = self.nodes.len();
        self.nodes.push(Node { even, odd })?;
        Ok(at)
    }

    // A map of keys of so many bits with one key more, or another value for it.
    fn extended(&mut self, bits: u32, at: usize, key: u32, value: u32) -> Result<usize, Memory>
        requires there { is_tree self.old.nodes.items bits at ≡ true }
        ensures bits { self.new.bits ≡ self.old.bits }
        ensures grows { Grows self.old.nodes.items self.new.nodes.items }
        ensures made { IfOk result (λ map. IsWith self.new.nodes.items bits map
            (found self.old.nodes.items bits at) key value) }
    {
        if bits == 0 {
            return Ok(value as usize + 1);
        }
        let (even, odd) = (self.child(at, false), self.child(at, true));
        if key % 2 == 0 {
            let even = self.extended(bits - 1, even, key / 2, value)?;
            let map = self.node(even, odd)?;
            Ok(map)
        } else {
            let odd = self.extended(bits - 1, odd, key / 2, value)?;
            let map = self.node(even, odd)?;
            Ok(map)
        }
    }

    /// A map with one key more, or with another value for a key.
    pub fn with(&mut self, map: usize, key: u32, value: u32) -> Result<usize, Memory>
        requires there { IsMap (family self.old) map }
        requires key { key < 2 ^ (family self.old).bits }
        ensures keeps { Keeps (family self.old) (family self.new) }
        ensures made { IfOk result
            (HasMore (family self.old) (family self.new) map key value) }
    {
        let made = self.extended(self.bits, map, key, value)?;
        Ok(made)
    }

    /// What a map has for a key; None exactly where it has nothing.
    #[tactic(auto, unfolding(crate::specs::Maps::family))]
    pub fn get(&self, map: usize, key: u32) -> Option<usize>
        ensures { result ≡ (family self.now).value map key }
    {
        let mut at = map;
        let mut rest = key;
        let mut left = self.bits;
        while left > 0 {
            at = self.child(at, rest % 2 == 1);
            rest /= 2;
            left -= 1;
        }
        value_at(at)
    }
}
