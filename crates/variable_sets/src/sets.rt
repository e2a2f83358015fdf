// Sets of variables, as words of bits.

ghost use Rattle.std.specs.Prelude.{◌≡◌, ℕ, ◌<◌, ◌^◌, length, max, OnOk, IfOk, nat_eq, bit_and, bit_or, slice_index_or, if◌then◌else◌};
ghost use Rattle.variable_sets.specs.Sets.{everything as the_everything, nothing as the_nothing, both, either, adding, removing, pick as the_pick};
ghost use Rattle.variable_sets.specs.SetView.{set_view};
ghost use Rattle.variable_sets.specs.way.Words.{picked_word as the_picked_word};

use je_core::Memory;
use std::alloc::Global;

/// A set of variables: the bits of the first ones in words of 64, and one word for each 64 of the others.
#[derive(Drop)]
pub struct Variables {
    alloc: Global,
    words: Vec<u64>,
    rest: u64,
}

impl Variables {
    /// All variables.
    #[tactic(auto, unfolding(crate::specs::SetView::set_view), using(crate::proofs::Words::all_of_none))]
    pub fn everything(alloc: Global) -> Variables
        ensures { set_view result ≡ the_everything }
    {
        Variables {
            alloc,
            words: Vec::new(alloc),
            rest: u64::MAX,
        }
    }

    /// No variable.
    #[tactic(auto, unfolding(crate::specs::SetView::set_view), using(crate::proofs::Words::none_of_none))]
    pub fn nothing(alloc: Global) -> Variables
        ensures { set_view result ≡ the_nothing }
    {
        Variables {
            alloc,
            words: Vec::new(alloc),
            rest: 0,
        }
    }

    /// Whether a variable is in the set.
    #[tactic(auto, unfolding(crate::specs::SetView::set_view, crate::specs::way::Words::words_hold), using(std::proofs::lemmas::Nat::Bits::shr_and_one))]
    pub fn has(&self, variable: usize) -> bool
        ensures { result ≡ (set_view self.now).has variable }
    {
        let word = word_at(&self.words, self.rest, variable / 64);
        (word >> (variable % 64)) & 1 == 1
    }

    /// The same set again.
    #[tactic(auto, unfolding(crate::specs::SetView::set_view))]
    pub fn copy(&self) -> Result<Variables, Memory>
        ensures { IfOk result (λ v. set_view v ≡ set_view self.now) }
    {
        Ok(Variables {
            alloc: self.alloc,
            words: Vec::from_slice(self.alloc, &self.words)?,
            rest: self.rest,
        })
    }

    /// One more variable.
    #[tactic(auto, unfolding(crate::specs::SetView::set_view), using(crate::proofs::Words::words_adding))]
    pub fn insert(&mut self, variable: usize) -> Result<(), Memory>
        ensures { OnOk result (set_view self.new ≡ adding variable (set_view self.old)) }
    {
        let at = variable / 64;
        let word = word_at(&self.words, self.rest, at);
        set_word(
            &mut self.words,
            self.rest,
            at,
            word | (1 << (variable % 64)),
        )
    }

    /// One variable less.
    #[tactic(auto, unfolding(crate::specs::SetView::set_view), using(crate::proofs::Words::words_removing))]
    pub fn remove(&mut self, variable: usize) -> Result<(), Memory>
        ensures { OnOk result (set_view self.new ≡ removing variable (set_view self.old)) }
    {
        let at = variable / 64;
        let word = word_at(&self.words, self.rest, at);
        set_word(
            &mut self.words,
            self.rest,
            at,
            word & !(1 << (variable % 64)),
        )
    }

    /// The variables that are in one of the sets.
    #[tactic(auto, unfolding(crate::specs::SetView::set_view), using(crate::proofs::Words::words_either))]
    pub fn join(self, other: &Variables) -> Result<Variables, Memory>
        ensures { IfOk result (λ v. set_view v ≡ either (set_view self) (set_view other.now)) }
    {
        let words = words_of_either(self.alloc, &self.words, self.rest, &other.words, other.rest)?;
        Ok(Variables {
            alloc: self.alloc,
            words,
            rest: self.rest | other.rest,
        })
    }

    /// The variables that are in both sets.
    #[tactic(auto, unfolding(crate::specs::SetView::set_view), using(crate::proofs::Words::words_both))]
    pub fn meet(self, other: &Variables) -> Result<Variables, Memory>
        ensures { IfOk result (λ v. set_view v ≡ both (set_view self) (set_view other.now)) }
    {
        let words = words_of_both(self.alloc, &self.words, self.rest, &other.words, other.rest)?;
        Ok(Variables {
            alloc: self.alloc,
            words,
            rest: self.rest & other.rest,
        })
    }

    /// Of this set's variables those that are in `yes`, and of all others those that are in `no`.
    #[tactic(auto, unfolding(crate::specs::SetView::set_view), using(crate::proofs::Picks::words_picked))]
    pub fn pick(&self, yes: &Variables, no: &Variables) -> Result<Variables, Memory>
        ensures { IfOk result (λ v. set_view v ≡
            the_pick (set_view self.now) (set_view yes.now) (set_view no.now)) }
    {
        let words = words_picked(self, yes, no)?;
        Ok(Variables {
            alloc: self.alloc,
            words,
            rest: picked_word(self.rest, yes.rest, no.rest),
        })
    }
}

// Of three words the bits of `yes` where those of `which` are 1, and those of `no` elsewhere.
fn picked_word(which: u64, yes: u64, no: u64) -> u64
    ensures { result ≡ the_picked_word which yes no }
{
    no ^ ((yes ^ no) & which)
}

// The word at a place, and `rest` behind the last one.
fn word_at(words: &[u64], rest: u64, at: usize) -> u64
    ensures { result ≡ slice_index_or words.now at rest }
{
    if at < words.len() { words[at] } else { rest }
}

// Puts a word at a place, whatever words are missing before it.
fn set_word(words: &mut Vec<u64>, rest: u64, at: usize, word: u64) -> Result<(), Memory>
    requires { at < 2 ^ 58 }
    ensures { OnOk result ((k : ℕ) → slice_index_or words.new.items k rest ≡
        (if nat_eq k at then word else slice_index_or words.old.items k rest)) }
{
    grow(words, rest, at)?;
    words[at] = word;
    Ok(())
}

// Has a word at a place and at each before it.
fn grow(words: &mut Vec<u64>, rest: u64, at: usize) -> Result<(), Memory>
    requires { at < 2 ^ 58 }
    ensures long { OnOk result (at < length words.new.items) }
    ensures same { OnOk result ((k : ℕ) →
        slice_index_or words.new.items k rest ≡ slice_index_or words.old.items k rest) }
{
    for _end in words.len()..at + 1 {
        words.push(rest)?;
    }
    Ok(())
}

fn words_of_both(
    alloc: Global,
    one: &[u64],
    one_rest: u64,
    other: &[u64],
    other_rest: u64,
) -> Result<Vec<u64>, Memory>
    ensures { IfOk result (λ v. (k : ℕ) → slice_index_or v.items k (bit_and one_rest other_rest)
        ≡ bit_and (slice_index_or one.now k one_rest) (slice_index_or other.now k other_rest)) }
{
    let mut words = Vec::new(alloc);
    let end = if one.len() < other.len() {
        other.len()
    } else {
        one.len()
    };
    for k in 0..end {
        words.push(word_at(one, one_rest, k) & word_at(other, other_rest, k))?;
    }
    Ok(words)
}

fn words_of_either(
    alloc: Global,
    one: &[u64],
    one_rest: u64,
    other: &[u64],
    other_rest: u64,
) -> Result<Vec<u64>, Memory>
    ensures { IfOk result (λ v. (k : ℕ) → slice_index_or v.items k (bit_or one_rest other_rest)
        ≡ bit_or (slice_index_or one.now k one_rest) (slice_index_or other.now k other_rest)) }
{
    let mut words = Vec::new(alloc);
    let end = if one.len() < other.len() {
        other.len()
    } else {
        one.len()
    };
    for k in 0..end {
        words.push(word_at(one, one_rest, k) | word_at(other, other_rest, k))?;
    }
    Ok(words)
}

fn words_picked(which: &Variables, yes: &Variables, no: &Variables) -> Result<Vec<u64>, Memory>
    ensures { IfOk result (λ v. (k : ℕ) →
        slice_index_or v.items k (the_picked_word which.now.rest yes.now.rest no.now.rest)
        ≡ the_picked_word (slice_index_or which.now.words.items k which.now.rest)
        (slice_index_or yes.now.words.items k yes.now.rest) (slice_index_or no.now.words.items k no.now.rest)) }
{
    let mut words = Vec::new(which.alloc);
    let end = longest(which.words.len(), longest(yes.words.len(), no.words.len()));
    for k in 0..end {
        let of_which = word_at(&which.words, which.rest, k);
        let of_yes = word_at(&yes.words, yes.rest, k);
        let of_no = word_at(&no.words, no.rest, k);
        words.push(picked_word(of_which, of_yes, of_no))?;
    }
    Ok(words)
}

fn longest(one: usize, other: usize) -> usize
    ensures { result ≡ max one other }
{
    if one < other { other } else { one }
}
