// A store in memory.

ghost use Rattle.std.specs.Prelude.{◌≡◌, [], Some, IsTrue, IfOk, OnOk, OnErr, option_map, position};
ghost use Rattle.std.specs.List.{list_all};
ghost use Rattle.caps.specs.Forms.{is_keeping, is_kept_text};
ghost use Rattle.caps.specs.Small.{is_small_pair};
ghost use Rattle.caps.specs.States.{store};
ghost use Rattle.caps.specs.Table.{found_answer, is_under, kept, kept_answer, refusal as the_refusal, text_under as the_text_under, with_text};
ghost use Rattle.caps.specs.declared.request.Kind.TheVariants as kind;

use crate::device::{Device, DeviceFault};
use crate::request::{DeviceAnswer, Kind, Request};
use je_base::{Memory, Units};
use planned_faults::Calls;
use std::alloc::Global;
use text_members::{copied, is_same_text};

/// A key with the text that is kept under it.
#[derive(Drop)]
pub struct Pair {
    /// The key.
    pub key: Units,
    /// The text.
    pub text: Units,
}

/// A store in memory: it keeps texts under keys.
#[derive(Drop)]
pub struct MemoryStore {
    alloc: Global,
    pairs: Vec<Pair>,
    calls: Calls,
    faults: u64,
    ghost small: { IsTrue (list_all is_small_pair pairs.items) },
}

impl MemoryStore {
    /// A store with these pairs. `fails` has the numbers, from 1, of the calls that fail.
    pub fn new(alloc: Global, pairs: Vec<Pair>, fails: Vec<u64>) -> Self
        requires { IsTrue (list_all is_small_pair pairs.items) }
        ensures kind { ⟦<MemoryStore as Device>⟧.kind result ≡ kind.Store }
        ensures told { ⟦<MemoryStore as Device>⟧.told result ≡ Some (store pairs.items) }
        ensures faults { ⟦<MemoryStore as Device>⟧.faults result ≡ 0 }
        ensures calm { fails.items ≡ [] → ⟦<MemoryStore as Device>⟧.is_calm result }
    {
        MemoryStore {
            alloc,
            pairs,
            calls: Calls::new(fails),
            faults: 0,
        }
    }

    // The text under a key.
    #[tactic(auto, using(crate::proofs::Stores::copy_small))]
    fn get(&self, key: &[u16]) -> Result<DeviceAnswer, Memory>
        ensures answer { IfOk result (λ answer. answer ≡
            found_answer (the_text_under key.now self.now.pairs.items)) }
        ensures form { IfOk result (λ answer. IsTrue (is_kept_text answer)) }
    {
        match text_under(&self.pairs, key) {
            Some(text) => Ok(DeviceAnswer::Text(copied(self.alloc, text.as_slice())?)),
            None => Ok(DeviceAnswer::NoText),
        }
    }

    // Keeps a text under a key, or says why it doesn't.
    #[tactic(auto, using(crate::proofs::Stores::keeps_or_refuses))]
    fn put(&mut self, key: &[u16], text: &[u16]) -> Result<DeviceAnswer, Memory>
        ensures answer { IfOk result (λ answer. answer ≡
            kept_answer (the_refusal key.now text.now self.old.pairs.items)) }
        ensures form { IfOk result (λ answer. IsTrue (is_keeping answer)) }
        ensures pairs { OnOk result (self.new.pairs.items ≡ kept key.now text.now
            self.old.pairs.items) }
        ensures err { OnErr result (self.new.pairs.items ≡ self.old.pairs.items) }
        ensures calls { self.new.calls ≡ self.old.calls }
        ensures faults { self.new.faults ≡ self.old.faults }
    {
        if let Some(reason) = refusal(&self.pairs, key, text) {
            return Ok(DeviceAnswer::Refused(reason));
        }
        keep(self.alloc, &mut self.pairs, key, text)?;
        Ok(DeviceAnswer::Void)
    }
}

impl Device for MemoryStore {
    ghost kind = { λ _. kind.Store };

    ghost told = { λ s. Some (store s.pairs.items) };

    ghost faults = { λ s. s.faults };

    ghost is_calm = { λ s. s.calls.to_fail ≡ [] };

    fn kind(&self) -> Kind {
        Kind::Store
    }

    fn ask(&mut self, request: &Request) -> Result<DeviceAnswer, DeviceFault> {
        if self.calls.next_fails() {
            self.faults = self.faults.saturating_add(1);
            return Err(DeviceFault::Failed);
        }
        let answer = match request {
            Request::GetText { key } => self.get(key.as_slice()),
            Request::PutText { key, text } => self.put(key.as_slice(), text.as_slice()),
            _ => unreachable!(),
        };
        match answer {
            Ok(answer) => Ok(answer),
            Err(Memory) => Err(DeviceFault::Memory),
        }
    }
}

// The text that is kept under a key.
fn text_under<'a>(pairs: &'a [Pair], key: &[u16]) -> Option<&'a Units>
    ensures { option_map (λ text. text.now) result ≡ the_text_under key.now pairs.now }
{
    for pair in pairs {
        if is_same_text(pair.key.as_slice(), key) {
            return Some(&pair.text);
        }
    }
    None
}

// Why a text isn't kept under a key.
fn refusal(pairs: &[Pair], key: &[u16], text: &[u16]) -> Option<i32>
    ensures { result ≡ the_refusal key.now text.now pairs.now }
{
    if key.len() > 64 {
        Some(2)
    } else if text.len() > 4_096 {
        Some(3)
    } else if text_under(pairs, key).is_none() && pairs.len() >= 256 {
        Some(4)
    } else {
        None
    }
}

// Puts a text in the place of that under its key, or a new pair behind the others.
#[tactic(auto, using(crate::proofs::Stores::kept_at, crate::proofs::Stores::added_where))]
fn keep(alloc: Global, pairs: &mut Vec<Pair>, key: &[u16], text: &[u16]) -> Result<(), Memory>
    ensures ok { OnOk result (pairs.new.items ≡ with_text key.now text.now pairs.old.items) }
    ensures err { OnErr result (pairs.new.items ≡ pairs.old.items) }
{
    let text = copied(alloc, text)?;
    match place_of(pairs, key) {
        Some(at) => pairs[at].text = text,
        None => {
            let key = copied(alloc, key)?;
            pairs.push(Pair { key, text })?;
        }
    }
    Ok(())
}

// The place of the pair of a key.
fn place_of(pairs: &[Pair], key: &[u16]) -> Option<usize>
    ensures { result ≡ position (is_under key.now) pairs.now }
{
    pairs
        .iter()
        .position(|pair| is_same_text(pair.key.as_slice(), key))
}
