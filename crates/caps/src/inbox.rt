// An inbox in memory.

ghost use Rattle.std.specs.Prelude.{◌≡◌, [], Some, IsTrue};
ghost use Rattle.std.specs.List.{list_all};
ghost use Rattle.caps.specs.Forms.{is_small};
ghost use Rattle.caps.specs.States.{inbox};
ghost use Rattle.caps.specs.declared.request.Kind.TheVariants as kind;

use crate::device::{Device, DeviceFault};
use crate::request::{DeviceAnswer, Kind, Request};
use je_base::Units;
use planned_faults::Calls;
use std::collections::VecDeque;

/// An inbox in memory: it hands out the texts that wait in it.
#[derive(Drop)]
pub struct MemoryInbox {
    texts: VecDeque<Units>,
    calls: Calls,
    faults: u64,
    ghost small: { IsTrue (list_all is_small texts.items) },
}

impl MemoryInbox {
    /// An inbox with these texts, the first one to be handed out first. `fails` has the numbers, from 1, of the calls that fail.
    pub fn new(texts: VecDeque<Units>, fails: Vec<u64>) -> Self
        requires { IsTrue (list_all is_small texts.items) }
        ensures kind { ⟦<MemoryInbox as Device>⟧.kind result ≡ kind.Inbox }
        ensures told { ⟦<MemoryInbox as Device>⟧.told result ≡ Some (inbox texts.items) }
        ensures faults { ⟦<MemoryInbox as Device>⟧.faults result ≡ 0 }
        ensures calm { fails.items ≡ [] → ⟦<MemoryInbox as Device>⟧.is_calm result }
    {
        MemoryInbox {
            texts,
            calls: Calls::new(fails),
            faults: 0,
        }
    }
}

impl Device for MemoryInbox {
    ghost kind = { λ _. kind.Inbox };

    ghost told = { λ s. Some (inbox s.texts.items) };

    ghost faults = { λ s. s.faults };

    ghost is_calm = { λ s. s.calls.to_fail ≡ [] };

    fn kind(&self) -> Kind {
        Kind::Inbox
    }

    fn ask(&mut self, request: &Request) -> Result<DeviceAnswer, DeviceFault> {
        if self.calls.next_fails() {
            self.faults = self.faults.saturating_add(1);
            return Err(DeviceFault::Failed);
        }
        match request {
            Request::Next => match self.texts.pop_front() {
                Some(text) => Ok(DeviceAnswer::Text(text)),
                None => Ok(DeviceAnswer::Refused(1)),
            },
            _ => unreachable!(),
        }
    }
}
