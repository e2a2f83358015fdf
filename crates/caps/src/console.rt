// A console in memory.

ghost use Rattle.std.specs.Prelude.{◌≡◌, [], Some};
ghost use Rattle.caps.specs.States.{console};
ghost use Rattle.caps.specs.declared.request.Kind.TheVariants as kind;

use crate::device::{Device, DeviceFault};
use crate::request::{DeviceAnswer, Kind, Request};
use je_base::Units;
use planned_faults::Calls;
use std::alloc::Global;
use text_members::copied;

/// A console in memory: it keeps all texts that are printed.
#[derive(Drop)]
pub struct MemoryConsole {
    alloc: Global,
    texts: Vec<Units>,
    calls: Calls,
    faults: u64,
}

impl MemoryConsole {
    /// A console on which nothing was printed. `fails` has the numbers, from 1, of the calls that fail.
    pub fn new(alloc: Global, fails: Vec<u64>) -> Self
        ensures kind { ⟦<MemoryConsole as Device>⟧.kind result ≡ kind.Console }
        ensures told { ⟦<MemoryConsole as Device>⟧.told result ≡ Some (console []) }
        ensures faults { ⟦<MemoryConsole as Device>⟧.faults result ≡ 0 }
        ensures calm { fails.items ≡ [] → ⟦<MemoryConsole as Device>⟧.is_calm result }
    {
        MemoryConsole {
            alloc,
            texts: Vec::new(alloc),
            calls: Calls::new(fails),
            faults: 0,
        }
    }

    /// The texts that were printed, in order.
    pub fn texts(&self) -> &[Units]
        ensures { ⟦<MemoryConsole as Device>⟧.told self.now ≡ Some (console result.now) }
    {
        &self.texts
    }
}

impl Device for MemoryConsole {
    ghost kind = { λ _. kind.Console };

    ghost told = { λ s. Some (console s.texts.items) };

    ghost faults = { λ s. s.faults };

    ghost is_calm = { λ s. s.calls.to_fail ≡ [] };

    fn kind(&self) -> Kind {
        Kind::Console
    }

    fn ask(&mut self, request: &Request) -> Result<DeviceAnswer, DeviceFault> {
        if self.calls.next_fails() {
            self.faults = self.faults.saturating_add(1);
            return Err(DeviceFault::Failed);
        }
        match request {
            Request::Print { text } => {
                let Ok(text) = copied(self.alloc, text.as_slice()) else {
                    return Err(DeviceFault::Memory);
                };
                if self.texts.push(text).is_err() {
                    return Err(DeviceFault::Memory);
                }
                Ok(DeviceAnswer::Void)
            }
            _ => unreachable!(),
        }
    }
}
