// A cell in memory.

ghost use Rattle.std.specs.Prelude.{◌≡◌, [], Some};
ghost use Rattle.caps.specs.States.{cell};
ghost use Rattle.caps.specs.declared.request.Kind.TheVariants as kind;

use crate::device::{Device, DeviceFault};
use crate::request::{DeviceAnswer, Kind, Request};
use planned_faults::Calls;

/// A cell in memory: it keeps a number.
#[derive(Drop)]
pub struct MemoryCell {
    number: i64,
    calls: Calls,
    faults: u64,
}

impl MemoryCell {
    /// A cell with a number. `fails` has the numbers, from 1, of the calls that fail.
    pub fn new(number: i64, fails: Vec<u64>) -> Self
        ensures kind { ⟦<MemoryCell as Device>⟧.kind result ≡ kind.Cell }
        ensures told { ⟦<MemoryCell as Device>⟧.told result ≡ Some (cell number) }
        ensures faults { ⟦<MemoryCell as Device>⟧.faults result ≡ 0 }
        ensures calm { fails.items ≡ [] → ⟦<MemoryCell as Device>⟧.is_calm result }
    {
        MemoryCell {
            number,
            calls: Calls::new(fails),
            faults: 0,
        }
    }
}

impl Device for MemoryCell {
    ghost kind = { λ _. kind.Cell };

    ghost told = { λ s. Some (cell s.number) };

    ghost faults = { λ s. s.faults };

    ghost is_calm = { λ s. s.calls.to_fail ≡ [] };

    fn kind(&self) -> Kind {
        Kind::Cell
    }

    fn ask(&mut self, request: &Request) -> Result<DeviceAnswer, DeviceFault> {
        if self.calls.next_fails() {
            self.faults = self.faults.saturating_add(1);
            return Err(DeviceFault::Failed);
        }
        match request {
            Request::GetNumber => Ok(DeviceAnswer::Number(self.number)),
            Request::SetNumber { number } => {
                self.number = *number;
                Ok(DeviceAnswer::Void)
            }
            _ => unreachable!(),
        }
    }
}
