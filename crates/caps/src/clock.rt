// A clock in memory.

ghost use Rattle.std.specs.Prelude.{◌≡◌, [], Some};
ghost use Rattle.caps.specs.States.{clock};
ghost use Rattle.caps.specs.declared.request.Kind.TheVariants as kind;

use crate::device::{Device, DeviceFault};
use crate::request::{DeviceAnswer, Kind, Request};
use planned_faults::Calls;

/// A clock in memory: its time goes on by the same step with each answer, and wraps at 64 bits.
#[derive(Drop)]
pub struct MemoryClock {
    time: i64,
    step: i64,
    calls: Calls,
    faults: u64,
}

impl MemoryClock {
    /// A clock with its time and its step. `fails` has the numbers, from 1, of the calls that fail.
    pub fn new(time: i64, step: i64, fails: Vec<u64>) -> Self
        ensures kind { ⟦<MemoryClock as Device>⟧.kind result ≡ kind.Clock }
        ensures told { ⟦<MemoryClock as Device>⟧.told result ≡ Some (clock time step) }
        ensures faults { ⟦<MemoryClock as Device>⟧.faults result ≡ 0 }
        ensures calm { fails.items ≡ [] → ⟦<MemoryClock as Device>⟧.is_calm result }
    {
        MemoryClock {
            time,
            step,
            calls: Calls::new(fails),
            faults: 0,
        }
    }
}

impl Device for MemoryClock {
    ghost kind = { λ _. kind.Clock };

    ghost told = { λ s. Some (clock s.time s.step) };

    ghost faults = { λ s. s.faults };

    ghost is_calm = { λ s. s.calls.to_fail ≡ [] };

    fn kind(&self) -> Kind {
        Kind::Clock
    }

    fn ask(&mut self, request: &Request) -> Result<DeviceAnswer, DeviceFault> {
        if self.calls.next_fails() {
            self.faults = self.faults.saturating_add(1);
            return Err(DeviceFault::Failed);
        }
        match request {
            Request::Now => {
                let time = self.time;
                self.time = time.wrapping_add(self.step);
                Ok(DeviceAnswer::Number(time))
            }
            _ => unreachable!(),
        }
    }
}
