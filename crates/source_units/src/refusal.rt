// Why files have no units.

use host_text::Finding;
use je_base::Memory;
use std::alloc::AllocFailed;

/// Why files have no units.
#[derive(Clone, Copy, PartialEq, Eq)]
pub enum Refusal {
    /// Want of memory.
    Memory,
    /// The first fault.
    Fault(Finding),
}

impl From<Memory> for Refusal {
    ghost use Rattle.std.specs.Prelude.{◌≡◌};
    ghost use Rattle.source_units.specs.declared.refusal.Refusal.TheVariants.{Memory as memory};

    ghost from_gives = { λ _ e. e ≡ memory };

    fn from(_: Memory) -> Self {
        Refusal::Memory
    }
}

impl<T: Drop> From<AllocFailed<T>> for Refusal {
    ghost use Rattle.std.specs.Prelude.{◌≡◌};
    ghost use Rattle.source_units.specs.declared.refusal.Refusal.TheVariants.{Memory as memory};

    ghost from_gives = { λ _ e. e ≡ memory };

    fn from(_: AllocFailed<T>) -> Self {
        Refusal::Memory
    }
}
