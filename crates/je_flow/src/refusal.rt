// Why a program is refused by the rules of flow.

use flow_base::FlowFault;
use je_core::Memory;

/// Why a program is refused by the rules of flow.
#[derive(Clone, Copy, PartialEq, Eq)]
pub enum Refusal {
    /// Want of memory.
    Memory,
    /// The first fault.
    Fault(FlowFault),
}

impl From<Memory> for Refusal {
    ghost use Rattle.std.specs.Prelude.{◌≡◌};
    ghost use Rattle.je_flow.specs.declared.refusal.Refusal.TheVariants.{Memory as memory};

    ghost from_gives = { λ _ e. e ≡ memory };

    fn from(_: Memory) -> Self {
        Refusal::Memory
    }
}
