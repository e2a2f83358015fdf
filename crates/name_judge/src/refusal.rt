// Why the names of a program are refused.

use je_base::Memory;
use name_faults::NameFault;

/// Why the names of a program are refused.
#[derive(Clone, Copy, PartialEq, Eq)]
pub enum Refusal {
    /// Want of memory.
    Memory,
    /// The first fault of a name.
    Fault(NameFault),
}

impl From<Memory> for Refusal {
    ghost use Rattle.std.specs.Prelude.{◌≡◌};
    ghost use Rattle.name_judge.specs.declared.refusal.Refusal.TheVariants.{Memory as memory};

    ghost from_gives = { λ _ e. e ≡ memory };

    fn from(_: Memory) -> Self {
        Refusal::Memory
    }
}
