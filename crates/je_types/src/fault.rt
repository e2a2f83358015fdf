// Why a program isn't taken.

use je_core::{ClassId, Memory, NameId};

/// Why a program is refused.
#[derive(Clone, Copy, PartialEq, Eq)]
pub enum CheckFault {
    /// Want of memory.
    Memory,
    /// The member of that name of the class, or the class itself under its own name, is the first part that doesn't fit.
    Misfit(ClassId, NameId),
}

impl From<Memory> for CheckFault {
    ghost use Rattle.std.specs.Prelude.{◌≡◌};
    ghost use Rattle.je_types.specs.declared.fault.CheckFault.TheVariants.{Memory as memory};

    ghost from_gives = { λ _ e. e ≡ memory };

    fn from(_: Memory) -> Self {
        CheckFault::Memory
    }
}
