// Why tokens aren't read.

use je_base::{Memory, Span};

/// Why tokens aren't read.
#[derive(Clone, Copy, PartialEq, Eq)]
pub enum ParseFault {
    /// Want of memory.
    Memory,
    /// No tree spells them.
    Syntax(Span),
}

impl From<Memory> for ParseFault {
    ghost use Rattle.std.specs.Prelude.{◌≡◌};
    ghost use Rattle.parse_expr.specs.declared.fault.ParseFault.TheVariants.{Memory as memory};

    ghost from_gives = { λ _ e. e ≡ memory };

    fn from(_: Memory) -> Self {
        ParseFault::Memory
    }
}
