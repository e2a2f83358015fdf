// Why a program isn't accepted.

use host_text::Finding;
use je_base::{Memory, NameId};
use je_core::ClassId;
use source_programs::FrontFault;
use std::alloc::Global;

/// Why a program isn't accepted.
#[derive(Drop)]
pub enum Refusal {
    /// Want of memory.
    Memory,
    /// What is found in the program, at least one finding.
    Found(Vec<Finding>),
    /// Nothing is found before the rules, but of the core program the member of that name of the class, or the class
    /// itself under its own name, doesn't fit. It is to go: `docs/DECISIONS.md` says for which sources it comes.
    Misfit(ClassId, NameId),
}

impl From<Memory> for Refusal {
    ghost use Rattle.std.specs.Prelude.{◌≡◌};
    ghost use Rattle.je_top.specs.declared.refusal.Refusal.TheVariants.{Memory as memory};

    ghost from_gives = { λ _ e. e ≡ memory };

    fn from(_: Memory) -> Self {
        Refusal::Memory
    }
}
