// Why sources are refused.

use host_text::Finding;
use je_base::NameId;
use je_core::ClassId;
use je_types::CheckFault;
use source_units::Refusal;

/// Why sources are refused.
#[derive(Clone, Copy, PartialEq, Eq)]
pub enum FrontFault {
    /// Want of memory.
    Memory,
    /// The first finding of the first phase that has one.
    Found(Finding),
    /// The sources have no finding, but of their core program the member of that name of the class, or the class itself
    /// under its own name, doesn't fit. It is to go: `docs/DECISIONS.md` says for which sources it comes.
    Misfit(ClassId, NameId),
}

impl From<Refusal> for FrontFault {
    ghost use Rattle.std.specs.Prelude.{◌≡◌};
    ghost use Rattle.source_programs.specs.Findings.{from_refusal};

    ghost from_gives = { λ r e. e ≡ from_refusal r };

    fn from(refusal: Refusal) -> Self {
        match refusal {
            Refusal::Memory => FrontFault::Memory,
            Refusal::Fault(finding) => FrontFault::Found(finding),
        }
    }
}

impl From<CheckFault> for FrontFault {
    ghost use Rattle.std.specs.Prelude.{◌≡◌};
    ghost use Rattle.source_programs.specs.Findings.{from_check};

    ghost from_gives = { λ c e. e ≡ from_check c };

    fn from(fault: CheckFault) -> Self {
        match fault {
            CheckFault::Memory => FrontFault::Memory,
            CheckFault::Misfit(class, name) => FrontFault::Misfit(class, name),
        }
    }
}
