// What must hold, and what must be there.

ghost use Rattle.std.specs.Prelude.{◌≡◌, IfOk, IfErr};
ghost use Rattle.je_typing.specs.Judged.{gives, check as the_check, need as the_need};
ghost use Rattle.je_typing.specs.Answers.{IsFault};

use crate::fault::{Refusal, TypeFault, TypeRule};
use je_base::Span;

/// Nothing where this holds, else the fault.
#[tactic(auto, unfolding(crate::specs::Judged::check), using(crate::proofs::Walks::walks))]
pub fn check(rule: TypeRule, span: Span, holds: bool) -> Result<(), Refusal>
    ensures ok { IfOk result (λ done. the_check rule span holds ≡ gives done) }
    ensures err { IfErr result (IsFault (the_check rule span holds)) }
{
    if holds {
        return Ok(());
    }
    Err(Refusal::Fault(TypeFault { rule, span }))
}

/// What is there, else the fault.
#[tactic(auto, unfolding(crate::specs::Judged::need), using(crate::proofs::Walks::walks))]
pub fn need<T>(rule: TypeRule, span: Span, value: Option<T>) -> Result<T, Refusal>
    ensures ok { IfOk result (λ a. the_need rule span value ≡ gives a) }
    ensures err { IfErr result (IsFault (the_need rule span value)) }
{
    match value {
        Some(value) => Ok(value),
        None => Err(Refusal::Fault(TypeFault { rule, span })),
    }
}
