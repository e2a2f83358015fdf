// A type that must be there.

ghost use Rattle.std.specs.Prelude.{◌≡◌, IfOk, IfErr, option_map};
ghost use Rattle.je_typing.specs.Answers.{IsFault};
ghost use Rattle.je_typing.specs.Judged.{gives, need as the_need};
ghost use Rattle.name_types.specs.View.{shown};

use je_base::Span;
use je_typing::{Refusal, TypeFault, TypeRule};
use name_types::SrcTy;

/// The type, else the fault.
#[tactic(auto, unfolding(je_typing::specs::Judged::need), using(je_typing::proofs::Walks::walks))]
pub fn need_type(rule: TypeRule, span: Span, ty: Option<SrcTy>) -> Result<SrcTy, Refusal>
    ensures ok { IfOk result (λ t. the_need rule span (option_map shown ty) ≡ gives (shown t)) }
    ensures err { IfErr result (IsFault (the_need rule span (option_map shown ty))) }
{
    match ty {
        Some(ty) => Ok(ty),
        None => Err(Refusal::Fault(TypeFault { rule, span })),
    }
}
