// What a `switch` selects by (JLS 14.11).

ghost use Rattle.std.specs.Prelude.{◌≡◌, IfOk, IfErr};
ghost use Rattle.je_typing.specs.Answers.{IsFault};
ghost use Rattle.je_typing.specs.Judged.{gives};
ghost use Rattle.name_types.specs.View.{shown};
ghost use Rattle.statement_steps.specs.Switches.{is_selector as the_is_selector, selector as the_selector};
ghost use Rattle.statement_steps.specs.way.Selecting.{is_selector_if as the_is_selector_if};

use je_base::Span;
use je_core::Base;
use je_typing::{Refusal, TypeRule, check};
use name_types::SrcTy;
use typed_nodes::primitive;

fn is_selector_if(base: Option<Base>) -> bool
    ensures { result ≡ the_is_selector_if base }
{
    match base {
        Some(Base::Byte | Base::Short | Base::Char | Base::Int) => true,
        _ => false,
    }
}

#[tactic(auto, using(crate::proofs::Selectors::selector_by_base))]
fn is_selector(ty: &SrcTy) -> bool
    ensures { result ≡ the_is_selector (shown ty.now) }
{
    is_selector_if(primitive(ty))
}

/// Nothing where a `switch` may select by a value of a type: a char, a byte, a short or an int. Else BadCase at the value.
#[tactic(auto, unfolding(crate::specs::Switches::selector))]
pub fn selector(span: Span, ty: &SrcTy) -> Result<(), Refusal>
    ensures ok { IfOk result (λ done. the_selector span (shown ty.now) ≡ gives done) }
    ensures err { IfErr result (IsFault (the_selector span (shown ty.now))) }
{
    check(TypeRule::BadCase, span, is_selector(ty))
}
