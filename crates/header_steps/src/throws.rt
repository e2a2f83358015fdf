// What is thrown.

ghost use Rattle.std.specs.Prelude.{◌≡◌, IfOk, IfErr};
ghost use Rattle.je_ast.specs.Types.{name_view};
ghost use Rattle.je_typing.specs.Answers.{IsFault};
ghost use Rattle.je_typing.specs.Judged.{gives};
ghost use Rattle.name_types.specs.View.{shown};
ghost use Rattle.source_subtypes.specs.View.{heads_of};
ghost use Rattle.header_typing.specs.Throws.{thrown as the_thrown};

use crate::supers::throwable;
use je_ast::Name;
use je_typing::{Refusal, TypeRule, check};
use name_types::SrcTy;
use source_subtypes::{ClassHeads, is_subtype};
use std::alloc::Global;

/// Nothing where a type may stand behind `throws`: it is below Throwable, a type variable by its bound (JLS 8.4.6). Else the
/// fault at the name that is written for it.
#[tactic(auto, unfolding(header_typing::specs::Throws::thrown), using(je_typing::proofs::Walks::walks))]
pub fn thrown(alloc: Global, heads: &ClassHeads, ty: &SrcTy, written: &Name) -> Result<(), Refusal>
    ensures ok { IfOk result (λ done. the_thrown (heads_of heads.now) (shown ty.now)
        (name_view written.now) ≡ gives done) }
    ensures err { IfErr result (IsFault (the_thrown (heads_of heads.now) (shown ty.now)
        (name_view written.now))) }
{
    let below = is_subtype(alloc, heads, ty, &throwable())?;
    check(TypeRule::BadThrow, written.span, below)
}
