// What a body returns (JLS 14.17).

ghost use Rattle.std.specs.Prelude.{◌≡◌, IfOk, IfErr};
ghost use Rattle.je_core.specs.View.{stmt_view};
ghost use Rattle.je_typing.specs.Answers.{IsFault};
ghost use Rattle.je_typing.specs.Judged.{gives};
ghost use Rattle.statement_steps.specs.Returns.{returned as the_returned};
ghost use Rattle.statement_steps.specs.View.{returning_seen};

use je_base::Span;
use je_core::{Stmt, make_return};
use je_typing::{Refusal, TypeFault, TypeRule};
use name_types::SrcTy;
use std::alloc::Global;

/// What a body may return.
#[derive(Clone, Copy)]
pub enum Returning<'a> {
    /// Nothing, nor may it return: an initializer.
    Never,
    /// No value: a constructor, or a method whose result is `void`.
    NoValue,
    /// A value of that type.
    Value(&'a SrcTy),
}

/// `return` without a value; a fault is BadReturn, at the word.
#[tactic(auto, unfolding(crate::specs::Returns::returned), using(je_typing::proofs::Walks::walks))]
pub fn returned(alloc: Global, returning: Returning, span: Span) -> Result<Stmt, Refusal>
    ensures ok { IfOk result (λ made. the_returned (returning_seen returning.entry) span
        ≡ gives (stmt_view made)) }
    ensures err { IfErr result (IsFault (the_returned (returning_seen returning.entry) span)) }
{
    match returning {
        Returning::NoValue => {
            let made = make_return(alloc, span, span, None)?;
            Ok(made)
        }
        Returning::Never | Returning::Value(_) => Err(Refusal::Fault(TypeFault {
            rule: TypeRule::BadReturn,
            span,
        })),
    }
}
