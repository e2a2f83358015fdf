// A value that is returned (JLS 14.17).

ghost use Rattle.std.specs.Prelude.{◌≡◌, IfOk, IfErr};
ghost use Rattle.je_core.specs.View.{stmt_view};
ghost use Rattle.je_typing.specs.Answers.{IsFault};
ghost use Rattle.je_typing.specs.Judged.{gives};
ghost use Rattle.source_subtypes.specs.View.{heads_of};
ghost use Rattle.statement_steps.specs.Returns.{returned_value as the_returned_value};
ghost use Rattle.statement_steps.specs.View.{returning_seen};
ghost use Rattle.typed_nodes.specs.Seen.{seen};

use conversion_steps::assigned;
use je_base::Span;
use je_core::{Stmt, make_return};
use je_typing::{Refusal, TypeFault, TypeRule};
use source_subtypes::ClassHeads;
use statement_steps::Returning;
use std::alloc::Global;
use typed_nodes::TypedExpr;

/// `return` with a value, which is converted to the type that the body returns. A fault is BadReturn: at the word in an
/// initializer, at the value, brackets included, where no value may be returned; or NotConvertible, at the value.
#[tactic(auto, unfolding(statement_steps::specs::Returns::returned_value), using(je_typing::proofs::Walks::walks))]
pub fn returned_value(
    alloc: Global,
    heads: &ClassHeads,
    returning: Returning,
    span: Span,
    value_span: Span,
    value: TypedExpr,
) -> Result<Stmt, Refusal>
    ensures ok { IfOk result (λ made. the_returned_value (heads_of heads.now)
        (returning_seen returning.entry) span value_span (seen value) ≡ gives (stmt_view made)) }
    ensures err { IfErr result (IsFault (the_returned_value (heads_of heads.now)
        (returning_seen returning.entry) span value_span (seen value))) }
{
    match returning {
        Returning::Never => Err(Refusal::Fault(TypeFault {
            rule: TypeRule::BadReturn,
            span,
        })),
        Returning::NoValue => Err(Refusal::Fault(TypeFault {
            rule: TypeRule::BadReturn,
            span: value_span,
        })),
        Returning::Value(to) => {
            let converted = assigned(alloc, heads, to, value_span, value)?;
            let made = make_return(alloc, span, span, Some(converted))?;
            Ok(made)
        }
    }
}
