// Statements without expressions in them: `;` and jumps (JLS 14.6, 14.15, 14.16).

ghost use Rattle.std.specs.Prelude.{◌≡◌, IfErr, IfOk};
ghost use Rattle.je_typing.specs.Answers.{IsFault};
ghost use Rattle.je_typing.specs.Judged.{gives};
ghost use Rattle.body_typing.specs.FinalVariables.{Scope as Seen};
ghost use Rattle.body_typing.specs.Bodies.{Progress as Progressed};
ghost use Rattle.statement_forms.specs.Seen.{done_in};
ghost use Rattle.statement_forms.specs.Written.{a_jump, an_empty, statement_among, statement_of};

use crate::done::{Done, one};
use crate::walk::{Walk, alloc};
use fit_statements::Targets;
use je_ast::Identifier;
use je_base::Span;
use je_core::make_empty;
use je_typing::Refusal;
use statement_steps::jump;

/// `;`
#[tactic(auto, using(je_typing::proofs::Walks::walks))]
pub fn empty_statement(walk: Walk, span: Span) -> Result<Done, Refusal>
    ensures ok { IfOk result (λ d. (s : Seen) (pr : Progressed) →
        statement_of walk.entry s pr (an_empty span) ≡ gives (done_in d s pr)) }
    ensures err { IfErr result (λ refusal. (s : Seen) (pr : Progressed) →
        IsFault (statement_of walk.entry s pr (an_empty span)) refusal) }
{
    let whole = one(alloc(walk), make_empty(span, span))?;
    Ok(whole)
}

/// `break`, or `continue` where `again` holds.
#[tactic(auto, using(je_typing::proofs::Walks::walks))]
pub fn jump_statement(
    walk: Walk,
    targets: &Targets<'_>,
    again: bool,
    word: Span,
    to: Option<Identifier>,
) -> Result<Done, Refusal>
    ensures ok { IfOk result (λ d. (s : Seen) (pr : Progressed) → statement_among walk.entry
        targets.now s pr (a_jump again word to) ≡ gives (done_in d s pr)) }
    ensures err { IfErr result (λ refusal. (s : Seen) (pr : Progressed) → IsFault
        (statement_among walk.entry targets.now s pr (a_jump again word to)) refusal) }
{
    let code = jump(targets, again, word, to)?;
    let whole = one(alloc(walk), code)?;
    Ok(whole)
}
