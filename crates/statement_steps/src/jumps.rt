// Labels, `break` and `continue` (JLS 14.7, 14.15, 14.16).

ghost use Rattle.std.specs.Prelude.{◌≡◌, IfOk, IfErr};
ghost use Rattle.je_core.specs.View.{stmt_view};
ghost use Rattle.je_typing.specs.Answers.{IsFault};
ghost use Rattle.je_typing.specs.Judged.{gives};
ghost use Rattle.statement_steps.specs.Jumps.{jump as the_jump, jump_span as the_jump_span, labelled as the_labelled, name_if as the_name_if};

use fit_statements::{Targets, can_jump, label_of};
use je_ast::Identifier;
use je_base::{NameId, Span};
use je_core::{Stmt, make_jump, make_labelled};
use je_typing::{Refusal, TypeRule, check};
use std::alloc::Global;

fn name_if(label: Option<Identifier>) -> Option<NameId>
    ensures { result ≡ the_name_if label }
{
    label.map(|label| label.name)
}

fn jump_span(span: Span, label: Option<Identifier>) -> Span
    ensures { result ≡ the_jump_span span label }
{
    match label {
        None => span,
        Some(label) => label.span,
    }
}

/// `continue` where `again` is true, else `break`; a fault is BadLabel, at the label, or at the word where there is none.
#[tactic(auto, unfolding(crate::specs::Jumps::jump), using(je_typing::proofs::Walks::walks))]
pub fn jump(
    targets: &Targets<'_>,
    again: bool,
    span: Span,
    label: Option<Identifier>,
) -> Result<Stmt, Refusal>
    ensures ok { IfOk result (λ made. the_jump targets.now again span label
        ≡ gives (stmt_view made)) }
    ensures err { IfErr result (IsFault (the_jump targets.now again span label)) }
{
    let name = name_if(label);
    let lands = can_jump(targets, again, name);
    check(TypeRule::BadLabel, jump_span(span, label), lands)?;
    Ok(make_jump(span, span, again, name))
}

/// A statement behind a label; a fault is BadLabel, at the label.
#[tactic(auto, unfolding(crate::specs::Jumps::labelled), using(je_typing::proofs::Walks::walks))]
pub fn labelled(
    alloc: Global,
    targets: &Targets<'_>,
    label: Identifier,
    body: Stmt,
) -> Result<Stmt, Refusal>
    ensures ok { IfOk result (λ made. the_labelled targets.now label (stmt_view body)
        ≡ gives (stmt_view made)) }
    ensures err { IfErr result (IsFault (the_labelled targets.now label (stmt_view body))) }
{
    let is_new = label_of(targets.labels, label.name).is_none();
    check(TypeRule::BadLabel, label.span, is_new)?;
    let made = make_labelled(alloc, label.span, label.span, label.name, body)?;
    Ok(made)
}
