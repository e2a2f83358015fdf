// Labels before statements (JLS 14.7): a `for` is a block with a loop in it, and its label stands at the loop.

ghost use Rattle.std.specs.Prelude.{◌≡◌, IfErr, IfOk, option_map};
ghost use Rattle.je_ast.specs.View.{statement_node_view, statement_view};
ghost use Rattle.je_core.specs.View.{stmt_view};
ghost use Rattle.je_typing.specs.Answers.{IsFault};
ghost use Rattle.je_typing.specs.Judged.{gives};
ghost use Rattle.body_typing.specs.Statements.{is_for as the_is_for, is_loop as the_is_loop, labelled_code as the_labelled_code, start_of as the_start_of, with_label as the_with_label};
ghost use Rattle.statement_forms.specs.Seen.{known_of, program_of, returning_of};

use crate::walk::{Walk, alloc};
use fit_statements::{Targets, label_of};
use je_ast::{Identifier, Stmt as Source};
use je_base::{Memory, Span};
use je_core::{Stmt, make_labelled};
use je_typing::{Refusal, TypeRule, check};
use statement_steps::labelled;
use std::alloc::Global;

#[tactic(auto, using(je_ast::proofs::Views::statement_is))]
fn is_for(stmt: &Source) -> bool
    ensures { result ≡ the_is_for (statement_view stmt.now) }
{
    is_for_here(stmt)
}

fn is_for_here(stmt: &Source) -> bool
    ensures { result ≡ the_is_for (statement_node_view stmt.now) }
{
    matches!(stmt, Source::For { .. } | Source::ForEach { .. })
}

/// Whether a statement is a loop.
#[tactic(auto, using(je_ast::proofs::Views::statement_is))]
pub fn is_loop(stmt: &Source) -> bool
    ensures { result ≡ the_is_loop (statement_view stmt.now) }
{
    is_loop_here(stmt)
}

fn is_loop_here(stmt: &Source) -> bool
    ensures { result ≡ the_is_loop (statement_node_view stmt.now) }
{
    match stmt {
        Source::While { .. } | Source::Do { .. } | Source::For { .. } | Source::ForEach { .. } => {
            true
        }
        _ => false,
    }
}

/// The code of a statement behind a label.
#[tactic(auto, unfolding(statement_steps::specs::Jumps::labelled), using(je_typing::proofs::Walks::walks))]
pub fn labelled_code(
    walk: Walk,
    targets: &Targets<'_>,
    label: Identifier,
    source: &Source,
    body: Stmt,
) -> Result<Stmt, Refusal>
    ensures ok { IfOk result (λ code. the_labelled_code (program_of walk.entry)
        (known_of walk.entry) (returning_of walk.entry) targets.now label
        (statement_view source.now) (stmt_view body) ≡ gives (stmt_view code)) }
    ensures err { IfErr result (IsFault (the_labelled_code (program_of walk.entry)
        (known_of walk.entry) (returning_of walk.entry) targets.now label
        (statement_view source.now) (stmt_view body))) }
{
    if is_for(source) {
        let is_new = label_of(targets.labels, label.name).is_none();
        check(TypeRule::BadLabel, label.span, is_new)?;
        return Ok(body);
    }
    labelled(alloc(walk), targets, label, body)
}

/// A loop with the label that stands at it.
pub fn with_label(alloc: Global, label: Option<Identifier>, turn: Stmt) -> Result<Stmt, Memory>
    ensures { IfOk result (λ s. stmt_view s ≡ the_with_label label (stmt_view turn)) }
{
    match label {
        None => Ok(turn),
        Some(label) => make_labelled(alloc, label.span, label.span, label.name, turn),
    }
}

/// Where a statement with that label begins.
pub fn start_of(label: Option<Identifier>, word: Span) -> Span
    ensures { result ≡ the_start_of label word }
{
    match label {
        None => word,
        Some(label) => label.span,
    }
}
