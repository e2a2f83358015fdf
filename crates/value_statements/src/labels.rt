// The labels of a `switch` (JLS 14.11).

ghost use Rattle.std.specs.Prelude.{◌≡◌, IfErr, IfOk, List, map};
ghost use Rattle.je_core.specs.View.{label_view};
ghost use Rattle.je_typing.specs.Answers.{IsFault};
ghost use Rattle.je_typing.specs.Judged.{gives};
ghost use Rattle.name_types.specs.View.{shown};
ghost use Rattle.je_scopes.specs.SourceTypes.{SourceType};
ghost use Rattle.source_subtypes.specs.View.{heads_of};
ghost use Rattle.source_types.specs.Heads.{ClassHead};
ghost use Rattle.statement_steps.specs.Switches.{Met, case, default, label_number as the_label_number, met_value, next_label as the_next_label, number_in as the_number_in};
ghost use Rattle.typed_nodes.specs.Seen.{seen};
ghost use Rattle.value_statements.specs.Labels.{FailsAt, GivesLabels, Knows, label_seen};

use crate::met::LabelsMet;
use conversion_steps::{is_assignable, small_number};
use folded_nodes::{constant_value, uses_of};
use je_base::{Memory, Span};
use je_core::{Label, Value};
use je_typing::{Refusal, TypeRule, check, need};
use name_types::SrcTy;
use source_subtypes::ClassHeads;
use std::alloc::Global;
use typed_nodes::TypedExpr;

/// A label as it is written.
#[derive(Drop)]
pub enum WrittenLabel {
    /// `case` and its value, whose span is that of the whole value, brackets included.
    Case { span: Span, value: TypedExpr },
    /// The word `default`.
    Default { span: Span },
}

fn number_in(value: Option<Value>) -> Option<i32>
    ensures { result ≡ the_number_in value }
{
    match value {
        Some(value) => small_number(value),
        None => None,
    }
}

// The number of a constant that the selector's type takes.
fn label_number(
    alloc: Global,
    heads: &ClassHeads,
    selector: &SrcTy,
    value: &TypedExpr,
) -> Result<Option<i32>, Memory>
    ensures { IfOk result (λ number. number ≡ the_label_number (heads_of heads.now)
        (shown selector.now) (seen value.now)) }
{
    if !is_assignable(alloc, heads, value, selector)? {
        return Ok(None);
    }
    Ok(number_in(constant_value(&value.node)))
}

#[tactic(auto, unfolding(statement_steps::specs::Switches::next_label), using(je_typing::proofs::Walks::walks))]
fn next_case(
    alloc: Global,
    heads: &ClassHeads,
    selector: &SrcTy,
    met: &mut LabelsMet,
    span: Span,
    value: &TypedExpr,
) -> Result<Label, Refusal>
    ensures ok { IfOk result (λ made. (before : Met) → Knows met.old before →
        the_next_label (heads_of heads.now) (shown selector.now) before (case span (seen value.now))
        ≡ gives (label_view made)) }
    ensures err { IfErr result (λ refusal. (before : Met) → Knows met.old before →
        IsFault (the_next_label (heads_of heads.now) (shown selector.now) before
        (case span (seen value.now))) refusal) }
    ensures met { IfOk result (λ made. (before : Met) → Knows met.old before →
        Knows met.new (met_value before made.value)) }
{
    let number = label_number(alloc, heads, selector, value)?;
    let number = need(TypeRule::BadCase, span, number)?;
    let is_met = met.meet(number)?;
    check(TypeRule::BadCase, span, !is_met)?;
    let uses = uses_of(alloc, &value.node)?;
    Ok(Label {
        value: Some(number),
        uses,
        span,
    })
}

#[tactic(auto, unfolding(statement_steps::specs::Switches::next_label), using(je_typing::proofs::Walks::walks))]
fn next_default(alloc: Global, met: &mut LabelsMet, span: Span) -> Result<Label, Refusal>
    ensures ok { IfOk result (λ made. (heads : List ClassHead) (selector : SourceType)
        (before : Met) → Knows met.old before →
        the_next_label heads selector before (default span) ≡ gives (label_view made)) }
    ensures err { IfErr result (λ refusal. (heads : List ClassHead) (selector : SourceType)
        (before : Met) → Knows met.old before →
        IsFault (the_next_label heads selector before (default span)) refusal) }
    ensures met { IfOk result (λ made. (before : Met) → Knows met.old before →
        Knows met.new (met_value before made.value)) }
{
    let is_met = met.meet_default();
    check(TypeRule::BadCase, span, !is_met)?;
    Ok(Label {
        value: None,
        uses: Vec::new(alloc),
        span,
    })
}

fn next_label(
    alloc: Global,
    heads: &ClassHeads,
    selector: &SrcTy,
    met: &mut LabelsMet,
    label: &WrittenLabel,
) -> Result<Label, Refusal>
    ensures ok { IfOk result (λ made. (before : Met) → Knows met.old before →
        the_next_label (heads_of heads.now) (shown selector.now) before (label_seen label.now)
        ≡ gives (label_view made)) }
    ensures err { IfErr result (λ refusal. (before : Met) → Knows met.old before →
        IsFault (the_next_label (heads_of heads.now) (shown selector.now) before
        (label_seen label.now)) refusal) }
    ensures met { IfOk result (λ made. (before : Met) → Knows met.old before →
        Knows met.new (met_value before made.value)) }
{
    match label {
        WrittenLabel::Case { span, value } => next_case(alloc, heads, selector, met, *span, value),
        WrittenLabel::Default { span } => next_default(alloc, met, *span),
    }
}

/// The labels of a group, behind those that are met. A fault is BadCase, at the first label that is no constant which the
/// selector's type takes, or that is met already.
#[tactic(auto, using(je_typing::proofs::Walks::walks))]
pub fn group_labels(
    alloc: Global,
    heads: &ClassHeads,
    selector: &SrcTy,
    met: &mut LabelsMet,
    written: &[WrittenLabel],
) -> Result<Vec<Label>, Refusal>
    ensures ok { IfOk result (λ made. (before : Met) → Knows met.old before →
        GivesLabels (heads_of heads.now) (shown selector.now) before (map label_seen written.now)
        (map label_view made.items) met.new) }
    ensures err { IfErr result (λ refusal. (before : Met) → Knows met.old before →
        FailsAt (heads_of heads.now) (shown selector.now) before (map label_seen written.now)
        refusal) }
{
    let mut made = Vec::new(alloc);
    for at in 0..written.len() {
        let label = next_label(alloc, heads, selector, met, &written[at])?;
        made.push(label)?;
    }
    Ok(made)
}
