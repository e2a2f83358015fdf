// The groups of a `switch` (JLS 14.11), whose labels are judged behind their statements.

ghost use Rattle.std.specs.Prelude.{◌≡◌, IfErr, IfOk, map};
ghost use Rattle.je_core.specs.Core.{core_groups};
ghost use Rattle.je_core.specs.View.{group_view};
ghost use Rattle.je_typing.specs.Answers.{IsFault};
ghost use Rattle.je_typing.specs.Judged.{gives};
ghost use Rattle.name_types.specs.View.{shown};
ghost use Rattle.source_subtypes.specs.View.{heads_of};
ghost use Rattle.statement_steps.specs.Switches.{none_met};
ghost use Rattle.body_typing.specs.Switches.{groups_from};
ghost use Rattle.statement_forms.specs.View.{group_seen};

use je_core::{Group, Stmt, make_group};
use je_typing::Refusal;
use name_types::SrcTy;
use source_subtypes::ClassHeads;
use std::alloc::Global;
use std::rc::Rc;
use value_statements::{LabelsMet, WrittenLabel, group_labels};

/// A group whose statements are walked, with its labels as they are written.
#[derive(Drop)]
pub struct WrittenGroup {
    pub labels: Vec<WrittenLabel>,
    pub parts: Vec<Rc<Stmt>>,
}

/// The groups of a `switch` that selects by a value of a type. A fault is BadCase, at the first label that is no
/// constant which the type takes, or that is met already.
#[tactic(auto, using(je_typing::proofs::Walks::walks))]
pub fn groups(
    alloc: Global,
    heads: &ClassHeads,
    selector: &SrcTy,
    written: Vec<WrittenGroup>,
) -> Result<Vec<Group>, Refusal>
    ensures ok { IfOk result (λ made. groups_from (heads_of heads.now) (shown selector.now) none_met
        (map group_seen written.items) ≡ gives (core_groups (map group_view made.items))) }
    ensures err { IfErr result (IsFault (groups_from (heads_of heads.now) (shown selector.now)
        none_met (map group_seen written.items))) }
{
    let mut met = LabelsMet::none(alloc);
    let mut made = Vec::new(alloc);
    for group in written {
        let WrittenGroup { labels, parts } = group;
        let labels = group_labels(alloc, heads, selector, &mut met, &labels)?;
        made.push(make_group(labels, parts))?;
    }
    Ok(made)
}
