// Whether a switch has the label `default`.

ghost use Rattle.std.specs.Prelude.{◌≡◌, map};
ghost use Rattle.std.specs.List.{list_any};
ghost use Rattle.je_core.specs.Core.{core_groups};
ghost use Rattle.je_core.specs.View.{group_view, label_view};
ghost use Rattle.flow_base.specs.Switches.{is_default, labels_of, has_default as the_has_default};

use je_core::{Group, Label};

/// Whether some group of a switch has the label `default`.
pub fn has_default(groups: &[Group]) -> bool
    ensures { result ≡ the_has_default (core_groups (map group_view groups.now)) }
{
    for group in groups {
        if is_default_group(group) {
            return true;
        }
    }
    false
}

#[tactic(auto, using(je_core::proofs::Views::parts_seen))]
fn is_default_group(group: &Group) -> bool
    ensures { result ≡ list_any is_default (labels_of (group_view group.now)) }
{
    has_default_label(&group.labels)
}

fn has_default_label(labels: &[Label]) -> bool
    ensures { result ≡ list_any is_default (map label_view labels.now) }
{
    for label in labels {
        if label.value.is_none() {
            return true;
        }
    }
    false
}
