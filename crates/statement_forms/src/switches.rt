// The groups of a `switch` whose statements are walked (JLS 14.11).

ghost use Rattle.std.specs.Prelude.{◌≡◌, ◌∷◌, ◌++◌, [], IfOk, OnOk, map};
ghost use Rattle.je_core.specs.View.{stmt_view};
ghost use Rattle.value_statements.specs.Labels.{label_seen};
ghost use Rattle.statement_forms.specs.View.{group_seen};

use crate::done::{Done, parts};
use crate::switching::WrittenGroup;
use je_base::Memory;
use std::alloc::Global;
use value_statements::WrittenLabel;

/// A group whose statements are walked, and the numbers of the locals that they declare.
#[derive(Drop)]
pub struct WalkedGroup {
    pub group: WrittenGroup,
    pub numbers: Vec<u32>,
}

/// So many groups.
#[derive(Drop)]
pub struct Groups {
    pub groups: Vec<WrittenGroup>,
    pub numbers: Vec<u32>,
}

/// None yet.
pub fn no_groups(alloc: Global) -> Groups
    ensures groups { result.groups.items ≡ [] }
    ensures numbers { result.numbers.items ≡ [] }
{
    Groups {
        groups: Vec::new(alloc),
        numbers: Vec::new(alloc),
    }
}

/// A group, of what its statements came to.
pub fn grouped(alloc: Global, labels: Vec<WrittenLabel>, done: Done) -> Result<WalkedGroup, Memory>
    ensures group { IfOk result (λ g. group_seen g.group ≡ record {
      labels = map label_seen labels.items;
      parts = map stmt_view done.code.items;
    }) }
    ensures numbers { IfOk result (λ g. g.numbers.items ≡ done.numbers.items) }
{
    let Done { code, numbers } = done;
    let parts = parts(alloc, code)?;
    let group = WrittenGroup { labels, parts };
    Ok(WalkedGroup { group, numbers })
}

/// One group more.
pub fn add_group(written: &mut Groups, next: WalkedGroup) -> Result<(), Memory>
    ensures groups { OnOk result
        (written.new.groups.items ≡ written.old.groups.items ++ next.group ∷ []) }
    ensures numbers { OnOk result
        (written.new.numbers.items ≡ written.old.numbers.items ++ next.numbers.items) }
{
    let WalkedGroup { group, mut numbers } = next;
    written.groups.push(group)?;
    written.numbers.append(&mut numbers)?;
    Ok(())
}
