// What is extended and implemented.

ghost use Rattle.std.specs.Prelude.{◌≡◌, OnOk};
ghost use Rattle.rule_breaks.specs.Breaks.{of_each};
ghost use Rattle.rule_breaks.specs.way.Found.{followed_by};
ghost use Rattle.taming_db.specs.View.{rows};
ghost use Rattle.class_uses.specs.Extended.{head_breaks, may_extend as the_may_extend};

use fit_members::is_guest;
use je_core::{ClassId, Head, Memory};
use rule_breaks::{ConfinementRule, Found};
use taming_db::Taming;

// Whether guests may extend or implement a class.
fn may_extend(taming: &Taming, class: ClassId) -> bool
    ensures { result ≡ the_may_extend (rows taming.now) class }
{
    is_guest(class) || taming.may_extend(class.0 as usize)
}

/// Adds the breaks of the classes and interfaces that a class extends and implements and that aren't open, each at its name.
pub fn judge_heads(taming: &Taming, heads: &[Head], found: &mut Found) -> Result<(), Memory>
    ensures { OnOk result (found.new ≡
        followed_by found.old (of_each (head_breaks (rows taming.now)) heads.now)) }
{
    for head in heads {
        let allowed = may_extend(taming, head.class);
        found.add_where(!allowed, ConfinementRule::NotExtensible, head.span)?;
    }
    Ok(())
}
