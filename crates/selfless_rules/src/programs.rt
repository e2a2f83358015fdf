// Where the rules on selfless classes are broken in a whole program.

ghost use Rattle.std.specs.Prelude.{◌≡◌, ◌<◌, ◌^◌, IfOk, OnOk, length, map};
ghost use Rattle.je_core.specs.View.{class_view};
ghost use Rattle.je_types.specs.Views.{program_of};
ghost use Rattle.taming_db.specs.View.{rows};
ghost use Rattle.rule_breaks.specs.Breaks.{IsListOf};
ghost use Rattle.rule_breaks.specs.way.Found.{followed_by};
ghost use Rattle.overlay_types.specs.Guests.{guests_from};
ghost use Rattle.selfless_rules.specs.SelflessRules as words;

use crate::selfless::judge_selfless;
use fit_members::is_guest;
use je_core::{Class, ClassId, Memory, Sort};
use je_types::Typed;
use overlay_types::{class_has, classes_of};
use rule_breaks::{Break, ConfinementRule, Found};
use std::alloc::Global;
use taming_db::{Marker, Taming};

/// Where the classes of a program break the rules on selfless classes, in order and each break once. Memory is answered where an
/// allocation is refused.
#[tactic(auto, unfolding(crate::specs::SelflessRules::selfless_breaks))]
pub fn broken(alloc: Global, typed: &Typed, taming: &Taming) -> Result<Vec<Break>, Memory>
    ensures { IfOk result (λ list. IsListOf
        (words.selfless_breaks (program_of typed.now) (rows taming.now)) list.items) }
{
    let mut found = Found::new(alloc);
    judge_classes(typed, taming, classes_of(typed), &mut found)?;
    Ok(found.in_order())
}

fn judge_classes(
    typed: &Typed,
    taming: &Taming,
    classes: &[Class],
    found: &mut Found,
) -> Result<(), Memory>
    requires { length classes.now < 2 ^ 31 }
    ensures { OnOk result (found.new ≡ followed_by found.old (guests_from
        (words.class_breaks (program_of typed.now) (rows taming.now)) 0 (map class_view classes.now))) }
{
    for (number, class) in classes.iter().enumerate() {
        let id = ClassId(number as u32);
        if is_guest(id) {
            judge_class(typed, taming, id, class, found)?;
        }
    }
    Ok(())
}

fn judge_class(
    typed: &Typed,
    taming: &Taming,
    id: ClassId,
    class: &Class,
    found: &mut Found,
) -> Result<(), Memory>
    ensures { OnOk result (found.new ≡ followed_by found.old
        (words.class_breaks (program_of typed.now) (rows taming.now) id (class_view class.now))) }
{
    if !class_has(typed, taming, Marker::Selfless, id) {
        return Ok(());
    }
    if !matches!(class.kind.sort, Sort::Interface) {
        judge_selfless(typed, taming, class, found)?;
    }
    let is_both = class_has(typed, taming, Marker::Equatable, id);
    found.add_where(is_both, ConfinementRule::SelflessEquatable, class.span)
}
