// Where the rules on inner classes are broken in a whole program.

ghost use Rattle.std.specs.Prelude.{◌≡◌, ◌<◌, ◌^◌, IfOk, OnOk, length, map};
ghost use Rattle.je_core.specs.View.{class_view};
ghost use Rattle.je_types.specs.Views.{program_of};
ghost use Rattle.taming_db.specs.View.{rows};
ghost use Rattle.rule_breaks.specs.Breaks.{IsListOf};
ghost use Rattle.rule_breaks.specs.way.Found.{followed_by};
ghost use Rattle.overlay_types.specs.Guests.{guests_from};
ghost use Rattle.inner_capture.specs.InnerCapture as words;

use crate::enclosing::{captures_other, holds_other};
use fit_members::is_guest;
use je_core::{Class, ClassId, Memory};
use je_types::Typed;
use overlay_types::{class_has, classes_of, is_under_immutable};
use rule_breaks::{Break, ConfinementRule, Found};
use std::alloc::Global;
use taming_db::{Marker, Taming};

/// Where the classes of a program break the rules on what inner classes hold, in order and each break once. Memory is answered where an
/// allocation is refused.
#[tactic(auto, unfolding(crate::specs::InnerCapture::inner_breaks))]
pub fn broken(alloc: Global, typed: &Typed, taming: &Taming) -> Result<Vec<Break>, Memory>
    ensures { IfOk result (λ list. IsListOf
        (words.inner_breaks (program_of typed.now) (rows taming.now)) list.items) }
{
    let mut found = Found::new(alloc);
    judge_classes(alloc, typed, taming, classes_of(typed), &mut found)?;
    Ok(found.in_order())
}

fn judge_classes(
    alloc: Global,
    typed: &Typed,
    taming: &Taming,
    classes: &[Class],
    found: &mut Found,
) -> Result<(), Memory>
    requires { length classes.now < 2 ^ 31 }
    ensures { OnOk result (found.new ≡ followed_by found.old (guests_from
        (words.class_breaks (program_of typed.now) (rows taming.now)) 0 (map class_view classes.now))) }
{
    for (number, class) in classes.iter().enumerate() {
        let id = ClassId(number as u32);
        if is_guest(id) {
            judge_class(alloc, typed, taming, id, class, found)?;
        }
    }
    Ok(())
}

fn judge_class(
    alloc: Global,
    typed: &Typed,
    taming: &Taming,
    id: ClassId,
    class: &Class,
    found: &mut Found,
) -> Result<(), Memory>
    ensures { OnOk result (found.new ≡ followed_by found.old
        (words.class_breaks (program_of typed.now) (rows taming.now) id (class_view class.now))) }
{
    let captures = captures_wrong(typed, taming, id, class);
    found.add_where(captures, ConfinementRule::CapturedLocal, class.span)?;
    let encloses = holds_wrong(alloc, typed, taming, id, class)?;
    found.add_where(encloses, ConfinementRule::EnclosingObject, class.span)
}

fn captures_wrong(typed: &Typed, taming: &Taming, id: ClassId, class: &Class) -> bool
    ensures { result ≡ words.captures_wrong
        (program_of typed.now) (rows taming.now) id (class_view class.now) }
{
    (is_under_immutable(typed, taming, id)
        && captures_other(typed, taming, Marker::Immutable, class))
        || (class_has(typed, taming, Marker::Powerless, id)
            && captures_other(typed, taming, Marker::Powerless, class))
}

fn holds_wrong(
    alloc: Global,
    typed: &Typed,
    taming: &Taming,
    id: ClassId,
    class: &Class,
) -> Result<bool, Memory>
    ensures { IfOk result (λ other. other ≡ words.holds_wrong
        (program_of typed.now) (rows taming.now) id (class_view class.now)) }
{
    if is_under_immutable(typed, taming, id)
        && holds_other(alloc, typed, taming, Marker::Immutable, class)?
    {
        return Ok(true);
    }
    if class_has(typed, taming, Marker::Powerless, id) {
        return holds_other(alloc, typed, taming, Marker::Powerless, class);
    }
    Ok(false)
}
