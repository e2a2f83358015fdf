// Where the rules on fields are broken in a whole program.

ghost use Rattle.std.specs.Prelude.{◌≡◌, ◌<◌, ◌^◌, IfOk, OnOk, length, map};
ghost use Rattle.je_core.specs.View.{class_view, field_view};
ghost use Rattle.je_types.specs.Views.{program_of};
ghost use Rattle.taming_db.specs.View.{rows};
ghost use Rattle.rule_breaks.specs.Breaks.{IsListOf, of_each};
ghost use Rattle.rule_breaks.specs.way.Found.{followed_by};
ghost use Rattle.overlay_types.specs.Guests.{guests_from, of_guest};
ghost use Rattle.field_rules.specs.FieldRules as words;

use crate::fields::{may_change, may_change_above, may_grant, may_grant_above};
use fit_members::is_guest;
use je_core::{Class, ClassId, Field, Memory};
use je_table::LibraryClass;
use je_types::Typed;
use overlay_types::{class_has, classes_of, is_under_immutable, of_library};
use rule_breaks::{Break, ConfinementRule, Found};
use std::alloc::Global;
use taming_db::{Marker, Taming};

/// Where the classes of a program break the rules on fields, in order and each break once. Memory is answered where an allocation is
/// refused.
#[tactic(auto, unfolding(crate::specs::FieldRules::field_breaks))]
pub fn broken(alloc: Global, typed: &Typed, taming: &Taming) -> Result<Vec<Break>, Memory>
    ensures { IfOk result (λ list. IsListOf
        (words.field_breaks (program_of typed.now) (rows taming.now)) list.items) }
{
    let mut found = Found::new(alloc);
    judge_classes(alloc, typed, taming, classes_of(typed), &mut found)?;
    Ok(found.in_order())
}

fn judge_classes(
    alloc: Global,
    typed: &Typed,
    taming: &Taming,
    classes: &[Class],
    found: &mut Found,
) -> Result<(), Memory>
    requires { length classes.now < 2 ^ 31 }
    ensures { OnOk result (found.new ≡ followed_by found.old (guests_from
        (words.class_breaks (program_of typed.now) (rows taming.now)) 0 (map class_view classes.now))) }
{
    for (number, class) in classes.iter().enumerate() {
        let id = ClassId(number as u32);
        if is_guest(id) {
            judge_class(alloc, typed, taming, id, class, found)?;
        }
    }
    Ok(())
}

fn judge_class(
    alloc: Global,
    typed: &Typed,
    taming: &Taming,
    id: ClassId,
    class: &Class,
    found: &mut Found,
) -> Result<(), Memory>
    ensures { OnOk result (found.new ≡ followed_by found.old
        (words.class_breaks (program_of typed.now) (rows taming.now) id (class_view class.now))) }
{
    if is_under_immutable(typed, taming, id) {
        judge_immutable(alloc, typed, taming, class, found)?;
    }
    if class_has(typed, taming, Marker::Powerless, id) {
        judge_powerless(alloc, typed, taming, id, class, found)?;
    }
    Ok(())
}

fn judge_immutable(
    alloc: Global,
    typed: &Typed,
    taming: &Taming,
    class: &Class,
    found: &mut Found,
) -> Result<(), Memory>
    ensures { OnOk result (found.new ≡ followed_by found.old
        (words.immutable_breaks (program_of typed.now) (rows taming.now) (class_view class.now))) }
{
    judge_changes(typed, taming, &class.fields, found)?;
    let above = may_change_above(alloc, typed, taming, class)?;
    found.add_where(above, ConfinementRule::ImmutableField, class.span)
}

fn judge_changes(
    typed: &Typed,
    taming: &Taming,
    fields: &[Field],
    found: &mut Found,
) -> Result<(), Memory>
    ensures { OnOk result (found.new ≡ followed_by found.old (of_each
        (words.change_breaks (program_of typed.now) (rows taming.now)) (map field_view fields.now))) }
{
    for field in fields {
        let changes = may_change(typed, taming, field);
        found.add_where(changes, ConfinementRule::ImmutableField, field.span)?;
    }
    Ok(())
}

fn judge_powerless(
    alloc: Global,
    typed: &Typed,
    taming: &Taming,
    id: ClassId,
    class: &Class,
    found: &mut Found,
) -> Result<(), Memory>
    ensures { OnOk result (found.new ≡ followed_by found.old
        (words.powerless_breaks (program_of typed.now) (rows taming.now) id (class_view class.now))) }
{
    judge_grants(typed, taming, &class.fields, found)?;
    let grants = may_grant_above(alloc, typed, taming, class)? || is_token(typed, id);
    found.add_where(grants, ConfinementRule::PowerlessField, class.span)
}

fn judge_grants(
    typed: &Typed,
    taming: &Taming,
    fields: &[Field],
    found: &mut Found,
) -> Result<(), Memory>
    ensures { OnOk result (found.new ≡ followed_by found.old (of_each
        (words.grant_breaks (program_of typed.now) (rows taming.now)) (map field_view fields.now))) }
{
    for field in fields {
        let grants = may_grant(typed, taming, field);
        found.add_where(grants, ConfinementRule::PowerlessField, field.span)?;
    }
    Ok(())
}

fn is_token(typed: &Typed, id: ClassId) -> bool
    ensures { result ≡ words.is_token (program_of typed.now) id }
{
    typed.is_below(id, of_library(LibraryClass::Token))
}
