// Where the rules on static state are broken in a whole program.

ghost use Rattle.std.specs.Prelude.{◌≡◌, ◌<◌, ◌^◌, IfOk, OnOk, length, map};
ghost use Rattle.je_core.specs.View.{class_view, field_view, method_view};
ghost use Rattle.je_types.specs.Views.{program_of};
ghost use Rattle.taming_db.specs.View.{rows};
ghost use Rattle.rule_breaks.specs.Breaks.{IsListOf, of_each};
ghost use Rattle.rule_breaks.specs.way.Found.{followed_by};
ghost use Rattle.overlay_types.specs.Guests.{guests_from, of_guest};
ghost use Rattle.static_rules.specs.StaticRules as words;

use fit_members::is_guest;
use je_core::{Class, ClassId, Field, Memory, Method};
use je_types::Typed;
use overlay_types::{classes_of, holds};
use rule_breaks::{Break, ConfinementRule, Found};
use std::alloc::Global;
use taming_db::{Marker, Taming};

/// Where the classes of a program break the rules on static state, in order and each break once. Memory is answered where an allocation
/// is refused.
#[tactic(auto, unfolding(crate::specs::StaticRules::static_breaks))]
pub fn broken(alloc: Global, typed: &Typed, taming: &Taming) -> Result<Vec<Break>, Memory>
    ensures { IfOk result (λ list. IsListOf
        (words.static_breaks (program_of typed.now) (rows taming.now)) list.items) }
{
    let mut found = Found::new(alloc);
    judge_classes(typed, taming, classes_of(typed), &mut found)?;
    Ok(found.in_order())
}

fn judge_classes(
    typed: &Typed,
    taming: &Taming,
    classes: &[Class],
    found: &mut Found,
) -> Result<(), Memory>
    requires { length classes.now < 2 ^ 31 }
    ensures { OnOk result (found.new ≡ followed_by found.old (guests_from
        (words.class_breaks (program_of typed.now) (rows taming.now)) 0 (map class_view classes.now))) }
{
    for (number, class) in classes.iter().enumerate() {
        judge_class(typed, taming, ClassId(number as u32), class, found)?;
    }
    Ok(())
}

// Of a class of the library nothing is said.
fn judge_class(
    typed: &Typed,
    taming: &Taming,
    id: ClassId,
    class: &Class,
    found: &mut Found,
) -> Result<(), Memory>
    ensures { OnOk result (found.new ≡ followed_by found.old (of_guest
        (words.class_breaks (program_of typed.now) (rows taming.now)) id (class_view class.now))) }
{
    if !is_guest(id) {
        return Ok(());
    }
    judge_fields(typed, taming, &class.fields, found)?;
    judge_methods(&class.methods, found)
}

fn judge_fields(
    typed: &Typed,
    taming: &Taming,
    fields: &[Field],
    found: &mut Found,
) -> Result<(), Memory>
    ensures { OnOk result (found.new ≡ followed_by found.old (of_each
        (words.static_field_breaks (program_of typed.now) (rows taming.now))
        (map field_view fields.now))) }
{
    for field in fields {
        let breaks = field.is_static
            && (!field.is_final || !holds(typed, taming, field.ty, Marker::Powerless));
        found.add_where(breaks, ConfinementRule::StaticField, field.span)?;
    }
    Ok(())
}

fn judge_methods(methods: &[Method], found: &mut Found) -> Result<(), Memory>
    ensures { OnOk result (found.new ≡ followed_by found.old
        (of_each words.method_breaks (map method_view methods.now))) }
{
    for method in methods {
        found.add_where(
            method.flags.is_native,
            ConfinementRule::NativeMethod,
            method.span,
        )?;
        found.add_where(
            method.flags.is_finalizer,
            ConfinementRule::Finalizer,
            method.span,
        )?;
    }
    Ok(())
}
