// Objects that become texts by a member of the library that isn't enabled.

ghost use Rattle.std.specs.Prelude.{◌≡◌, IfOk, OnOk};
ghost use Rattle.je_core.specs.Core.{maybe_core};
ghost use Rattle.je_core.specs.View.{form_view, method_view, program_view, view, view_if};
ghost use Rattle.je_classes.specs.Hierarchy.{IsAcyclic};
ghost use Rattle.je_types.specs.Views.{program_of};
ghost use Rattle.member_lookup.specs.Founds.{found_seen};
ghost use Rattle.plain_programs.specs.Wild.{text_place as the_text_place};
ghost use Rattle.rule_breaks.specs.way.Found.{followed_by};
ghost use Rattle.taming_db.specs.View.{rows};
ghost use Rattle.node_rules.specs.ObjectTexts.{found_text as the_found_text, has_disabled_text as the_has_disabled_text, is_disabled as the_is_disabled, maybe_operand_breaks, operand_breaks, text_breaks};

use crate::enabled::may_call;
use class_members::{method_at, same_type};
use fit_parts::string;
use je_classes::object_class;
use je_core::{Base, ClassId, Expr, Form, Memory, Ty};
use je_types::Typed;
use member_lookup::Found as Lookup;
use method_lookup::find_method;
use rule_breaks::{ConfinementRule, Found};
use std::alloc::Global;
use std::rc::Rc;
use taming_db::Taming;

// The place of Object's `toString()` among its methods.
#[tactic(auto, unfolding(plain_programs::specs::Wild::text_place))]
fn text_place() -> usize
    ensures { result ≡ the_text_place }
{
    3
}

// The `toString()` that is found in a class.
fn found_text(alloc: Global, typed: &Typed, class: ClassId) -> Result<Lookup, Memory>
    ensures { IfOk result (λ found. found_seen found ≡
        the_found_text (program_of typed.now) class) }
{
    match method_at(typed.program(), object_class(), text_place()) {
        None => Ok(Lookup::Nothing),
        Some(text) => find_method(alloc, typed.program(), class, text.name, &[]),
    }
}

fn is_disabled(taming: &Taming, found: Lookup) -> bool
    ensures { result ≡ the_is_disabled (rows taming.now) (found_seen found) }
{
    match found {
        Lookup::One(class, at) => !may_call(taming, class, at),
        _ => false,
    }
}

// Whether the `toString()` that is found in a type is a member of the library that isn't enabled, unless that is String.
fn has_disabled_text(alloc: Global, typed: &Typed, taming: &Taming, ty: Ty) -> Result<bool, Memory>
    ensures { IfOk result (λ disabled. disabled ≡
        the_has_disabled_text (program_of typed.now) (rows taming.now) ty) }
{
    if same_type(ty, string()) {
        return Ok(false);
    }
    if ty.dims > 0 {
        let found = found_text(alloc, typed, object_class())?;
        return Ok(is_disabled(taming, found));
    }
    match ty.base {
        Base::Class(class) => {
            let found = found_text(alloc, typed, class)?;
            Ok(is_disabled(taming, found))
        }
        _ => Ok(false),
    }
}

#[tactic(auto, using(je_core::proofs::Views::view_is))]
fn judge_operand(
    alloc: Global,
    typed: &Typed,
    taming: &Taming,
    operand: &Expr,
    found: &mut Found,
) -> Result<(), Memory>
    ensures { OnOk result (found.new ≡
        followed_by found.old
        (operand_breaks (program_of typed.now) (rows taming.now) (view operand.now))) }
{
    let disabled = has_disabled_text(alloc, typed, taming, operand.ty)?;
    found.add_where(disabled, ConfinementRule::ObjectText, operand.span)
}

fn judge_maybe_operand(
    alloc: Global,
    typed: &Typed,
    taming: &Taming,
    operand: &Option<Rc<Expr>>,
    found: &mut Found,
) -> Result<(), Memory>
    ensures { OnOk result (found.new ≡
        followed_by found.old
        (maybe_operand_breaks (program_of typed.now) (rows taming.now)
        (maybe_core (view_if operand.now)))) }
{
    match operand {
        None => Ok(()),
        Some(operand) => judge_operand(alloc, typed, taming, operand, found),
    }
}

/// Adds the breaks of the operands of an expression of a form that become texts by a member which isn't enabled.
pub fn judge_texts(
    alloc: Global,
    typed: &Typed,
    taming: &Taming,
    form: &Form,
    found: &mut Found,
) -> Result<(), Memory>
    ensures { OnOk result (found.new ≡
        followed_by found.old
        (text_breaks (program_of typed.now) (rows taming.now) (form_view form.now))) }
{
    match form {
        Form::Concat { left, right } => {
            judge_operand(alloc, typed, taming, left, found)?;
            judge_operand(alloc, typed, taming, right, found)
        }
        Form::Update { operand, .. } => judge_maybe_operand(alloc, typed, taming, operand, found),
        _ => Ok(()),
    }
}
