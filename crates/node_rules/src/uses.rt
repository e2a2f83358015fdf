// Members of the library that are used and aren't enabled.

ghost use Rattle.std.specs.Prelude.{◌≡◌, OnOk};
ghost use Rattle.je_core.specs.View.{form_view};
ghost use Rattle.rule_breaks.specs.Breaks.{of_each};
ghost use Rattle.rule_breaks.specs.way.Found.{followed_by};
ghost use Rattle.taming_db.specs.View.{rows};
ghost use Rattle.node_rules.specs.Uses.{constant_breaks, member_breaks, use_breaks};

use crate::enabled::may_use;
use je_core::{ClassId, Form, Memory, Span, Use};
use rule_breaks::{ConfinementRule, Found};
use taming_db::Taming;

// The use of a field, or of a method or constructor, that is named at a token.
fn judge_use(
    taming: &Taming,
    is_field: bool,
    class: ClassId,
    at: u32,
    span: Span,
    found: &mut Found,
) -> Result<(), Memory>
    ensures { OnOk result (found.new ≡
        followed_by found.old (use_breaks (rows taming.now) is_field class at span)) }
{
    let allowed = may_use(taming, is_field, class, at);
    found.add_where(!allowed, ConfinementRule::NotEnabled, span)
}

/// Adds the breaks of the fields that a constant expression names.
pub fn judge_constants(taming: &Taming, uses: &[Use], found: &mut Found) -> Result<(), Memory>
    ensures { OnOk result (found.new ≡
        followed_by found.old (of_each (constant_breaks (rows taming.now)) uses.now)) }
{
    for one in uses {
        judge_use(taming, true, one.class, one.field, one.span, found)?;
    }
    Ok(())
}

/// Adds the break of an expression of a form that uses a member which isn't enabled, at the token that names it.
pub fn judge_member(taming: &Taming, at: Span, form: &Form, found: &mut Found) -> Result<(), Memory>
    ensures { OnOk result (found.new ≡
        followed_by found.old (member_breaks (rows taming.now) at (form_view form.now))) }
{
    match form {
        Form::Const { uses, .. } | Form::Text { uses, .. } => judge_constants(taming, uses, found),
        Form::Field { class, field, .. } | Form::Static { class, field, .. } => {
            judge_use(taming, true, *class, *field, at, found)
        }
        Form::CallVirtual { class, method, .. }
        | Form::CallExact { class, method, .. }
        | Form::New { class, method, .. } => judge_use(taming, false, *class, *method, at, found),
        _ => Ok(()),
    }
}
