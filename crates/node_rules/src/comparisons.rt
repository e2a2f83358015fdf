// References that are compared.

ghost use Rattle.std.specs.Prelude.{◌≡◌, OnOk};
ghost use Rattle.je_core.specs.Core.{form_of};
ghost use Rattle.je_core.specs.View.{form_view, view};
ghost use Rattle.je_types.specs.Views.{program_of};
ghost use Rattle.rule_breaks.specs.way.Found.{followed_by};
ghost use Rattle.taming_db.specs.View.{rows};
ghost use Rattle.node_rules.specs.Comparisons.{comparison_breaks, is_equality as the_is_equality, is_equatable as the_is_equatable, is_null as the_is_null, is_null_form as the_is_null_form, tells_identity as the_tells_identity};

use fit_parts::{is_reference, type_of};
use je_core::{BinOp, Expr, Form, Memory, Span, Ty, Value};
use je_types::Typed;
use overlay_types::has;
use rule_breaks::{ConfinementRule, Found};
use taming_db::{Marker, Taming};

fn is_equality(op: BinOp) -> bool
    ensures { result ≡ the_is_equality op }
{
    match op {
        BinOp::Eq | BinOp::Ne => true,
        _ => false,
    }
}

fn is_null_form(form: &Form) -> bool
    ensures { result ≡ the_is_null_form (form_view form.now) }
{
    match form {
        Form::Const {
            value: Value::Null,
            ..
        } => true,
        _ => false,
    }
}

// Whether an expression is the literal null.
#[tactic(auto, using(je_core::proofs::Views::form_of_view))]
fn is_null(e: &Expr) -> bool
    ensures { result ≡ the_is_null (view e.now) }
{
    is_null_form(&e.form)
}

fn is_equatable(typed: &Typed, taming: &Taming, ty: Ty) -> bool
    ensures { result ≡ the_is_equatable (program_of typed.now) (rows taming.now) ty }
{
    has(typed, taming, ty, Marker::Equatable)
}

// Whether a comparison of two references tells that they are one object, and no type grants it.
fn tells_identity(typed: &Typed, taming: &Taming, left: &Expr, right: &Expr) -> bool
    ensures { result ≡ the_tells_identity (program_of typed.now) (rows taming.now)
        (view left.now) (view right.now) }
{
    let (left_type, right_type) = (type_of(left), type_of(right));
    if !is_reference(left_type) || !is_reference(right_type) {
        return false;
    }
    if is_null(left) || is_null(right) {
        return false;
    }
    !(is_equatable(typed, taming, left_type) || is_equatable(typed, taming, right_type))
}

/// Adds the break of an expression of a form that compares references, at its operator.
pub fn judge_comparison(
    typed: &Typed,
    taming: &Taming,
    at: Span,
    form: &Form,
    found: &mut Found,
) -> Result<(), Memory>
    ensures { OnOk result (found.new ≡
        followed_by found.old
        (comparison_breaks (program_of typed.now) (rows taming.now) at (form_view form.now))) }
{
    match form {
        Form::Binary { op, left, right } => {
            let tells = is_equality(*op) && tells_identity(typed, taming, left, right);
            found.add_where(tells, ConfinementRule::IdentityComparison, at)
        }
        _ => Ok(()),
    }
}
