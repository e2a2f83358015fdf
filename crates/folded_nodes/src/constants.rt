// Constant expressions (JLS 15.28).

ghost use Rattle.std.specs.Prelude.{◌≡◌, ◌++◌, IfOk, OnOk, option_map};
ghost use Rattle.je_core.specs.View.{view, form_view};
ghost use Rattle.je_typing.specs.Constants.{constant_value as the_constant_value, constant_in as the_constant_in, unless_null as the_unless_null, constant_text as the_constant_text, text_in as the_text_in, uses_of as the_uses_of, uses_in as the_uses_in, value_in as the_value_in, value_in_base as the_value_in_base, boolean_value as the_boolean_value};
ghost use Rattle.je_fitting.specs.Types.{of as the_of};

use fit_parts::of;
use je_arith::try_convert;
use je_base::Span;
use je_core::{Base, Expr, Form, Mark, Memory, Units, Use, Value};
use std::alloc::Global;

fn unless_null(value: Value) -> Option<Value>
    ensures { result ≡ the_unless_null value }
{
    match value {
        Value::Null => None,
        _ => Some(value),
    }
}

fn constant_in(form: &Form) -> Option<Value>
    ensures { result ≡ the_constant_in (form_view form.now) }
{
    match form {
        Form::Const { value, .. } => unless_null(*value),
        _ => None,
    }
}

/// The value of a constant expression of a primitive type.
#[tactic(auto, using(je_core::proofs::Views::view_is))]
pub fn constant_value(node: &Expr) -> Option<Value>
    ensures { result ≡ the_constant_value (view node.now) }
{
    constant_in(&node.form)
}

fn text_in(form: &Form) -> Option<&Units>
    ensures { option_map (λ u. u.now) result ≡ the_text_in (form_view form.now) }
{
    match form {
        Form::Text { units, .. } => Some(units),
        _ => None,
    }
}

/// The units of a constant string.
#[tactic(auto, using(je_core::proofs::Views::view_is))]
pub fn constant_text(node: &Expr) -> Option<&Units>
    ensures { option_map (λ u. u.now) result ≡ the_constant_text (view node.now) }
{
    text_in(&node.form)
}

fn put_uses_in(uses: &mut Vec<Use>, form: &Form) -> Result<(), Memory>
    ensures { OnOk result (uses.new.items ≡
        uses.old.items ++ the_uses_in (form_view form.now)) }
{
    match form {
        Form::Const { uses: more, .. } | Form::Text { uses: more, .. } => {
            uses.extend_from_slice(more)?;
            Ok(())
        }
        _ => Ok(()),
    }
}

/// The library fields that a constant expression names, behind others.
#[tactic(auto, using(je_core::proofs::Views::view_is))]
pub fn put_uses(uses: &mut Vec<Use>, node: &Expr) -> Result<(), Memory>
    ensures { OnOk result (uses.new.items ≡ uses.old.items ++ the_uses_of (view node.now)) }
{
    put_uses_in(uses, &node.form)
}

/// The library fields that a constant expression names.
pub fn uses_of(alloc: Global, node: &Expr) -> Result<Vec<Use>, Memory>
    ensures { IfOk result (λ uses. uses.items ≡ the_uses_of (view node.now)) }
{
    let mut uses = Vec::new(alloc);
    put_uses(&mut uses, node)?;
    Ok(uses)
}

/// Those of two constant expressions, one behind the other.
pub fn joined_uses(alloc: Global, left: &Expr, right: &Expr) -> Result<Vec<Use>, Memory>
    ensures { IfOk result (λ uses. uses.items ≡
        the_uses_of (view left.now) ++ the_uses_of (view right.now)) }
{
    let mut uses = uses_of(alloc, left)?;
    put_uses(&mut uses, right)?;
    Ok(uses)
}

fn boolean_value(value: Value) -> Option<Value>
    ensures { result ≡ the_boolean_value value }
{
    match value {
        Value::Bool(_) => Some(value),
        _ => None,
    }
}

fn value_in_base(base: Base, value: Value) -> Option<Value>
    ensures { result ≡ the_value_in_base base value }
{
    match base {
        Base::Bool => boolean_value(value),
        _ => try_convert(value, base),
    }
}

/// A constant in a primitive type (JLS 5.1.2, 5.1.3).
pub fn value_in(base: Base, value: Option<Value>) -> Option<Value>
    ensures { result ≡ the_value_in base value }
{
    value_in_base(base, value?)
}

/// What a node of a primitive type carries beside its form.
pub fn mark_of(base: Base, at: Span, span: Span) -> Mark
    ensures ty { result.ty ≡ the_of base }
    ensures span { result.span ≡ span }
    ensures at { result.at ≡ at }
{
    Mark {
        ty: of(base),
        span,
        at,
    }
}
