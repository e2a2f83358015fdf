// Texts of constants, and concatenation (JLS 15.18.1).

ghost use Rattle.std.specs.Prelude.{◌≡◌, ◌++◌, IfOk, option_map};
ghost use Rattle.je_core.specs.View.{view, form_view};
ghost use Rattle.je_core.specs.Core.{Text as TextForm, node};
ghost use Rattle.je_fitting.specs.Types.{string as the_string};
ghost use Rattle.je_typing.specs.Constants.{text_of_value as the_text_of_value, spelled as the_spelled, spelled_in as the_spelled_in, joined_texts as the_joined_texts, uses_of as the_uses_of};
ghost use Rattle.je_typing.specs.Operators.{concat_node as the_concat_node};

use crate::constants::{joined_uses, uses_of};
use fit_parts::string;
use je_base::Span;
use je_core::{Expr, Form, Mark, Memory, Units, Value, make_concat, make_text};
use std::alloc::Global;
use text_members::{copied, joined};
use text_numbers::{int_text, long_text, truth_text, unit_text};

fn text_mark(at: Span, span: Span) -> Mark
    ensures ty { result.ty ≡ the_string }
    ensures span { result.span ≡ span }
    ensures at { result.at ≡ at }
{
    Mark {
        ty: string(),
        span,
        at,
    }
}

fn text_of_value(alloc: Global, value: Value) -> Result<Option<Units>, Memory>
    ensures { IfOk result (λ text. text ≡ the_text_of_value value) }
{
    match value {
        Value::Bool(truth) => Ok(Some(truth_text(alloc, truth)?)),
        Value::Byte(number) => Ok(Some(int_text(alloc, number as i32)?)),
        Value::Short(number) => Ok(Some(int_text(alloc, number as i32)?)),
        Value::Char(unit) => Ok(Some(unit_text(alloc, unit)?)),
        Value::Int(number) => Ok(Some(int_text(alloc, number)?)),
        Value::Long(number) => Ok(Some(long_text(alloc, number)?)),
        Value::Null | Value::Ref(_) => Ok(None),
    }
}

fn spelled_in(alloc: Global, form: &Form) -> Result<Option<Units>, Memory>
    ensures { IfOk result (λ text. text ≡ the_spelled_in (form_view form.now)) }
{
    match form {
        Form::Const { value, .. } => text_of_value(alloc, *value),
        Form::Text { units, .. } => Ok(Some(copied(alloc, units.as_slice())?)),
        _ => Ok(None),
    }
}

// What a constant adds to a string.
#[tactic(auto, using(je_core::proofs::Views::view_is))]
fn spelled(alloc: Global, node: &Expr) -> Result<Option<Units>, Memory>
    ensures { IfOk result (λ text. text ≡ the_spelled (view node.now)) }
{
    spelled_in(alloc, &node.form)
}

fn joined_if(
    alloc: Global,
    left: Option<Units>,
    right: Option<Units>,
) -> Result<Option<Units>, Memory>
    ensures { IfOk result (λ text. text ≡ the_joined_texts left right) }
{
    match left {
        None => Ok(None),
        Some(left) => match right {
            None => Ok(None),
            Some(right) => Ok(Some(joined(alloc, left.as_slice(), right.as_slice())?)),
        },
    }
}

fn joined_spelled(alloc: Global, left: &Expr, right: &Expr) -> Result<Option<Units>, Memory>
    ensures { IfOk result (λ text. text ≡
        the_joined_texts (the_spelled (view left.now)) (the_spelled (view right.now))) }
{
    let before = spelled(alloc, left)?;
    let behind = spelled(alloc, right)?;
    joined_if(alloc, before, behind)
}

/// Two operands of `+` of which one is a String.
pub fn concat_node(
    alloc: Global,
    at: Span,
    span: Span,
    left: Expr,
    right: Expr,
) -> Result<Expr, Memory>
    ensures { IfOk result (λ made. view made ≡ the_concat_node at span (view left) (view right)) }
{
    match joined_spelled(alloc, &left, &right)? {
        Some(units) => {
            let uses = joined_uses(alloc, &left, &right)?;
            Ok(make_text(text_mark(at, span), units, uses))
        }
        None => make_concat(alloc, text_mark(at, span), left, right),
    }
}
