// Boolean constant expressions (JLS 15.28).

ghost use Rattle.std.specs.Prelude.{◌≡◌};
ghost use Rattle.je_core.specs.View.{view, form_view};
ghost use Rattle.flow_base.specs.Constants.{constant_in, constant_of, is_always};

use je_core::{Expr, Form, Value};

/// The value of a boolean constant expression; None of any other expression.
#[tactic(auto, using(je_core::proofs::Views::form_of_view))]
pub fn boolean_constant(e: &Expr) -> Option<bool>
    ensures { result ≡ constant_of (view e.now) }
{
    constant_in_form(&e.form)
}

/// The value of a boolean constant expression of a form; None of any other form.
pub fn constant_in_form(form: &Form) -> Option<bool>
    ensures { result ≡ constant_in (form_view form.now) }
{
    match form {
        Form::Const {
            value: Value::Bool(value),
            ..
        } => Some(*value),
        _ => None,
    }
}

/// Whether an expression is a constant expression of that value.
pub fn is_constantly(e: &Expr, value: bool) -> bool
    ensures { result ≡ is_always value (constant_of (view e.now)) }
{
    match boolean_constant(e) {
        Some(constant) => constant == value,
        None => false,
    }
}
