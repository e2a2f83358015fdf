// Which variable an expression names.

ghost use Rattle.std.specs.Prelude.{◌≡◌};
ghost use Rattle.je_core.specs.Core.{form_of};
ghost use Rattle.je_core.specs.View.{view, form_view};
ghost use Rattle.assigned_expressions.specs.Places.{is_home as the_is_home, own_field as the_own_field, field_of as the_field_of, variable_in as the_variable_in, variable_of as the_variable_of};

use je_core::{ClassId, Expr, Form};
use variable_sets::{field_number, local_number};

/// The variable that an expression names: a local, or a field of the class at home.
#[tactic(auto, using(je_core::proofs::Views::form_of_view))]
pub fn variable_of(home: Option<ClassId>, e: &Expr) -> Option<usize>
    ensures { result ≡ the_variable_of home (view e.now) }
{
    variable_in(home, &e.form)
}

/// The variable that an expression of a form names.
pub fn variable_in(home: Option<ClassId>, form: &Form) -> Option<usize>
    ensures { result ≡ the_variable_in home (form_view form.now) }
{
    match form {
        Form::Local { local } => Some(local_number(*local as usize)),
        Form::Field {
            object,
            class,
            field,
        } => field_of(home, *class, *field, object),
        Form::Static { class, field, .. } => own_field(home, *class, *field),
        _ => None,
    }
}

#[tactic(auto, using(je_core::proofs::Views::form_of_view))]
fn field_of(home: Option<ClassId>, class: ClassId, field: u32, object: &Expr) -> Option<usize>
    ensures { result ≡ the_field_of home class field (form_of (view object.now)) }
{
    field_in(home, class, field, &object.form)
}

fn field_in(home: Option<ClassId>, class: ClassId, field: u32, object: &Form) -> Option<usize>
    ensures { result ≡ the_field_of home class field (form_view object.now) }
{
    match object {
        Form::This => own_field(home, class, field),
        _ => None,
    }
}

fn own_field(home: Option<ClassId>, class: ClassId, field: u32) -> Option<usize>
    ensures { result ≡ the_own_field home class field }
{
    if is_home(home, class) {
        return Some(field_number(field as usize));
    }
    None
}

/// Whether a class is the one at home.
pub fn is_home(home: Option<ClassId>, class: ClassId) -> bool
    ensures { result ≡ the_is_home home class }
{
    match home {
        None => false,
        Some(home) => home.0 == class.0,
    }
}
