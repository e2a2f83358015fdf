// The call of another constructor at the head of one.

ghost use Rattle.std.specs.Prelude.{◌≡◌};
ghost use Rattle.je_core.specs.Core.{core_stmts, form_of, stmt_form_of};
ghost use Rattle.je_core.specs.View.{form_view, program_view, stmt_form_view, stmt_view, stmt_views, view};
ghost use Rattle.constructor_calls.specs.Calls.{begins_with_call as the_begins_with_call, begins_with_call_form as the_begins_with_call_form, calls_constructor as the_calls_constructor, first_is_call as the_first_is_call, is_call as the_is_call, is_call_statement as the_is_call_statement};

use class_members::{method_at, names_constructors};
use je_core::{ClassId, Expr, Form, Program, Stmt, StmtForm};
use std::rc::Rc;

/// Whether the method of that number of a class is a constructor: a call of it is that of another constructor.
pub fn calls_constructor(program: &Program, class: ClassId, method: u32) -> bool
    ensures { result ≡ the_calls_constructor (program_view program.now) class method }
{
    match method_at(program, class, method as usize) {
        None => false,
        Some(method) => names_constructors(program, method.name),
    }
}

fn is_call_form(program: &Program, form: &Form) -> bool
    ensures { result ≡ the_is_call (program_view program.now) (form_view form.now) }
{
    match form {
        Form::CallExact { class, method, .. } => calls_constructor(program, *class, *method),
        _ => false,
    }
}

#[tactic(auto, using(je_core::proofs::Views::form_of_view))]
fn is_call(program: &Program, e: &Expr) -> bool
    ensures { result ≡ the_is_call (program_view program.now) (form_of (view e.now)) }
{
    is_call_form(program, &e.form)
}

fn is_call_statement_form(program: &Program, form: &StmtForm) -> bool
    ensures { result ≡ the_is_call_statement (program_view program.now) (stmt_form_view form.now) }
{
    match form {
        StmtForm::Do { expr } => is_call(program, expr),
        _ => false,
    }
}

#[tactic(auto, using(je_core::proofs::Views::stmt_view_is))]
fn is_call_statement(program: &Program, statement: &Stmt) -> bool
    ensures { result ≡ the_is_call_statement (program_view program.now)
        (stmt_form_of (stmt_view statement.now)) }
{
    is_call_statement_form(program, &statement.form)
}

fn first_is_call(program: &Program, parts: &[Rc<Stmt>]) -> bool
    ensures { result ≡ the_first_is_call (program_view program.now)
        (core_stmts (stmt_views parts.now)) }
{
    match parts.split_first() {
        None => false,
        Some((first, _)) => is_call_statement(program, first),
    }
}

fn begins_with_call_form(program: &Program, form: &StmtForm) -> bool
    ensures { result ≡ the_begins_with_call_form (program_view program.now)
        (stmt_form_view form.now) }
{
    match form {
        StmtForm::Block { parts, .. } => first_is_call(program, parts),
        _ => false,
    }
}

/// Whether a constructor's body begins with the call of another constructor.
#[tactic(auto, using(je_core::proofs::Views::stmt_view_is))]
pub fn begins_with_call(program: &Program, body: &Stmt) -> bool
    ensures { result ≡ the_begins_with_call (program_view program.now) (stmt_view body.now) }
{
    begins_with_call_form(program, &body.form)
}
