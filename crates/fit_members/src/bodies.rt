// Bodies (JLS 8.4.7, 8.8.7).

ghost use Rattle.std.specs.Prelude.{◌≡◌, [], ◌&&◌, ◌||◌, IfOk};
ghost use Rattle.je_core.specs.Core.{cores, maybe_core, core_stmts};
ghost use Rattle.je_core.specs.View.{view, views, view_if, form_view, stmt_form_view, stmt_view, stmt_views, method_view, program_view};
ghost use Rattle.je_fitting.specs.Members.{static_body as the_static_body, body_of as the_body_of};
ghost use Rattle.je_fitting.specs.Statements.{no_targets as the_no_targets};
ghost use Rattle.je_fitting.specs.way.DecidingMembers.{is_superclass as the_is_superclass, is_constructor_code, is_head_fit, is_call_first, is_body_fit};
ghost use Rattle.fit_parts.specs.Codes.{code_seen};
ghost use Rattle.je_fitting.specs.Expressions.{is_this as the_is_this};
ghost use Rattle.je_fitting.specs.way.Deciding.{is_fit};
ghost use Rattle.je_fitting.specs.way.DecidingStatements.{are_statements_fit};
ghost use Rattle.fit_members.specs.way.Calls.{is_call_fit, is_head_form, is_head_statement_form, is_head_statement_fit, is_body_form};

use class_members::same_class;
use fit_nodes::{expression_fits, expressions_fit, is_made_by, is_this};
use fit_parts::{Body, Code, is_constructor, is_void};
use fit_statements::{locals_there, no_targets, statements_fit};
use je_core::{ClassId, Expr, Form, Memory, Method, Program, Stmt, StmtForm, Ty};
use std::alloc::Global;
use std::rc::Rc;

/// The body of a static field's initializer.
pub fn static_body<'a>(class: ClassId) -> Body<'a>
    ensures { result ≡ the_static_body class [] }
{
    Body {
        class,
        code: Code::StaticInitializer,
        is_static: true,
        locals: &[],
        returns: None,
    }
}

/// The body of a method or constructor of a class.
pub fn body_of<'a>(program: &Program, class: ClassId, method: &'a Method) -> Body<'a>
    ensures { result ≡ the_body_of (program_view program.now) class (method_view method.now) }
{
    let code = if is_constructor(program, method) {
        Code::Constructor
    } else {
        Code::Method
    };
    Body {
        class,
        code,
        is_static: method.flags.is_static,
        locals: &method.locals,
        returns: Some(method.returns),
    }
}

fn is_superclass(superclass: Option<ClassId>, class: ClassId) -> bool
    ensures { result ≡ the_is_superclass superclass class }
{
    match superclass {
        None => false,
        Some(superclass) => same_class(superclass, class),
    }
}

fn builds_instances(code: Code) -> bool
    ensures { result ≡ is_constructor_code (code_seen code) }
{
    match code {
        Code::Constructor => true,
        _ => false,
    }
}

// Whether `this` stands before the call of another constructor.
fn is_own_receiver(
    alloc: Global,
    program: &Program,
    body: &Body<'_>,
    receiver: &Expr,
) -> Result<bool, Memory>
    ensures { IfOk result (λ own. own ≡ (the_is_this (view receiver.now) &&
        is_fit (program_view program.now) body.now (view receiver.now))) }
{
    if !is_this(receiver) {
        return Ok(false);
    }
    expression_fits(alloc, program, body, receiver)
}

// Whether a call is one of a constructor of the same class, or of its superclass.
fn call_fits(
    alloc: Global,
    program: &Program,
    body: &Body<'_>,
    superclass: Option<ClassId>,
    receiver: &Option<Rc<Expr>>,
    class: ClassId,
    method: u32,
    args: &[Rc<Expr>],
    ty: Ty,
) -> Result<bool, Memory>
    ensures { IfOk result (λ fits. fits ≡ is_call_fit (program_view program.now) body.now superclass
        (maybe_core (view_if receiver.now)) class method (cores (views args.now)) ty) }
{
    let Some(receiver) = receiver else {
        return Ok(false);
    };
    if !is_own_receiver(alloc, program, body, receiver)? {
        return Ok(false);
    }
    if !same_class(class, body.class) && !is_superclass(superclass, class) {
        return Ok(false);
    }
    if !is_made_by(alloc, program, class, method, args)? {
        return Ok(false);
    }
    if !expressions_fit(alloc, program, body, args)? {
        return Ok(false);
    }
    Ok(is_void(ty))
}

// Whether a form is that of the call of another constructor at the head of one.
fn head_form_fits(
    alloc: Global,
    program: &Program,
    body: &Body<'_>,
    superclass: Option<ClassId>,
    form: &Form,
    ty: Ty,
) -> Result<bool, Memory>
    ensures { IfOk result (λ fits. fits ≡
        is_head_form (program_view program.now) body.now superclass (form_view form.now) ty) }
{
    match form {
        Form::CallExact {
            receiver,
            class,
            method,
            args,
        } => {
            call_fits(
                alloc, program, body, superclass, receiver, *class, *method, args, ty,
            )
        }
        _ => Ok(false),
    }
}

// Whether an expression is the call of another constructor at the head of one.
#[tactic(auto, using(crate::proofs::HeadCalls::head_at))]
fn head_fits(
    alloc: Global,
    program: &Program,
    body: &Body<'_>,
    superclass: Option<ClassId>,
    call: &Expr,
) -> Result<bool, Memory>
    ensures { IfOk result (λ fits. fits ≡
        is_head_fit (program_view program.now) body.now superclass (view call.now)) }
{
    head_form_fits(alloc, program, body, superclass, &call.form, call.ty)
}

fn head_statement_form_fits(
    alloc: Global,
    program: &Program,
    body: &Body<'_>,
    superclass: Option<ClassId>,
    form: &StmtForm,
) -> Result<bool, Memory>
    ensures { IfOk result (λ fits. fits ≡ is_head_statement_form (program_view program.now) body.now
        superclass (stmt_form_view form.now)) }
{
    match form {
        StmtForm::Do { expr } => head_fits(alloc, program, body, superclass, expr),
        _ => Ok(false),
    }
}

// Whether a statement is the call of another constructor at the head of one.
#[tactic(auto, using(je_core::proofs::Views::stmt_form_of_view))]
fn head_statement_fits(
    alloc: Global,
    program: &Program,
    body: &Body<'_>,
    superclass: Option<ClassId>,
    head: &Stmt,
) -> Result<bool, Memory>
    ensures { IfOk result (λ fits. fits ≡ is_head_statement_fit (program_view program.now) body.now
        superclass (stmt_view head.now)) }
{
    head_statement_form_fits(alloc, program, body, superclass, &head.form)
}

// Whether statements begin with the call of another constructor, and the rest fits.
#[tactic(auto, using(crate::proofs::HeadCalls::call_first))]
fn call_first_fits(
    alloc: Global,
    program: &Program,
    body: &Body<'_>,
    superclass: Option<ClassId>,
    parts: &[Rc<Stmt>],
) -> Result<bool, Memory>
    ensures { IfOk result
        (λ fits. fits ≡ is_call_first (program_view program.now) body.now superclass
        (core_stmts (stmt_views parts.now))) }
{
    let Some((head, rest)) = parts.split_first() else {
        return Ok(false);
    };
    if !builds_instances(body.code) {
        return Ok(false);
    }
    if !head_statement_fits(alloc, program, body, superclass, head)? {
        return Ok(false);
    }
    statements_fit(alloc, program, body, &no_targets(), rest)
}

// Whether the statements of a body's block fit.
fn parts_fit(
    alloc: Global,
    program: &Program,
    body: &Body<'_>,
    superclass: Option<ClassId>,
    parts: &[Rc<Stmt>],
) -> Result<bool, Memory>
    ensures { IfOk result (λ fit. fit ≡ (are_statements_fit (program_view program.now) body.now
        the_no_targets (core_stmts (stmt_views parts.now)) ||
        is_call_first (program_view program.now) body.now superclass
        (core_stmts (stmt_views parts.now)))) }
{
    if statements_fit(alloc, program, body, &no_targets(), parts)? {
        return Ok(true);
    }
    call_first_fits(alloc, program, body, superclass, parts)
}

fn body_form_fits(
    alloc: Global,
    program: &Program,
    body: &Body<'_>,
    superclass: Option<ClassId>,
    form: &StmtForm,
) -> Result<bool, Memory>
    ensures { IfOk result (λ fits. fits ≡
        is_body_form (program_view program.now) body.now superclass (stmt_form_view form.now)) }
{
    match form {
        StmtForm::Block { locals, parts } => {
            if !locals_there(body, locals) {
                return Ok(false);
            }
            parts_fit(alloc, program, body, superclass, parts)
        }
        _ => Ok(false),
    }
}

/// Whether a body fits: it is a block, and that of a constructor may begin with the call of another one.
#[tactic(auto, using(crate::proofs::HeadCalls::body_at))]
pub fn body_fits(
    alloc: Global,
    program: &Program,
    body: &Body<'_>,
    superclass: Option<ClassId>,
    statement: &Stmt,
) -> Result<bool, Memory>
    ensures { IfOk result (λ fits. fits ≡
        is_body_fit (program_view program.now) body.now superclass (stmt_view statement.now)) }
{
    body_form_fits(alloc, program, body, superclass, &statement.form)
}
