// The faults of reachability of a whole program.

ghost use Rattle.std.specs.Prelude.{◌≡◌, IfOk, OnOk, map};
ghost use Rattle.je_core.specs.View.{stmt_view, stmt_view_if, initializer_view, method_view, class_view, program_view};
ghost use Rattle.flow_base.specs.FaultSets.{of_each};
ghost use Rattle.flow_base.specs.way.Kept.{first_of};
ghost use Rattle.reachability.specs.Programs.{completes as the_completes, first_token as the_first_token, last_token as the_last_token, is_void_base as the_is_void_base, must_return as the_must_return, body_faults, method_faults, initializer_faults, initializer_body_faults, class_faults, program_faults};

use crate::statements::walk_statement;
use flow_base::{FaultKind, FirstFault};
use je_core::{Base, Class, Initializer, Memory, Method, Program, Span, Stmt, Ty};
use std::alloc::Global;

/// Adds the faults of reachability of a program to those found.
#[tactic(auto, unfolding(crate::specs::Programs::program_faults, je_core::specs::View::program_view))]
pub fn judge_program(alloc: Global, program: &Program, found: &mut FirstFault) -> Result<(), Memory>
    ensures { OnOk result (found.new ≡
        first_of found.old (program_faults (program_view program.now))) }
{
    judge_classes(alloc, &program.classes, found)
}

fn judge_classes(alloc: Global, classes: &[Class], found: &mut FirstFault) -> Result<(), Memory>
    ensures { OnOk result (found.new ≡
        first_of found.old (of_each class_faults (map class_view classes.now))) }
{
    for class in classes {
        judge_class(alloc, class, found)?;
    }
    Ok(())
}

fn judge_class(alloc: Global, class: &Class, found: &mut FirstFault) -> Result<(), Memory>
    ensures { OnOk result (found.new ≡
        first_of found.old (class_faults (class_view class.now))) }
{
    judge_initializers(alloc, &class.initializers, found)?;
    judge_methods(alloc, &class.methods, found)
}

fn judge_initializers(
    alloc: Global,
    initializers: &[Initializer],
    found: &mut FirstFault,
) -> Result<(), Memory>
    ensures { OnOk result (found.new ≡
        first_of found.old (of_each initializer_faults (map initializer_view initializers.now))) }
{
    for initializer in initializers {
        judge_initializer(alloc, &initializer.body, found)?;
    }
    Ok(())
}

// Adds the faults of an initializer, which must complete normally.
fn judge_initializer(alloc: Global, body: &Stmt, found: &mut FirstFault) -> Result<(), Memory>
    ensures { OnOk result (found.new ≡
        first_of found.old (initializer_body_faults (stmt_view body.now))) }
{
    let ends = walk_statement(alloc, body, None, true, found)?;
    found.add_where(!ends.completes, FaultKind::Unreachable, first_token(body));
    Ok(())
}

fn judge_methods(alloc: Global, methods: &[Method], found: &mut FirstFault) -> Result<(), Memory>
    ensures { OnOk result (found.new ≡
        first_of found.old (of_each method_faults (map method_view methods.now))) }
{
    for method in methods {
        judge_method(alloc, method, found)?;
    }
    Ok(())
}

fn judge_method(alloc: Global, method: &Method, found: &mut FirstFault) -> Result<(), Memory>
    ensures { OnOk result (found.new ≡
        first_of found.old (method_faults (method_view method.now))) }
{
    match &method.body {
        None => Ok(()),
        Some(body) => judge_body(alloc, must_return(method.returns), body, found),
    }
}

// Adds the faults of a body, which must return a value or need not.
fn judge_body(
    alloc: Global,
    must_return: bool,
    body: &Stmt,
    found: &mut FirstFault,
) -> Result<(), Memory>
    ensures { OnOk result (found.new ≡
        first_of found.old (body_faults must_return (stmt_view body.now))) }
{
    let ends = walk_statement(alloc, body, None, true, found)?;
    let misses = must_return && ends.completes;
    found.add_where(misses, FaultKind::MissingReturn, last_token(body));
    Ok(())
}

// Whether a method with such a result returns a value.
fn must_return(ty: Ty) -> bool
    ensures { result ≡ the_must_return ty }
{
    !is_void_base(ty.base)
}

fn is_void_base(base: Base) -> bool
    ensures { result ≡ the_is_void_base base }
{
    match base {
        Base::Void => true,
        _ => false,
    }
}

#[tactic(auto, using(je_core::proofs::Views::stmt_view_is))]
fn first_token(statement: &Stmt) -> Span
    ensures { result ≡ the_first_token (stmt_view statement.now) }
{
    statement.span
}

#[tactic(auto, using(je_core::proofs::Views::stmt_view_is))]
fn last_token(statement: &Stmt) -> Span
    ensures { result ≡ the_last_token (stmt_view statement.now) }
{
    statement.at
}

/// Whether a statement can complete normally where it can be reached.
pub fn completes(alloc: Global, statement: &Stmt) -> Result<bool, Memory>
    ensures { IfOk result (λ c. c ≡ the_completes (stmt_view statement.now)) }
{
    let mut found = FirstFault::none();
    let ends = walk_statement(alloc, statement, None, true, &mut found)?;
    Ok(ends.completes)
}
