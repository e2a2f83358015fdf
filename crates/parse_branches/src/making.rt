// Makes statements: each is made in a function of its own, so that what recurs holds no tree but those that it reads.

ghost use Rattle.std.specs.Prelude.{◌≡◌, IfOk};
ghost use Rattle.je_ast.specs.Spans.{join as joined, statement_span};
ghost use Rattle.je_ast.specs.Trees as tree;
ghost use Rattle.je_ast.specs.Types.{type_view};
ghost use Rattle.je_ast.specs.View.{view, views_of, view_of_option, statement_view, for_initializer_view};

use crate::shape::span;
use je_ast::{Expr, ForInit, Identifier, Stmt, TyName, make_for, make_stmt};
use je_base::{Memory, Span};
use parse_below::boxed_statement;
use parse_types::join;
use std::alloc::Global;

/// An `if` without `else`.
pub fn if_only(alloc: Global, first: Span, condition: Expr, yes: Stmt) -> Result<Stmt, Memory>
    ensures { IfOk result (λ b. statement_view b
        ≡ tree.if_only first (view condition) (statement_view yes)
        (joined first (statement_span (statement_view yes)))) }
{
    let span = join(first, span(&yes));
    let yes = boxed_statement(alloc, yes)?;
    Ok(make_stmt(Stmt::If {
        first,
        condition,
        yes,
        span,
    }))
}

/// An `if` with `else`.
pub fn if_else(
    alloc: Global,
    first: Span,
    condition: Expr,
    yes: Stmt,
    no: Stmt,
) -> Result<Stmt, Memory>
    ensures { IfOk result (λ b. statement_view b
        ≡ tree.if_else first (view condition) (statement_view yes) (statement_view no)
        (joined first (statement_span (statement_view no)))) }
{
    let span = join(first, span(&no));
    let yes = boxed_statement(alloc, yes)?;
    let no = boxed_statement(alloc, no)?;
    Ok(either(first, condition, yes, no, span))
}

// An `if` with `else`, of what is on the heap.
fn either(first: Span, condition: Expr, yes: Box<Stmt>, no: Box<Stmt>, span: Span) -> Stmt
    ensures { statement_view result
        ≡ tree.if_else first (view condition) (statement_view yes.value) (statement_view no.value)
        span }
{
    make_stmt(Stmt::IfElse {
        first,
        condition,
        yes,
        no,
        span,
    })
}

/// A `while`.
pub fn while_loop(alloc: Global, first: Span, condition: Expr, body: Stmt) -> Result<Stmt, Memory>
    ensures { IfOk result (λ b. statement_view b
        ≡ tree.while first (view condition) (statement_view body)
        (joined first (statement_span (statement_view body)))) }
{
    let span = join(first, span(&body));
    let body = boxed_statement(alloc, body)?;
    Ok(make_stmt(Stmt::While {
        first,
        condition,
        body,
        span,
    }))
}

/// A `do`, which ends with the token of this span.
pub fn do_loop(
    alloc: Global,
    first: Span,
    body: Stmt,
    condition: Expr,
    end: Span,
) -> Result<Stmt, Memory>
    ensures { IfOk result (λ b. statement_view b
        ≡ tree.do_while first (statement_view body) (view condition) (joined first end)) }
{
    let body = boxed_statement(alloc, body)?;
    Ok(make_stmt(Stmt::Do {
        first,
        body,
        condition,
        span: join(first, end),
    }))
}

/// A statement behind a label.
pub fn with_label(alloc: Global, label: Identifier, body: Stmt) -> Result<Stmt, Memory>
    ensures { IfOk result (λ b. statement_view b
        ≡ tree.labelled label (statement_view body)
        (joined label.span (statement_span (statement_view body)))) }
{
    let span = join(label.span, span(&body));
    let body = boxed_statement(alloc, body)?;
    Ok(make_stmt(Stmt::Labelled { label, body, span }))
}

/// A `for` with its head in three parts.
pub fn for_loop(
    alloc: Global,
    first: Span,
    init: ForInit,
    condition: Option<Expr>,
    steps: Vec<Expr>,
    body: Stmt,
) -> Result<Stmt, Memory>
    ensures { IfOk result (λ b. statement_view b
        ≡ tree.for first (for_initializer_view init) (view_of_option condition)
        (views_of steps.items) (statement_view body)
        (joined first (statement_span (statement_view body)))) }
{
    let span = join(first, span(&body));
    let body = boxed_statement(alloc, body)?;
    Ok(make_for(first, init, condition, steps, body, span))
}

/// A `for` over an array.
pub fn each_loop(
    alloc: Global,
    first: Span,
    is_final: bool,
    ty: TyName,
    name: Identifier,
    array: Expr,
    body: Stmt,
) -> Result<Stmt, Memory>
    ensures { IfOk result (λ b. statement_view b
        ≡ tree.for_each first is_final (type_view ty) name (view array) (statement_view body)
        (joined first (statement_span (statement_view body)))) }
{
    let span = join(first, span(&body));
    let body = boxed_statement(alloc, body)?;
    Ok(make_stmt(Stmt::ForEach {
        first,
        is_final,
        ty,
        name,
        array,
        body,
        span,
    }))
}

/// A `throw`.
pub fn throw(first: Span, value: Expr, span: Span) -> Stmt
    ensures { statement_view result ≡ tree.throw first (view value) span }
{
    make_stmt(Stmt::Throw { first, value, span })
}

/// An empty statement.
pub fn empty(span: Span) -> Stmt
    ensures { statement_view result ≡ tree.empty span }
{
    make_stmt(Stmt::Empty { span })
}

/// A `break`.
pub fn break_off(first: Span, label: Option<Identifier>, span: Span) -> Stmt
    ensures { statement_view result ≡ tree.break first label span }
{
    make_stmt(Stmt::Break { first, label, span })
}

/// A `continue`.
pub fn go_on(first: Span, label: Option<Identifier>, span: Span) -> Stmt
    ensures { statement_view result ≡ tree.continue first label span }
{
    make_stmt(Stmt::Continue { first, label, span })
}
