// Conditions, and the statements that have one (JLS 14.9, 14.12 to 14.14).

ghost use Rattle.std.specs.Prelude.{◌≡◌, IfOk, IfErr, option_map};
ghost use Rattle.je_core.specs.Core.{maybe_stmt};
ghost use Rattle.je_core.specs.View.{stmt_view, view, views};
ghost use Rattle.je_typing.specs.Answers.{IsFault};
ghost use Rattle.je_typing.specs.Judged.{gives};
ghost use Rattle.typed_nodes.specs.Seen.{seen};
ghost use Rattle.statement_steps.specs.Conditions.{condition as the_condition, do_loop as the_do_loop, if_statement as the_if_statement, loop_statement as the_loop, no_condition as the_no_condition};

use fit_parts::of;
use je_base::{Memory, Span};
use je_core::{Base, Expr, Mark, Stmt, Value, make_const, make_do_loop, make_if, make_loop};
use je_typing::{Refusal, TypeRule, check};
use std::alloc::Global;
use std::rc::Rc;
use typed_nodes::{TypedExpr, is_boolean};

// What is asked, which has to be boolean; its span is that of what is written, brackets included.
#[tactic(auto, unfolding(crate::specs::Conditions::condition), using(je_typing::proofs::Walks::walks))]
fn condition(span: Span, asked: TypedExpr) -> Result<Expr, Refusal>
    ensures ok { IfOk result (λ node. the_condition span (seen asked) ≡ gives (view node)) }
    ensures err { IfErr result (IsFault (the_condition span (seen asked))) }
{
    let TypedExpr { node, ty } = asked;
    check(TypeRule::BadCondition, span, is_boolean(&ty))?;
    Ok(node)
}

/// The condition of a `for` that has none, whose first token stands there.
pub fn no_condition(alloc: Global, span: Span) -> Expr
    ensures { view result ≡ the_no_condition span }
{
    let mark = Mark {
        ty: of(Base::Bool),
        span,
        at: span,
    };
    make_const(mark, Value::Bool(true), Vec::new(alloc))
}

/// `if`, with or without `else`; a fault is BadCondition, at the condition.
#[tactic(auto, unfolding(crate::specs::Conditions::if_statement), using(je_typing::proofs::Walks::walks))]
pub fn if_statement(
    alloc: Global,
    span: Span,
    condition_span: Span,
    asked: TypedExpr,
    yes: Stmt,
    no: Option<Stmt>,
) -> Result<Stmt, Refusal>
    ensures ok { IfOk result (λ made. the_if_statement span condition_span (seen asked)
        (stmt_view yes) (maybe_stmt (option_map stmt_view no)) ≡ gives (stmt_view made)) }
    ensures err { IfErr result (IsFault (the_if_statement span condition_span (seen asked)
        (stmt_view yes) (maybe_stmt (option_map stmt_view no)))) }
{
    let test = condition(condition_span, asked)?;
    let made = make_if(alloc, span, span, test, yes, no)?;
    Ok(made)
}

/// `while` and `for`, which has steps; a fault is BadCondition, at the condition.
#[tactic(auto, unfolding(crate::specs::Conditions::loop_statement), using(je_typing::proofs::Walks::walks))]
pub fn loop_statement(
    alloc: Global,
    span: Span,
    condition_span: Span,
    asked: TypedExpr,
    steps: Vec<Rc<Expr>>,
    body: Stmt,
) -> Result<Stmt, Refusal>
    ensures ok { IfOk result (λ made. the_loop span condition_span (seen asked)
        (views steps.items) (stmt_view body) ≡ gives (stmt_view made)) }
    ensures err { IfErr result (IsFault (the_loop span condition_span (seen asked)
        (views steps.items) (stmt_view body))) }
{
    let test = condition(condition_span, asked)?;
    let made = make_loop(alloc, span, span, test, steps, body)?;
    Ok(made)
}

/// `do .. while`; a fault is BadCondition, at the condition.
#[tactic(auto, unfolding(crate::specs::Conditions::do_loop), using(je_typing::proofs::Walks::walks))]
pub fn do_loop(
    alloc: Global,
    span: Span,
    condition_span: Span,
    body: Stmt,
    asked: TypedExpr,
) -> Result<Stmt, Refusal>
    ensures ok { IfOk result (λ made. the_do_loop span condition_span (stmt_view body)
        (seen asked) ≡ gives (stmt_view made)) }
    ensures err { IfErr result (IsFault
        (the_do_loop span condition_span (stmt_view body) (seen asked))) }
{
    let test = condition(condition_span, asked)?;
    let made = make_do_loop(alloc, span, span, body, test)?;
    Ok(made)
}
