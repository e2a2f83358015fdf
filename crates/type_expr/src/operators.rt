// Operators that stand before or behind their operand (JLS 15.14, 15.15).

ghost use Rattle.std.specs.Prelude.{◌≡◌, IfErr, IfOk, option_map};
ghost use Rattle.je_ast.specs.View.{node_view, view};
ghost use Rattle.je_ast.specs.Trees.{literal as the_literal};
ghost use Rattle.je_ast.specs.declared.operator.PrefixOp.TheVariants.{Minus as the_minus};
ghost use Rattle.je_typing.specs.Answers.{IsFault};
ghost use Rattle.je_typing.specs.Judged.{Judged, gives};
ghost use Rattle.je_typing.specs.Typed.{TypedNode};
ghost use Rattle.body_typing.specs.Expressions.{is_variable as the_is_variable, negative_literal as the_negative_literal, or_else, prefix_purpose as the_prefix_purpose, prefix_step as the_prefix_step, step_of as the_step_of, target_purpose as the_target_purpose};
ghost use Rattle.body_scopes.specs.View.{scope_seen};
ghost use Rattle.typed_nodes.specs.Seen.{seen};
ghost use Rattle.type_expr.specs.Seen.{purpose_seen};
ghost use Rattle.body_walks.specs.Walks.{known_in, program_in};

use crate::assignments::counted;
use crate::purpose::Purpose;
use body_scopes::Scope;
use body_walks::Bodies;
use expr_steps::{negative_int_literal, negative_long_literal, plus, unary};
use je_ast::{BinaryOp, Expr, Literal, PostfixOp, PrefixOp};
use je_base::Span;
use je_core::{BinOp, UnOp};
use je_typing::Refusal;
use operator_steps::Part;
use std::alloc::Global;
use typed_nodes::TypedExpr;

/// What `++` adds, and `--` takes away.
pub fn step_of(op: PostfixOp) -> BinOp
    ensures { result ≡ the_step_of op }
{
    match op {
        PostfixOp::Increment => BinOp::Add,
        PostfixOp::Decrement => BinOp::Sub,
    }
}

/// What the operand of a prefix operator is for.
pub fn prefix_purpose(op: PrefixOp) -> Purpose<'static>
    ensures { purpose_seen result ≡ the_prefix_purpose op }
{
    match op {
        PrefixOp::Increment | PrefixOp::Decrement => Purpose::Updated,
        PrefixOp::Plus | PrefixOp::Minus | PrefixOp::Not | PrefixOp::Tilde => Purpose::Read,
    }
}

/// Whether an expression is written as a variable (JLS 15.26): a name, a field or an element, in brackets or not.
#[cycle(variable)]
#[tactic(auto, using(je_ast::proofs::Views::view_is))]
pub fn is_variable(e: &Expr) -> bool
    ensures { result ≡ the_is_variable (view e.now) }
{
    is_variable_here(e)
}

#[cycle(variable)]
fn is_variable_here(e: &Expr) -> bool
    ensures { result ≡ the_is_variable (node_view e.now) }
{
    match e {
        Expr::Name { .. } | Expr::Select { .. } | Expr::SuperSelect { .. } | Expr::Index { .. } =>
            true,
        Expr::Parens { inner, .. } => is_variable(inner),
        _ => false,
    }
}

/// What the target of an assignment is for.
pub fn target_purpose(op: Option<BinaryOp>) -> Purpose<'static>
    ensures { purpose_seen result ≡ the_target_purpose op }
{
    match op {
        Some(_) => Purpose::Updated,
        None => Purpose::Assigned,
    }
}

/// An integer literal directly behind a minus, which may be one more; nothing where something else stands there.
#[tactic(auto, using(je_ast::proofs::Views::view_is))]
pub fn negative_literal(
    alloc: Global,
    op: PrefixOp,
    operand: &Expr,
    span: Span,
) -> Result<Option<TypedExpr>, Refusal>
    ensures ok { IfOk result (λ literal. the_negative_literal op (view operand.now) span
        ≡ option_map (λ t. gives (seen t)) literal) }
    ensures err { IfErr result (λ refusal. (other : Judged TypedNode) → IsFault (or_else
        (the_negative_literal op (view operand.now) span) other) refusal) }
{
    negative_literal_here(alloc, op, operand, span)
}

fn negative_literal_here(
    alloc: Global,
    op: PrefixOp,
    operand: &Expr,
    span: Span,
) -> Result<Option<TypedExpr>, Refusal>
    ensures ok { IfOk result (λ literal. the_negative_literal op (node_view operand.now) span
        ≡ option_map (λ t. gives (seen t)) literal) }
    ensures err { IfErr result (λ refusal. (other : Judged TypedNode) → IsFault (or_else
        (the_negative_literal op (node_view operand.now) span) other) refusal) }
{
    match (op, operand) {
        (PrefixOp::Minus, Expr::Literal { literal, span: own }) => {
            negated(alloc, literal, *own, span)
        }
        _ => Ok(None),
    }
}

// A literal behind a minus.
fn negated(
    alloc: Global,
    literal: &Literal,
    own: Span,
    span: Span,
) -> Result<Option<TypedExpr>, Refusal>
    ensures ok { IfOk result (λ t. the_negative_literal the_minus (the_literal literal.now own) span
        ≡ option_map (λ t. gives (seen t)) t) }
    ensures err { IfErr result (λ refusal. (other : Judged TypedNode) → IsFault (or_else
        (the_negative_literal the_minus (the_literal literal.now own) span) other) refusal) }
{
    match literal {
        Literal::Int { value } => Ok(Some(negative_int_literal(alloc, *value, own, span)?)),
        Literal::Long { value } => Ok(Some(negative_long_literal(alloc, *value, own, span)?)),
        _ => Ok(None),
    }
}

/// A prefix operator, of an operand that is judged, and written as a variable or not.
pub fn prefix_step(
    bodies: &Bodies,
    scope: &Scope,
    op: PrefixOp,
    at: Span,
    span: Span,
    operand: Part,
    is_variable: bool,
) -> Result<TypedExpr, Refusal>
    ensures ok { IfOk result (λ t. the_prefix_step (program_in bodies.now) (known_in bodies.now)
        (scope_seen scope.now) op at operand.span is_variable span (seen operand.value)
        ≡ gives (seen t)) }
    ensures err { IfErr result (IsFault (the_prefix_step (program_in bodies.now)
        (known_in bodies.now) (scope_seen scope.now) op at operand.span is_variable span
        (seen operand.value))) }
{
    let alloc = bodies.calls.program.source.alloc;
    match op {
        PrefixOp::Plus => plus(alloc, at, span, operand.value),
        PrefixOp::Minus => unary(alloc, UnOp::Minus, at, span, operand.value),
        PrefixOp::Not => unary(alloc, UnOp::Not, at, span, operand.value),
        PrefixOp::Tilde => unary(alloc, UnOp::Tilde, at, span, operand.value),
        PrefixOp::Increment => counted(
            bodies,
            scope,
            BinOp::Add,
            false,
            at,
            span,
            operand,
            is_variable,
        ),
        PrefixOp::Decrement => counted(
            bodies,
            scope,
            BinOp::Sub,
            false,
            at,
            span,
            operand,
            is_variable,
        ),
    }
}
