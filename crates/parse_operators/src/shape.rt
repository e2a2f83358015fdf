// What a production asks of an expression.

ghost use Rattle.std.specs.Prelude.{◌≡◌};
ghost use Rattle.je_ast.specs.View.{view, node_view};
ghost use Rattle.je_ast.specs.Types.{type_view, type_node_view};
ghost use Rattle.je_ast.specs.Spans.{span_of, type_span as the_type_span};
ghost use Rattle.je_grammar.specs.Operators.{level as the_level, operator_level as the_operator_level};
ghost use Rattle.je_grammar.specs.Context.{is_bare_creation as the_bare_creation, is_step as the_step};

use je_ast::{BinaryOp, Expr, PrefixOp, TyName};
use je_base::Span;

/// How tightly the outermost production binds, from 1 for an assignment to 15 for a primary; 0 for an array initializer.
#[tactic(auto, using(je_ast::proofs::Views::view_is))]
pub fn level(expr: &Expr) -> u32
    ensures { result ≡ the_level (view expr.now) }
{
    node_level(expr)
}

fn node_level(expr: &Expr) -> u32
    ensures { result ≡ the_level (node_view expr.now) }
{
    match expr {
        Expr::ArrayInit { .. } => 0,
        Expr::Assign { .. } => 1,
        Expr::Conditional { .. } => 2,
        Expr::Binary { op, .. } => operator_level(*op),
        Expr::InstanceOf { .. } => 9,
        Expr::Prefix { .. } | Expr::Cast { .. } => 13,
        Expr::Postfix { .. } => 14,
        _ => 15,
    }
}

/// How tightly a binary operator binds (JLS 15.17 to 15.24).
pub fn operator_level(op: BinaryOp) -> u32
    ensures { result ≡ the_operator_level op }
{
    match op {
        BinaryOp::Or => 3,
        BinaryOp::And => 4,
        BinaryOp::BitOr => 5,
        BinaryOp::BitXor => 6,
        BinaryOp::BitAnd => 7,
        BinaryOp::Equal | BinaryOp::NotEqual => 8,
        BinaryOp::Less | BinaryOp::Greater | BinaryOp::LessEqual | BinaryOp::GreaterEqual => 9,
        BinaryOp::ShiftLeft | BinaryOp::ShiftRight | BinaryOp::UnsignedShiftRight => 10,
        BinaryOp::Add | BinaryOp::Subtract => 11,
        BinaryOp::Multiply | BinaryOp::Divide | BinaryOp::Remainder => 12,
    }
}

/// An array creation without initializer, which a bracket behind it doesn't index (JLS 15.10).
#[tactic(auto, using(je_ast::proofs::Views::view_is))]
pub fn is_bare_creation(expr: &Expr) -> bool
    ensures { result ≡ the_bare_creation (view expr.now) }
{
    is_bare_node(expr)
}

fn is_bare_node(expr: &Expr) -> bool
    ensures { result ≡ the_bare_creation (node_view expr.now) }
{
    matches!(expr, Expr::NewArray { .. })
}

/// Whether it may stand as a statement: an assignment, `++`, `--`, a call or an object creation (JLS 14.8).
#[tactic(auto, using(je_ast::proofs::Views::view_is))]
pub fn is_step(expr: &Expr) -> bool
    ensures { result ≡ the_step (view expr.now) }
{
    is_step_node(expr)
}

fn is_step_node(expr: &Expr) -> bool
    ensures { result ≡ the_step (node_view expr.now) }
{
    match expr {
        Expr::Assign { .. }
        | Expr::Postfix { .. }
        | Expr::Call { .. }
        | Expr::CallOn { .. }
        | Expr::SuperCall { .. }
        | Expr::New { .. }
        | Expr::NewAnonymous { .. } => true,
        Expr::Prefix { op, .. } => matches!(op, PrefixOp::Increment | PrefixOp::Decrement),
        _ => false,
    }
}

/// The span of the whole expression.
#[tactic(auto, using(je_ast::proofs::Views::view_is))]
pub fn span(expr: &Expr) -> Span
    ensures { result ≡ span_of (view expr.now) }
{
    node_span(expr)
}

fn node_span(expr: &Expr) -> Span
    ensures { result ≡ span_of (node_view expr.now) }
{
    match expr {
        Expr::Name { name } => name.span,
        Expr::Literal { span, .. }
        | Expr::This { span }
        | Expr::OuterThis { span, .. }
        | Expr::Parens { span, .. }
        | Expr::Select { span, .. }
        | Expr::SuperSelect { span, .. }
        | Expr::Call { span, .. }
        | Expr::CallOn { span, .. }
        | Expr::SuperCall { span, .. }
        | Expr::Index { span, .. }
        | Expr::New { span, .. }
        | Expr::NewAnonymous { span, .. }
        | Expr::NewArray { span, .. }
        | Expr::NewArrayOf { span, .. }
        | Expr::ArrayInit { span, .. }
        | Expr::Cast { span, .. }
        | Expr::Prefix { span, .. }
        | Expr::Postfix { span, .. }
        | Expr::Binary { span, .. }
        | Expr::InstanceOf { span, .. }
        | Expr::Conditional { span, .. }
        | Expr::Assign { span, .. } => *span,
    }
}

/// The span of a written type.
#[tactic(auto, using(je_ast::proofs::Views::type_is))]
pub fn type_span(ty: &TyName) -> Span
    ensures { result ≡ the_type_span (type_view ty.now) }
{
    node_type_span(ty)
}

fn node_type_span(ty: &TyName) -> Span
    ensures { result ≡ the_type_span (type_node_view ty.now) }
{
    match ty {
        TyName::Primitive { span, .. } | TyName::Class { span, .. } => *span,
    }
}
