// The spans of expressions.

ghost use Rattle.std.specs.Prelude.{◌≡◌};
ghost use Rattle.je_ast.specs.Spans.{span_of};
ghost use Rattle.je_ast.specs.View.{node_view, view};

use je_ast::Expr;
use je_base::Span;

/// The span of the whole expression.
#[tactic(auto, using(je_ast::proofs::Views::view_is))]
pub fn span(expr: &Expr) -> Span
    ensures { result ≡ span_of (view expr.now) }
{
    node_span(expr)
}

fn node_span(expr: &Expr) -> Span
    ensures { result ≡ span_of (node_view expr.now) }
{
    match expr {
        Expr::Name { name } => name.span,
        Expr::Literal { span, .. }
        | Expr::This { span }
        | Expr::OuterThis { span, .. }
        | Expr::Parens { span, .. }
        | Expr::Select { span, .. }
        | Expr::SuperSelect { span, .. }
        | Expr::Call { span, .. }
        | Expr::CallOn { span, .. }
        | Expr::SuperCall { span, .. }
        | Expr::Index { span, .. }
        | Expr::New { span, .. }
        | Expr::NewAnonymous { span, .. }
        | Expr::NewArray { span, .. }
        | Expr::NewArrayOf { span, .. }
        | Expr::ArrayInit { span, .. }
        | Expr::Cast { span, .. }
        | Expr::Prefix { span, .. }
        | Expr::Postfix { span, .. }
        | Expr::Binary { span, .. }
        | Expr::InstanceOf { span, .. }
        | Expr::Conditional { span, .. }
        | Expr::Assign { span, .. } => *span,
    }
}
