// What is written in an array's making.

use je_base::Span;
use typed_nodes::TypedExpr;

/// A length or an element, and its span with brackets.
#[derive(Drop)]
pub struct Part {
    pub value: TypedExpr,
    pub span: Span,
}
