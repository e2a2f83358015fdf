// What a production asks of a statement.

ghost use Rattle.std.specs.Prelude.{◌≡◌};
ghost use Rattle.je_ast.specs.View.{statement_view, statement_node_view, declaration_view, declaration_node_view};
ghost use Rattle.je_ast.specs.Spans.{statement_span, declaration_span as the_declaration_span};
ghost use Rattle.je_grammar.specs.Context.{ends_short as the_short_end};

use je_ast::{Decl, Stmt};
use je_base::Span;
use parse_types::join;

/// Whether its end is an `if` without `else`, which an `else` behind it would belong to (JLS 14.9).
#[cycle(ends)]
#[tactic(auto, using(je_ast::proofs::Views::statement_is))]
pub fn ends_short(stmt: &Stmt) -> bool
    ensures { result ≡ the_short_end (statement_view stmt.now) }
{
    node_ends_short(stmt)
}

#[cycle(ends)]
fn node_ends_short(stmt: &Stmt) -> bool
    ensures { result ≡ the_short_end (statement_node_view stmt.now) }
{
    match stmt {
        Stmt::If { .. } => true,
        Stmt::IfElse { no, .. } => ends_short(no),
        Stmt::Labelled { body, .. }
        | Stmt::While { body, .. }
        | Stmt::For { body, .. }
        | Stmt::ForEach { body, .. } => ends_short(body),
        _ => false,
    }
}

/// The span of the whole statement.
#[tactic(auto, using(je_ast::proofs::Views::statement_is))]
pub fn span(stmt: &Stmt) -> Span
    ensures { result ≡ statement_span (statement_view stmt.now) }
{
    node_span(stmt)
}

fn node_span(stmt: &Stmt) -> Span
    ensures { result ≡ statement_span (statement_node_view stmt.now) }
{
    match stmt {
        Stmt::Block { block } => join(block.opening, block.closing),
        Stmt::Class { decl } => declaration_span(decl),
        Stmt::Local { span, .. }
        | Stmt::Empty { span }
        | Stmt::Labelled { span, .. }
        | Stmt::If { span, .. }
        | Stmt::IfElse { span, .. }
        | Stmt::While { span, .. }
        | Stmt::Do { span, .. }
        | Stmt::For { span, .. }
        | Stmt::ForEach { span, .. }
        | Stmt::Switch { span, .. }
        | Stmt::Break { span, .. }
        | Stmt::Continue { span, .. }
        | Stmt::Return { span, .. }
        | Stmt::Throw { span, .. }
        | Stmt::Try { span, .. }
        | Stmt::TryFinally { span, .. }
        | Stmt::ExpressionStatement { span, .. } => *span,
    }
}

/// The span of the whole declaration.
#[tactic(auto, using(je_ast::proofs::Views::declaration_is))]
pub fn declaration_span(decl: &Decl) -> Span
    ensures { result ≡ the_declaration_span (declaration_view decl.now) }
{
    declaration_node_span(decl)
}

fn declaration_node_span(decl: &Decl) -> Span
    ensures { result ≡ the_declaration_span (declaration_node_view decl.now) }
{
    match decl {
        Decl::Class { span, .. } | Decl::Interface { span, .. } | Decl::Enum { span, .. } => *span,
    }
}
