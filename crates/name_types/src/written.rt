// Where types are written.

ghost use Rattle.std.specs.Prelude.{◌≡◌};
ghost use Rattle.je_ast.specs.Types.{type_view, type_node_view};
ghost use Rattle.je_scopes.specs.Faults.{name_span as the_name_span};

use je_ast::TyName;
use je_base::Span;

/// Where the name of a type is written; the whole type, where it is primitive.
#[tactic(auto, using(je_ast::proofs::Views::type_is))]
pub fn name_span(ty: &TyName) -> Span
    ensures { result ≡ the_name_span (type_view ty.now) }
{
    name_span_here(ty)
}

fn name_span_here(ty: &TyName) -> Span
    ensures { result ≡ the_name_span (type_node_view ty.now) }
{
    match ty {
        TyName::Primitive { span, .. } => *span,
        TyName::Class { name, .. } => name.span,
    }
}
