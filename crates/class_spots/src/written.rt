// Where classes begin that are written.

ghost use Rattle.std.specs.Prelude.{◌≡◌};
ghost use Rattle.je_ast.specs.View.{declaration_node_view, declaration_view};
ghost use Rattle.je_scopes.specs.Headers.{declared_name};
ghost use Rattle.name_walk.specs.View.{written_view};
ghost use Rattle.class_spots.specs.Starts.{name_in, word_in};

use je_ast::Decl;
use je_base::Span;
use name_walk::Written;

/// Where the word `new` stands before a body.
pub(crate) fn word_of(written: Written) -> Option<Span>
    ensures { result ≡ word_in (written_view written.entry) }
{
    match written {
        Written::Anonymous { word, .. } => Some(word),
        Written::Library | Written::Declared { .. } => None,
    }
}

/// Where the name of a declaration stands.
pub(crate) fn name_of(written: Written) -> Option<Span>
    ensures { result ≡ name_in (written_view written.entry) }
{
    match written {
        Written::Declared { decl } => Some(declared_span(decl)),
        Written::Library | Written::Anonymous { .. } => None,
    }
}

#[tactic(auto, using(je_ast::proofs::Views::declaration_is))]
fn declared_span(decl: &Decl) -> Span
    ensures { result ≡ (declared_name (declaration_view decl.now)).span }
{
    declared_span_here(decl)
}

fn declared_span_here(decl: &Decl) -> Span
    ensures { result ≡ (declared_name (declaration_node_view decl.now)).span }
{
    match decl {
        Decl::Class { name, .. } | Decl::Interface { name, .. } | Decl::Enum { name, .. } => {
            name.span
        }
    }
}
