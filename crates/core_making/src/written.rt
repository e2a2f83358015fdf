// Where classes are written, and what stands round them.

ghost use Rattle.std.specs.Prelude.{◌≡◌};
ghost use Rattle.class_typing.specs.Programs.{enclosing as the_enclosing};
ghost use Rattle.declarations.specs.Declarations.{is_enum_sort as the_is_enum_sort};
ghost use Rattle.je_ast.specs.View.{declaration_node_view, declaration_view};
ghost use Rattle.je_scopes.specs.Headers.{declared_name, is_interface_sort as the_is_interface_sort, span_in};
ghost use Rattle.name_sites.specs.Number.{number_in};
ghost use Rattle.name_sites.specs.View.{source_of};
ghost use Rattle.name_walk.specs.View.{written_view};

use body_places::is_instance;
use je_ast::Decl;
use je_base::Span;
use je_core::{ClassId, Sort};
use name_sites::Sites;
use name_walk::Written;

#[tactic(auto, using(je_ast::proofs::Views::declaration_is))]
fn declared_span(decl: &Decl) -> Span
    ensures { result ≡ (declared_name (declaration_view decl.now)).span }
{
    declared_span_here(decl)
}

fn declared_span_here(decl: &Decl) -> Span
    ensures { result ≡ (declared_name (declaration_node_view decl.now)).span }
{
    match decl {
        Decl::Class { name, .. } | Decl::Interface { name, .. } | Decl::Enum { name, .. } => {
            name.span
        }
    }
}

/// Where the name of a class is written, or the word `new` of one without a name; nowhere for a class of the library.
pub fn written_span(written: Written) -> Span
    ensures { result ≡ span_in (written_view written.entry) }
{
    match written {
        Written::Library => Span {
            file: 0,
            start: 0,
            end: 0,
        },
        Written::Declared { decl } => declared_span(decl),
        Written::Anonymous { word, .. } => word,
    }
}

/// The class of the instance round those of a class, if there is one (JLS 8.1.3).
pub fn enclosing(sites: &Sites, class: ClassId) -> Option<ClassId>
    ensures { number_in result ≡ the_enclosing (source_of sites.now) class.0 }
{
    let outside = sites.outside(class);
    if is_instance(outside.context) {
        outside.within
    } else {
        None
    }
}

/// Whether it is that of an interface.
pub fn is_interface_sort(sort: Sort) -> bool
    ensures { result ≡ the_is_interface_sort sort }
{
    matches!(sort, Sort::Interface)
}

/// Whether it is that of an enum.
pub fn is_enum_sort(sort: Sort) -> bool
    ensures { result ≡ the_is_enum_sort sort }
{
    matches!(sort, Sort::Enum)
}
