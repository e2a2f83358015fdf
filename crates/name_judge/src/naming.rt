// Where the name of a class is written, and what stands round it.

ghost use Rattle.std.specs.Prelude.{◌≡◌, ◌&&◌, Some, not};
ghost use Rattle.je_ast.specs.View.{declaration_view, declaration_node_view};
ghost use Rattle.je_scopes.specs.Headers.{declared_name, is_guest as is_a_guest, is_local_sort, site_at, span_in, within};
ghost use Rattle.je_scopes.specs.Scope.{is_static_context};
ghost use Rattle.je_scopes.specs.Faults.{is_generic as is_generic_class, is_name_round as is_a_name_round};
ghost use Rattle.name_walk.specs.View.{written_view};
ghost use Rattle.name_sites.specs.Number.{number_in};
ghost use Rattle.name_sites.specs.View.{source_of};

use je_ast::Decl;
use je_base::{NameId, Span};
use je_core::ClassId;
use name_sites::{Sites, is_local};
use name_types::arity;
use name_walk::{Context, Written};

#[tactic(auto, using(je_ast::proofs::Views::declaration_is))]
fn declared_span(decl: &Decl) -> Span
    ensures { result ≡ (declared_name (declaration_view decl.now)).span }
{
    declared_span_here(decl)
}

fn declared_span_here(decl: &Decl) -> Span
    ensures { result ≡ (declared_name (declaration_node_view decl.now)).span }
{
    match decl {
        Decl::Class { name, .. } | Decl::Interface { name, .. } | Decl::Enum { name, .. } => {
            name.span
        }
    }
}

/// Where the name of a class is written, or the word `new` of one without a name; nowhere for a class of the library.
pub fn name_span(written: Written) -> Span
    ensures { result ≡ span_in (written_view written.entry) }
{
    match written {
        Written::Library => Span {
            file: 0,
            start: 0,
            end: 0,
        },
        Written::Declared { decl } => declared_span(decl),
        Written::Anonymous { word, .. } => word,
    }
}

/// Whether a class round a class has its name (JLS 8.1).
pub fn is_name_round(sites: &Sites, class: ClassId) -> bool
    ensures { let site = site_at (source_of sites.now).sites class.0 in
        result ≡ is_a_name_round (source_of sites.now) (name_in site.written) site.spot.round }
{
    match sites.name(class) {
        Some(name) => is_round(sites, class, name),
        None => false,
    }
}

ghost use Rattle.std.specs.List.{list_any};
ghost use Rattle.je_scopes.specs.Headers.{has_name, name_in};

fn is_round(sites: &Sites, class: ClassId, name: NameId) -> bool
    ensures { result ≡ list_any
        (λ d. has_name (name_in (site_at (source_of sites.now).sites d).written) name)
        (site_at (source_of sites.now).sites class.0).spot.round }
{
    let mut next = sites.outside(class).within;
    while let Some(round) = next {
        if has_this_name(sites, round, name) {
            return true;
        }
        next = sites.outside(round).within;
    }
    false
}

// Whether a class has a name.
fn has_this_name(sites: &Sites, class: ClassId, name: NameId) -> bool
    ensures { result ≡ has_name
        (name_in (site_at (source_of sites.now).sites class.0).written) name }
{
    match sites.name(class) {
        Some(own) => own.0 == name.0,
        None => false,
    }
}

/// Whether it is a member class of a generic class and not static.
pub fn is_inner_of_generic(sites: &Sites, class: ClassId) -> bool
    ensures { let site = site_at (source_of sites.now).sites class.0 in
        result ≡ (not (is_local_sort site.sort)
        && is_generic_class (source_of sites.now) (within site)
        && not (is_static_context site.spot.context)) }
{
    if is_local(sites.sort(class)) {
        return false;
    }
    let outside = sites.outside(class);
    is_generic(sites, outside.within) && !is_static(outside.context)
}

fn is_static(context: Context) -> bool
    ensures { result ≡ is_static_context (context_view context) }
{
    matches!(context, Context::Static)
}

ghost use Rattle.name_walk.specs.View.{context_view};

fn is_generic(sites: &Sites, class: Option<ClassId>) -> bool
    ensures { result ≡ is_generic_class (source_of sites.now) (number_in class) }
{
    match class {
        Some(class) => arity(sites, class) != 0,
        None => false,
    }
}
