// What is written of a class.

ghost use Rattle.std.specs.Prelude.{◌≡◌, ◌+◌, ◌<◌, ◌^◌, ◌∷◌, OnSome, option_map, slice_get, map};
ghost use Rattle.je_ast.specs.Types.{type_view, type_view_of_option, type_views_of, parameter_view};
ghost use Rattle.je_ast.specs.View.{declaration_view, declaration_node_view};
ghost use Rattle.je_scopes.specs.Headers.{declared_name, declared_modifiers, declared_parameters, declared_heads, name_in, modifiers_in, parameters_in, heads_in, has_name, is_local_sort, listed, with_superclass};
ghost use Rattle.je_scopes.specs.Scope.{place_of_parameter};
ghost use Rattle.name_walk.specs.View.{written_view};

use je_ast::{Decl, Identifier, Modifier, TyName, TypeParam};
use je_base::NameId;
use je_core::Sort;
use name_walk::Written;

/// Whether classes of a sort stand in blocks or behind `new`.
pub fn is_local(sort: Sort) -> bool
    ensures { result ≡ is_local_sort sort }
{
    matches!(sort, Sort::Local | Sort::Anonymous)
}

#[tactic(auto, using(je_ast::proofs::Views::declaration_is))]
fn identifier(decl: &Decl) -> Identifier
    ensures { result ≡ declared_name (declaration_view decl.now) }
{
    identifier_here(decl)
}

fn identifier_here(decl: &Decl) -> Identifier
    ensures { result ≡ declared_name (declaration_node_view decl.now) }
{
    match decl {
        Decl::Class { name, .. } | Decl::Interface { name, .. } | Decl::Enum { name, .. } => *name,
    }
}

/// The simple name of a class; none for one of the library or behind `new`.
pub fn name_of(written: Written) -> Option<NameId>
    ensures { result ≡ name_in (written_view written.entry) }
{
    match written {
        Written::Declared { decl } => Some(identifier(decl).name),
        Written::Library | Written::Anonymous { .. } => None,
    }
}

#[tactic(auto, using(je_ast::proofs::Views::declaration_is))]
fn modifiers(decl: &Decl) -> &[Modifier]
    ensures { result.now ≡ declared_modifiers (declaration_view decl.now) }
{
    modifiers_here(decl)
}

fn modifiers_here(decl: &Decl) -> &[Modifier]
    ensures { result.now ≡ declared_modifiers (declaration_node_view decl.now) }
{
    match decl {
        Decl::Class { modifiers, .. }
        | Decl::Interface { modifiers, .. }
        | Decl::Enum { modifiers, .. } => modifiers,
    }
}

/// The modifiers of a class.
pub fn modifiers_of<'a>(written: Written<'a>) -> &'a [Modifier]
    ensures { result.now ≡ modifiers_in (written_view written.entry) }
{
    match written {
        Written::Declared { decl } => modifiers(decl),
        Written::Library | Written::Anonymous { .. } => &[],
    }
}

#[tactic(auto, using(je_ast::proofs::Views::declaration_is))]
fn parameters(decl: &Decl) -> &[TypeParam]
    ensures { map parameter_view result.now ≡ declared_parameters (declaration_view decl.now) }
{
    parameters_here(decl)
}

fn parameters_here(decl: &Decl) -> &[TypeParam]
    ensures { map parameter_view result.now ≡ declared_parameters (declaration_node_view decl.now) }
{
    match decl {
        Decl::Class { params, .. } | Decl::Interface { params, .. } => params,
        Decl::Enum { .. } => &[],
    }
}

/// The type parameters of a class.
pub fn parameters_of<'a>(written: Written<'a>) -> &'a [TypeParam]
    ensures { map parameter_view result.now ≡ parameters_in (written_view written.entry) }
{
    match written {
        Written::Declared { decl } => parameters(decl),
        Written::Library | Written::Anonymous { .. } => &[],
    }
}

#[tactic(auto, using(je_ast::proofs::Views::declaration_is))]
fn declared_head(decl: &Decl, at: usize) -> Option<&TyName>
    ensures lookup { option_map (λ t. type_view t.now) result ≡
        slice_get (declared_heads (declaration_view decl.now)) at }
    ensures few { OnSome result (at + 1 < 2 ^ 64) }
{
    declared_head_here(decl, at)
}

fn declared_head_here(decl: &Decl, at: usize) -> Option<&TyName>
    ensures lookup { option_map (λ t. type_view t.now) result ≡
        slice_get (declared_heads (declaration_node_view decl.now)) at }
    ensures few { OnSome result (at + 1 < 2 ^ 64) }
{
    match decl {
        Decl::Class {
            extends,
            implements,
            ..
        } => head_of_class(extends, implements, at),
        Decl::Interface { extends, .. } => listed_at(extends, at),
        Decl::Enum { .. } => None,
    }
}

fn head_of_class<'a>(
    extends: &'a Option<TyName>,
    implements: &'a [TyName],
    at: usize,
) -> Option<&'a TyName>
    ensures lookup { option_map (λ t. type_view t.now) result ≡
        slice_get (with_superclass (type_view_of_option extends.now)
        (listed (type_views_of implements.now))) at }
    ensures few { OnSome result (at + 1 < 2 ^ 64) }
{
    match extends {
        None => listed_at(implements, at),
        Some(above) => if at == 0 {
            Some(above)
        } else {
            listed_at(implements, at - 1)
        },
    }
}

// The type at a place in a list of a header.
#[tactic(auto, using(crate::proofs::Heads::listed_names))]
fn listed_at(types: &[TyName], at: usize) -> Option<&TyName>
    ensures lookup { option_map (λ t. type_view t.now) result ≡
        slice_get (listed (type_views_of types.now)) at }
    ensures few { OnSome result (at + 2 < 2 ^ 64) }
{
    type_at(types, at)
}

fn type_at(types: &[TyName], at: usize) -> Option<&TyName>
    ensures lookup { option_map (λ t. type_view t.now) result ≡
        slice_get (map type_view types.now) at }
    ensures few { OnSome result (at + 2 < 2 ^ 64) }
{
    types.get(at)
}

/// The type at a place among those that a class's header names.
pub fn head<'a>(written: Written<'a>, at: usize) -> Option<&'a TyName>
    ensures lookup { option_map (λ t. type_view t.now) result ≡
        slice_get (heads_in (written_view written.entry)) at }
    ensures few { OnSome result (at + 1 < 2 ^ 64) }
{
    match written {
        Written::Library => None,
        Written::Declared { decl } => declared_head(decl, at),
        Written::Anonymous { class, .. } => if at == 0 { Some(class) } else { None },
    }
}

/// The place of the first type parameter of a name.
pub fn parameter_place(parameters: &[TypeParam], name: NameId) -> Option<usize>
    ensures { result ≡ place_of_parameter 0 (map parameter_view parameters.now) name }
{
    for (at, parameter) in parameters.iter().enumerate() {
        if parameter.name.name.0 == name.0 {
            return Some(at);
        }
    }
    None
}

/// Whether a class has a name.
pub fn has_this_name(written: Written, name: NameId) -> bool
    ensures { result ≡ has_name (name_in (written_view written.entry)) name }
{
    match name_of(written) {
        Some(own) => own.0 == name.0,
        None => false,
    }
}
