// The types that headers and signatures write.

ghost use Rattle.std.specs.Prelude.{◌≡◌, ◌+◌, ℕ, IfOk, length, min, map};
ghost use Rattle.je_ast.specs.Types.{type_view, type_node_view, type_views_of, formal_view};
ghost use Rattle.je_scopes.specs.Members.{formal_type as the_formal_type};
ghost use Rattle.je_scopes.specs.Looks.{a_class};
ghost use Rattle.je_scopes.specs.SourceTypes.{SourceTypes, base_of as the_base_of, count, source_type as the_source_type, type_for, types_named as the_types_named};
ghost use Rattle.name_sites.specs.View.{source_of};
ghost use Rattle.name_lookup.specs.View.{look_view, known_of, part_view};
ghost use Rattle.name_lookup.specs.Table.{AreHeadersOf};
ghost use Rattle.name_types.specs.View.{all_shown, base_shown, in_limit, all_in_limit, shown};

use crate::counting::arity;
use crate::types::{SrcBase, SrcTy};
use je_ast::{Formal, Primitive, TyName};
use je_base::Memory;
use je_core::{Base, ClassId};
use name_lookup::{Headers, Look, Place};
use name_sites::Sites;
use std::alloc::Global;

/// What a type means that is written at a place: the null type for a name that means no class and no type variable, or a class
/// that takes another number of type arguments. Of its dimensions, and its arguments', 255 count.
#[cycle(resolving)]
#[tactic(auto, using(je_ast::proofs::Views::type_is))]
pub fn source_type(
    headers: &Headers,
    alloc: Global,
    sites: &Sites,
    place: Place,
    ty: &TyName,
) -> Result<SrcTy, Memory>
    requires { AreHeadersOf (source_of sites.now) headers.now }
    ensures { IfOk result (λ t. shown t ≡ in_limit
        (the_source_type (source_of sites.now) (known_of headers.now) place.class.0
        (part_view place.part) (type_view ty.now))) }
{
    source_type_here(headers, alloc, sites, place, ty)
}

#[cycle(resolving)]
fn source_type_here(
    headers: &Headers,
    alloc: Global,
    sites: &Sites,
    place: Place,
    ty: &TyName,
) -> Result<SrcTy, Memory>
    requires { AreHeadersOf (source_of sites.now) headers.now }
    ensures { IfOk result (λ t. shown t ≡ in_limit
        (the_source_type (source_of sites.now) (known_of headers.now) place.class.0
        (part_view place.part) (type_node_view ty.now))) }
{
    match ty {
        TyName::Primitive {
            primitive,
            dims,
            ..
        } => Ok(SrcTy {
            base: SrcBase::Plain(base_of(*primitive)),
            dims: added_dims(0, *dims),
        }),
        TyName::Class {
            name,
            args,
            dims,
            ..
        } => {
            let types = types_named(headers, alloc, sites, place, args)?;
            let meant = headers.meaning(alloc, sites, place, name.parts.as_slice())?;
            Ok(SrcTy {
                base: base_for(sites, meant.look, types),
                dims: added_dims(0, *dims),
            })
        }
    }
}

#[cycle(resolving)]
fn types_named(
    headers: &Headers,
    alloc: Global,
    sites: &Sites,
    place: Place,
    args: &[TyName],
) -> Result<Vec<SrcTy>, Memory>
    requires { AreHeadersOf (source_of sites.now) headers.now }
    ensures types { IfOk result (λ ts. all_shown ts.items ≡ all_in_limit
        (the_types_named (source_of sites.now) (known_of headers.now) place.class.0
        (part_view place.part) (type_views_of args.now))) }
    ensures count { IfOk result (λ ts. length ts.items ≡ count (type_views_of args.now)) }
{
    let mut types = Vec::new(alloc);
    for arg in args {
        types.push(source_type(headers, alloc, sites, place, arg)?)?;
    }
    Ok(types)
}

// The base of a name with these type arguments, by what it means (JLS 4.5).
fn base_for(sites: &Sites, look: Look, types: Vec<SrcTy>) -> SrcBase
    ensures { (ts : SourceTypes) (n : ℕ) → all_shown types.items ≡ all_in_limit ts →
        base_shown result (min 255 n) ≡
        in_limit (type_for (source_of sites.now) (look_view look) (length types.items) ts n) }
{
    match look {
        Look::Class(class) => made(sites, class, types),
        Look::Variable(class, at) => SrcBase::Var(class, at),
        Look::Waits(_) => SrcBase::Plain(Base::Null),
        Look::Nothing => SrcBase::Plain(Base::Null),
        Look::Unclear => SrcBase::Plain(Base::Null),
    }
}

// A class with its type arguments; the null type, where it takes another number of them.
fn made(sites: &Sites, class: ClassId, types: Vec<SrcTy>) -> SrcBase
    ensures { (ts : SourceTypes) (n : ℕ) → all_shown types.items ≡ all_in_limit ts →
        base_shown result (min 255 n) ≡
        in_limit (type_for (source_of sites.now) (a_class class.0) (length types.items) ts n) }
{
    if types.len() != arity(sites, class) {
        SrcBase::Plain(Base::Null)
    } else if types.is_empty() {
        SrcBase::Plain(Base::Class(class))
    } else {
        SrcBase::Made(class, types)
    }
}

/// The base of a primitive type (JLS 4.2).
pub fn base_of(primitive: Primitive) -> Base
    ensures { result ≡ the_base_of primitive }
{
    match primitive {
        Primitive::Boolean => Base::Bool,
        Primitive::Byte => Base::Byte,
        Primitive::Short => Base::Short,
        Primitive::Char => Base::Char,
        Primitive::Int => Base::Int,
        Primitive::Long => Base::Long,
    }
}

// So many dimensions and so many more, 255 at most.
fn added_dims(dims: u8, more: usize) -> u8
    ensures { result ≡ min 255 (dims + more) }
{
    (dims as usize).saturating_add(more).min(255) as u8
}

// The type of a parameter that is declared at a place (JLS 8.4.1).
fn formal_type(
    headers: &Headers,
    alloc: Global,
    sites: &Sites,
    place: Place,
    formal: &Formal,
) -> Result<SrcTy, Memory>
    requires { AreHeadersOf (source_of sites.now) headers.now }
    ensures { IfOk result (λ t. shown t ≡ in_limit
        (the_formal_type (source_of sites.now) (known_of headers.now) place.class.0
        (part_view place.part) (formal_view formal.now))) }
{
    let declared = source_type(headers, alloc, sites, place, &formal.ty)?;
    Ok(SrcTy {
        base: declared.base,
        dims: added_dims(declared.dims, formal.dims),
    })
}

/// The types of the parameters of a method or constructor that are declared at a place, in order (JLS 8.4.1, 8.8.1). They have
/// the limit of `source_type`.
pub fn parameter_types(
    headers: &Headers,
    alloc: Global,
    sites: &Sites,
    place: Place,
    formals: &[Formal],
) -> Result<Vec<SrcTy>, Memory>
    requires { AreHeadersOf (source_of sites.now) headers.now }
    ensures { IfOk result (λ ts. map shown ts.items ≡ map (λ f. in_limit
        (the_formal_type (source_of sites.now) (known_of headers.now) place.class.0
        (part_view place.part) f)) (map formal_view formals.now)) }
{
    let mut types = Vec::new(alloc);
    for formal in formals {
        types.push(formal_type(headers, alloc, sites, place, formal)?)?;
    }
    Ok(types)
}
