// Signatures as lists of numbers.

ghost use Rattle.std.specs.Prelude.{◌≡◌, ◌+◌, ◌++◌, ◌∷◌, ◌<◌, ◌^◌, [], IfOk, OnOk, map};
ghost use Rattle.je_ast.specs.Types.{name_view, type_view, type_node_view, type_views_of, formal_view};
ghost use Rattle.je_classes.specs.Subtypes.{kind_number, number_in_kind};
ghost use Rattle.je_scopes.specs.SourceTypes.{count, plain, type_for, with_dims};
ghost use Rattle.name_lookup.specs.View.{look_view};
ghost use Rattle.name_judge.specs.Reading.{HasHeaders, look_in, parameters_in, source_in, type_in, types_in};
ghost use Rattle.name_judge.specs.Spelled.{all_spelled, spelled, signature as the_signature};

use je_ast::{Formal, Name, TyName};
use je_base::{Memory, NameId};
use je_core::Base;
use name_lookup::{Headers, Look, Place};
use name_sites::Sites;
use name_types::{arity, base_of};
use std::alloc::Global;

/// What the types of a signature are read by, and where they stand.
#[derive(Clone, Copy)]
pub struct Around<'a> {
    pub alloc: Global,
    pub headers: &'a Headers,
    pub sites: &'a Sites<'a>,
    pub place: Place,
}

/// The list of numbers for a signature.
pub fn signature(
    around: &Around,
    is_constructor: bool,
    name: NameId,
    formals: &[Formal],
) -> Result<Vec<u128>, Memory>
    requires { HasHeaders around.now }
    ensures { IfOk result (λ list. list.items ≡
        the_signature is_constructor name
        (parameters_in around.now (map formal_view formals.now))) }
{
    let mut list = Vec::new(around.alloc);
    list.push(is_constructor as u128)?;
    list.push(name.0 as u128)?;
    spell_formals(around, &mut list, formals)?;
    Ok(list)
}

fn spell_formals(around: &Around, list: &mut Vec<u128>, formals: &[Formal]) -> Result<(), Memory>
    requires { HasHeaders around.now }
    ensures { OnOk result (list.new.items ≡
        list.old.items ++ all_spelled (parameters_in around.now (map formal_view formals.now))) }
{
    for formal in formals {
        list.push(1)?;
        spell_type(around, list, &formal.ty, formal.dims)?;
    }
    list.push(0)?;
    Ok(())
}

// A written type, with so many dimensions more.
#[cycle(spelling)]
#[tactic(auto, using(je_ast::proofs::Views::type_is))]
fn spell_type(around: &Around, list: &mut Vec<u128>, ty: &TyName, more: usize) -> Result<(), Memory>
    requires { HasHeaders around.now }
    ensures { OnOk result (list.new.items ≡
        list.old.items ++ spelled (with_dims (type_in around.now (type_view ty.now)) more)) }
{
    spell_type_here(around, list, ty, more)
}

#[cycle(spelling)]
fn spell_type_here(
    around: &Around,
    list: &mut Vec<u128>,
    ty: &TyName,
    more: usize,
) -> Result<(), Memory>
    requires { HasHeaders around.now }
    ensures { OnOk result (list.new.items ≡
        list.old.items ++ spelled (with_dims (type_in around.now (type_node_view ty.now)) more)) }
{
    match ty {
        TyName::Primitive {
            primitive,
            dims,
            ..
        } => spell_plain(list, base_of(*primitive), sum(*dims, more)),
        TyName::Class {
            name,
            args,
            dims,
            ..
        } => spell_class(around, list, name, args, sum(*dims, more)),
    }
}

// A type of a name with these type arguments.
#[cycle(spelling)]
fn spell_class(
    around: &Around,
    list: &mut Vec<u128>,
    name: &Name,
    args: &[TyName],
    dims: u128,
) -> Result<(), Memory>
    requires { HasHeaders around.now }
    ensures { OnOk result (list.new.items ≡ list.old.items ++ spelled
        (type_for (source_in around.now) (look_in around.now (name_view name.now))
        (count (type_views_of args.now)) (types_in around.now (type_views_of args.now)) dims)) }
{
    let parts = name.parts.as_slice();
    let meant = around
        .headers
        .meaning(around.alloc, around.sites, around.place, parts)?;
    spell_named(around, list, meant.look, args, dims)
}

// A type of a name that means this, with these type arguments.
#[cycle(spelling)]
fn spell_named(
    around: &Around,
    list: &mut Vec<u128>,
    look: Look,
    args: &[TyName],
    dims: u128,
) -> Result<(), Memory>
    requires { HasHeaders around.now }
    ensures { OnOk result (list.new.items ≡ list.old.items ++ spelled
        (type_for (source_in around.now) (look_view look) (count (type_views_of args.now))
        (types_in around.now (type_views_of args.now)) dims)) }
{
    match look {
        Look::Class(class) => {
            if args.len() != arity(around.sites, class) {
                return spell_plain(list, Base::Null, dims);
            }
            list.extend_from_slice(&[1, class.0 as u128, dims])?;
            spell_types(around, list, args)
        }
        Look::Variable(class, at) => {
            list.extend_from_slice(&[2, class.0 as u128, at as u128, dims])?;
            Ok(())
        }
        Look::Waits(_) | Look::Nothing | Look::Unclear => spell_plain(list, Base::Null, dims),
    }
}

#[cycle(spelling)]
fn spell_types(around: &Around, list: &mut Vec<u128>, types: &[TyName]) -> Result<(), Memory>
    requires { HasHeaders around.now }
    ensures { OnOk result (list.new.items ≡
        list.old.items ++ all_spelled (types_in around.now (type_views_of types.now))) }
{
    for ty in types {
        list.push(1)?;
        spell_type(around, list, ty, 0)?;
    }
    list.push(0)?;
    Ok(())
}

fn spell_plain(list: &mut Vec<u128>, base: Base, dims: u128) -> Result<(), Memory>
    ensures { OnOk result (list.new.items ≡ list.old.items ++ spelled (plain base dims)) }
{
    list.extend_from_slice(&[0, kind(base), number_of(base), dims])?;
    Ok(())
}

fn kind(base: Base) -> u128
    ensures { result ≡ kind_number base }
{
    match base {
        Base::Bool => 0,
        Base::Byte => 1,
        Base::Short => 2,
        Base::Char => 3,
        Base::Int => 4,
        Base::Long => 5,
        Base::Null => 6,
        Base::Void => 7,
        Base::Class(_) => 8,
    }
}

fn number_of(base: Base) -> u128
    ensures { result ≡ number_in_kind base }
{
    match base {
        Base::Class(class) => class.0 as u128,
        _ => 0,
    }
}

fn sum(dims: usize, more: usize) -> u128
    ensures { result ≡ dims + more }
{
    dims as u128 + more as u128
}
