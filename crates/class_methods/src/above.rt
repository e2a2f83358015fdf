// What a class overrides.

ghost use Rattle.std.specs.Prelude.{◌≡◌, ◌&&◌, ◌∷◌, ◌++◌, IfOk, List, OnOk, filter, map, if◌then◌else◌};
ghost use Rattle.std.specs.List.{flat_map, list_any};
ghost use Rattle.class_heads.specs.View.{classes_of};
ghost use Rattle.name_types.specs.View.{shown};
ghost use Rattle.overriding.specs.Methods as words;
ghost use Rattle.class_methods.specs.Above.{HasSame};
ghost use Rattle.class_methods.specs.View.{arguments_seen, method_seen};
ghost use Rattle.class_methods.specs.way.Parts.{put_arguments, seen_by};
ghost use Rattle.source_subtypes.specs.View.{heads_of};

use crate::declaring::own;
use crate::inheriting::is_interface;
use crate::method::{Method, is_inheritable, is_same_method, own_method};
use crate::seen::{parts_of, put_in};
use crate::signatures::is_subsignature;
use class_heads::AllClasses;
use header_steps::own_type;
use je_base::Memory;
use je_core::ClassId;
use name_types::SrcTy;
use source_subtypes::{Arguments, ClassHeads, object, supertypes};
use std::alloc::Global;

#[tactic(auto, using(crate::proofs::Types::another_by_parts))]
fn is_another_class(class: ClassId, ty: &SrcTy) -> bool
    ensures { result ≡ words.is_another_class class.0 (shown ty.now) }
{
    match parts_of(ty) {
        Some(arguments) => class.0 != arguments.class.0,
        None => true,
    }
}

// Those that are of other classes.
#[tactic(auto, using(crate::proofs::Lists::filter_kept, crate::proofs::Lists::filter_left))]
fn others(alloc: Global, class: ClassId, types: Vec<SrcTy>) -> Result<Vec<SrcTy>, Memory>
    ensures { IfOk result (λ ts. map shown ts.items ≡
        filter (words.is_another_class class.0) (map shown types.items)) }
{
    let mut others = Vec::new(alloc);
    for ty in types {
        if is_another_class(class, &ty) {
            others.push(ty)?;
        }
    }
    Ok(others)
}

// These types, and Object for an interface.
fn with_object(is_interface: bool, types: Vec<SrcTy>) -> Result<Vec<SrcTy>, Memory>
    ensures { IfOk result (λ ts. map shown ts.items ≡
        map shown types.items ++ words.object_for is_interface) }
{
    let mut all = types;
    if is_interface {
        all.push(object())?;
    }
    Ok(all)
}

// The types above a class, above an interface Object, too.
fn types_above(alloc: Global, heads: &ClassHeads, class: ClassId) -> Result<Vec<SrcTy>, Memory>
    ensures { IfOk result (λ ts. HasSame (map shown ts.items)
        (words.types_above (heads_of heads.now) class.0)) }
{
    let own = own_type(alloc, heads, class)?;
    let above = supertypes(alloc, heads, &own)?;
    let others = others(alloc, class, above)?;
    let types = with_object(is_interface(heads, class), others)?;
    Ok(types)
}

// A method more as classes below see it, if they do.
fn push_one<'a>(
    alloc: Global,
    methods: &mut Vec<Method<'a>>,
    arguments: Arguments,
    method: &Method<'a>,
) -> Result<(), Memory>
    ensures { OnOk result ((rest : List words.Method) → map method_seen methods.new.items
        ++ map (put_arguments (arguments_seen arguments.entry)) rest ≡
        map method_seen methods.old.items ++ map (put_arguments (arguments_seen arguments.entry))
        (if words.is_inheritable (method_seen method.now) then method_seen method.now ∷ rest
        else rest)) }
{
    if is_inheritable(method) {
        methods.push(put_in(alloc, arguments, method)?)?;
    }
    Ok(())
}

fn push_seen<'a>(
    alloc: Global,
    methods: &mut Vec<Method<'a>>,
    arguments: Arguments,
    of: &[Method<'a>],
) -> Result<(), Memory>
    ensures { OnOk result (map method_seen methods.new.items ≡ map method_seen methods.old.items
        ++ seen_by (arguments_seen arguments.entry) (map method_seen of.now)) }
{
    for at in 0..of.len() {
        push_one(alloc, methods, arguments, &of[at])?;
    }
    Ok(())
}

#[tactic(auto, using(crate::proofs::Types::seen_by_parts))]
fn push_type<'a>(
    alloc: Global,
    classes: AllClasses<'a>,
    methods: &mut Vec<Method<'a>>,
    ty: &SrcTy,
) -> Result<(), Memory>
    ensures { OnOk result (map method_seen methods.new.items ≡ map method_seen methods.old.items
        ++ words.seen_in (words.own (classes_of classes.entry)) (shown ty.now)) }
{
    match parts_of(ty) {
        Some(arguments) => {
            let own = own(alloc, classes, arguments.class)?;
            push_seen(alloc, methods, arguments, &own)
        }
        None => Ok(()),
    }
}

// The methods that the classes of these types declare.
fn declared_by<'a>(
    alloc: Global,
    classes: AllClasses<'a>,
    types: &[SrcTy],
) -> Result<Vec<Method<'a>>, Memory>
    ensures { IfOk result (λ ms. map method_seen ms.items ≡
        flat_map (words.seen_in (words.own (classes_of classes.entry))) (map shown types.now)) }
{
    let mut methods = Vec::new(alloc);
    for at in 0..types.len() {
        push_type(alloc, classes, &mut methods, &types[at])?;
    }
    Ok(methods)
}

/// The methods that the classes above a class declare, above an interface those of Object, too.
#[tactic(auto, using(crate::proofs::Sets::all_methods))]
pub fn methods_above<'a>(
    alloc: Global,
    heads: &ClassHeads,
    classes: AllClasses<'a>,
    class: ClassId,
) -> Result<Vec<Method<'a>>, Memory>
    ensures { IfOk result (λ ms. HasSame (map method_seen ms.items)
        (words.methods_above (heads_of heads.now) (classes_of classes.entry) class.0)) }
{
    let types = types_above(alloc, heads, class)?;
    let methods = declared_by(alloc, classes, &types)?;
    Ok(methods)
}

// Whether a method's signature, or its erasure, is that of another one where it is among these.
fn overrides_among(heads: &ClassHeads, method: &Method, other: &Method, above: &[Method]) -> bool
    ensures { result ≡ list_any (λ k. words.is_same k (method_seen other.now)
        && words.is_subsignature (heads_of heads.now) (method_seen method.now) k)
        (map method_seen above.now) }
{
    for at in 0..above.len() {
        let here = &above[at];
        if is_same_method(here, other) && is_subsignature(heads, method, here) {
            return true;
        }
    }
    false
}

/// Whether a method that a class declares overrides, or where it is static hides, another one.
#[tactic(auto, using(crate::proofs::Lists::same_any))]
pub fn overrides(
    alloc: Global,
    heads: &ClassHeads,
    classes: AllClasses,
    method: &Method,
    other: &Method,
) -> Result<bool, Memory>
    ensures { IfOk result (λ does. does ≡ words.overrides (heads_of heads.now)
        (classes_of classes.entry) (method_seen method.now) (method_seen other.now)) }
{
    let own = own_method(alloc, method.holder, method.place, method.declared)?;
    let above = methods_above(alloc, heads, classes, method.holder)?;
    let does = overrides_among(heads, &own, other, &above);
    Ok(does)
}
