// The type of a field, seen from a type that has it.

ghost use Rattle.std.specs.Prelude.{◌≡◌, IfOk, Some, map, option_map};
ghost use Rattle.std.specs.List.{find, list_any};
ghost use Rattle.declarations.specs.View.{field_shown};
ghost use Rattle.je_typing.specs.Castable.{is_of_class as the_is_of_class};
ghost use Rattle.name_types.specs.View.{base_shown, plain_shown, shown};
ghost use Rattle.name_typing.specs.Fields.{is_other_list, only_of_class as the_only_of_class, put_in as the_put_in, type_seen as the_type_seen};
ghost use Rattle.source_subtypes.specs.View.{heads_of};

use declarations::FieldDecl;
use header_steps::class_of;
use je_base::Memory;
use je_core::{Base, ClassId};
use name_types::{SrcBase, SrcTy};
use source_subtypes::{Arguments, ClassHeads, copied, is_same, substituted, supertypes};
use std::alloc::Global;

#[tactic(auto, using(crate::proofs::Objects::of_class_is))]
fn is_of_class(ty: &SrcTy, class: ClassId) -> bool
    ensures { result ≡ the_is_of_class class.0 (shown ty.now) }
{
    match class_of(ty) {
        Some(other) => other.0 == class.0,
        None => false,
    }
}

// The first of these types that is of a class.
fn first_of_class(types: &[SrcTy], class: ClassId) -> Option<&SrcTy>
    ensures { option_map (λ t. shown t.now) result ≡
        find (the_is_of_class class.0) (map shown types.now) }
{
    for ty in types {
        if is_of_class(ty, class) {
            return Some(ty);
        }
    }
    None
}

// Whether the class has another list of type arguments among these types.
fn has_other_list(types: &[SrcTy], class: ClassId, ty: &SrcTy) -> bool
    ensures { result ≡ list_any (is_other_list class.0 (shown ty.now)) (map shown types.now) }
{
    for other in types {
        if is_of_class(other, class) && !is_same(ty, other) {
            return true;
        }
    }
    false
}

// The type of a class among these types, where the class has one list of type arguments there.
fn only_of_class(types: &[SrcTy], class: ClassId) -> Option<&SrcTy>
    ensures { option_map (λ t. shown t.now) result ≡
        the_only_of_class class.0 (map shown types.now) }
{
    let ty = first_of_class(types, class)?;
    if has_other_list(types, class, ty) {
        None
    } else {
        Some(ty)
    }
}

// A type with the type arguments of another one put in for the variables of its class (JLS 4.5.2).
#[tactic(auto, using(name_types::proofs::Views::type_is))]
fn put_in(alloc: Global, of: &SrcTy, ty: &SrcTy) -> Result<SrcTy, Memory>
    ensures { IfOk result (λ t. shown t ≡ the_put_in (Some (shown of.now)) (shown ty.now)) }
{
    put_in_base(alloc, &of.base, of.dims, ty)
}

#[tactic(auto, using(name_types::proofs::Views::base_is))]
fn put_in_base(alloc: Global, of: &SrcBase, dims: u8, ty: &SrcTy) -> Result<SrcTy, Memory>
    ensures { IfOk result (λ t. shown t ≡
        the_put_in (Some (base_shown of.now dims)) (shown ty.now)) }
{
    match of {
        SrcBase::Plain(plain) => put_in_plain(alloc, *plain, dims, ty),
        SrcBase::Made(class, types) => substituted(
            alloc,
            Arguments {
                class: *class,
                types,
            },
            ty,
        ),
        SrcBase::Var(_, _) => copied(alloc, ty),
    }
}

fn put_in_plain(alloc: Global, of: Base, dims: u8, ty: &SrcTy) -> Result<SrcTy, Memory>
    ensures { IfOk result (λ t. shown t ≡
        the_put_in (Some (plain_shown of dims)) (shown ty.now)) }
{
    match of {
        Base::Class(class) => substituted(alloc, Arguments { class, types: &[] }, ty),
        _ => copied(alloc, ty),
    }
}

/// The type of a field of a class, seen from a type that has it: with the type arguments that the class has above
/// that type.
pub fn type_seen(
    alloc: Global,
    heads: &ClassHeads,
    ty: &SrcTy,
    class: ClassId,
    at: usize,
    field: &FieldDecl,
) -> Result<SrcTy, Memory>
    ensures { IfOk result (λ t. shown t ≡ the_type_seen (heads_of heads.now) (shown ty.now)
        (record { class = class; at = at }) (field_shown field.now)) }
{
    let above = supertypes(alloc, heads, ty)?;
    match only_of_class(&above, class) {
        Some(of) => put_in(alloc, of, &field.ty),
        None => copied(alloc, &field.ty),
    }
}
