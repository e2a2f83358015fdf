// Of which types objects may be made (JLS 15.9.1, 15.9.5).

ghost use Rattle.std.specs.Prelude.{◌≡◌, IfOk, option_map};
ghost use Rattle.call_typing.specs.Creations as words;
ghost use Rattle.declarations.specs.Declarations.{is_enum_sort as the_is_enum_sort};
ghost use Rattle.header_typing.specs.Supers.{head_of as the_head_of, is_interface as the_is_interface};
ghost use Rattle.je_scopes.specs.Headers.{is_interface_sort as the_is_interface_sort};
ghost use Rattle.name_types.specs.View.{shown};
ghost use Rattle.source_subtypes.specs.HeadView.{head_shown};
ghost use Rattle.source_subtypes.specs.View.{heads_of};
ghost use Rattle.call_steps.specs.Made.{has_constructors as the_has_constructors, is_abstract as the_is_abstract, made_of as the_made_of};

use header_steps::class_of;
use je_base::Memory;
use je_core::Sort;
use name_types::{SrcBase, SrcTy};
use source_subtypes::{ClassHead, ClassHeads, copied, object};
use std::alloc::Global;

/// Whether a type is a type variable, or an array of one.
#[tactic(auto, using(crate::proofs::Parts::shapes))]
pub fn is_variable(ty: &SrcTy) -> bool
    ensures { result ≡ words.is_variable (shown ty.now) }
{
    match &ty.base {
        SrcBase::Plain(_) => false,
        SrcBase::Made(_, _) => false,
        SrcBase::Var(_, _) => true,
    }
}

// The header of the class that a type is of.
fn head_of<'a>(heads: &'a ClassHeads, ty: &SrcTy) -> Option<&'a ClassHead>
    ensures { option_map (λ h. head_shown h.now) result ≡
        the_head_of (heads_of heads.now) (shown ty.now) }
{
    match class_of(ty) {
        Some(class) => heads.class(class),
        None => None,
    }
}

fn is_interface_sort(sort: Sort) -> bool
    ensures { result ≡ the_is_interface_sort sort }
{
    matches!(sort, Sort::Interface)
}

fn is_enum_sort(sort: Sort) -> bool
    ensures { result ≡ the_is_enum_sort sort }
{
    matches!(sort, Sort::Enum)
}

fn is_interface(heads: &ClassHeads, ty: &SrcTy) -> bool
    ensures { result ≡ the_is_interface (heads_of heads.now) (shown ty.now) }
{
    match head_of(heads, ty) {
        Some(head) => is_interface_sort(head.kind.sort),
        None => false,
    }
}

fn is_enum(heads: &ClassHeads, ty: &SrcTy) -> bool
    ensures { result ≡ words.is_enum_in (the_head_of (heads_of heads.now) (shown ty.now)) }
{
    match head_of(heads, ty) {
        Some(head) => is_enum_sort(head.kind.sort),
        None => false,
    }
}

/// Whether a type has constructors that a creation may name: a type variable, an interface and an enum have none.
pub fn has_constructors(heads: &ClassHeads, ty: &SrcTy) -> bool
    ensures { result ≡ the_has_constructors (heads_of heads.now) (shown ty.now) }
{
    !(is_variable(ty) || is_interface(heads, ty) || is_enum(heads, ty))
}

/// Whether a type is an abstract class.
pub fn is_abstract(heads: &ClassHeads, ty: &SrcTy) -> bool
    ensures { result ≡ the_is_abstract (heads_of heads.now) (shown ty.now) }
{
    match head_of(heads, ty) {
        Some(head) => head.kind.is_abstract,
        None => false,
    }
}

/// The type whose constructor an anonymous class calls: Object's, of an interface.
pub fn made_of(alloc: Global, heads: &ClassHeads, ty: &SrcTy) -> Result<SrcTy, Memory>
    ensures { IfOk result (λ t. shown t ≡ the_made_of (heads_of heads.now) (shown ty.now)) }
{
    if is_interface(heads, ty) {
        return Ok(object());
    }
    copied(alloc, ty)
}
