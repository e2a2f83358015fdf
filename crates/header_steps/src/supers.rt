// What a class names as above it.

ghost use Rattle.std.specs.Prelude.{◌≡◌, ◌&&◌, IfOk, IfErr, codes, length, map};
ghost use Rattle.std.specs.List.{list_any};
ghost use Rattle.je_classes.specs.Hierarchy.{library_class};
ghost use Rattle.je_scopes.specs.SourceTypes.{of_variable};
ghost use Rattle.je_ast.specs.Types.{type_view};
ghost use Rattle.je_typing.specs.Castable.{is_final_in, is_generic as the_is_generic};
ghost use Rattle.je_typing.specs.Answers.{IsFault};
ghost use Rattle.je_typing.specs.Judged.{gives};
ghost use Rattle.name_types.specs.View.{shown};
ghost use Rattle.source_subtypes.specs.View.{heads_of};
ghost use Rattle.source_types.specs.Heads.{bounds_in, head_at};
ghost use Rattle.source_types.specs.Subtypes.{is_subtype as is_subtype_of};
ghost use Rattle.source_types.specs.Supertypes.{supertypes as supertypes_of};
ghost use Rattle.header_typing.specs.Supers as words;

use crate::heads::{head_of, is_interface_sort, is_of_class};
use je_ast::TyName;
use je_base::{Memory, Span};
use je_core::{Base, ClassId};
use je_table::LibraryClass;
use je_typing::{Refusal, TypeRule, check};
use name_types::{SrcBase, SrcTy, name_span};
use source_subtypes::{ClassHeads, is_same, is_subtype, supertypes};
use std::alloc::Global;

/// Nothing where a class may name a type behind `extends`: a class that isn't final (JLS 8.1.4).
#[tactic(auto, unfolding(header_typing::specs::Supers::superclass))]
pub fn superclass(heads: &ClassHeads, ty: &SrcTy, written: &TyName) -> Result<(), Refusal>
    ensures ok { IfOk result (λ done. words.superclass (heads_of heads.now) (shown ty.now)
        (type_view written.now) ≡ gives done) }
    ensures err { IfErr result (IsFault (words.superclass (heads_of heads.now) (shown ty.now)
        (type_view written.now))) }
{
    check(
        TypeRule::BadSuper,
        name_span(written),
        may_be_extended(heads, ty),
    )
}

fn may_be_extended(heads: &ClassHeads, ty: &SrcTy) -> bool
    ensures { result ≡ words.may_be_extended (heads_of heads.now) (shown ty.now) }
{
    match head_of(heads, ty) {
        Some(head) => !(is_interface_sort(head.kind.sort) || head.kind.is_final),
        None => false,
    }
}

/// Nothing where a class or an interface may name a type among its interfaces behind earlier ones: an interface, and of
/// another class than these (JLS 8.1.5, 9.1.3).
#[tactic(auto, unfolding(header_typing::specs::Supers::superinterface))]
pub fn superinterface(
    heads: &ClassHeads,
    earlier: &[SrcTy],
    ty: &SrcTy,
    written: &TyName,
) -> Result<(), Refusal>
    ensures ok { IfOk result (λ done. words.superinterface (heads_of heads.now)
        (map shown earlier.now) (shown ty.now) (type_view written.now) ≡ gives done) }
    ensures err { IfErr result (IsFault (words.superinterface (heads_of heads.now)
        (map shown earlier.now) (shown ty.now) (type_view written.now))) }
{
    let holds = is_interface(heads, ty) && !is_among(ty, earlier);
    check(TypeRule::BadSuper, name_span(written), holds)
}

fn is_interface(heads: &ClassHeads, ty: &SrcTy) -> bool
    ensures { result ≡ words.is_interface (heads_of heads.now) (shown ty.now) }
{
    match head_of(heads, ty) {
        Some(head) => is_interface_sort(head.kind.sort),
        None => false,
    }
}

// Whether one of some types is of a type's class.
fn is_among(ty: &SrcTy, types: &[SrcTy]) -> bool
    ensures { result ≡ list_any (words.is_of_class (shown ty.now)) (map shown types.now) }
{
    for at in 0..types.len() {
        if is_of_class(ty, &types[at]) {
            return true;
        }
    }
    false
}

/// Nothing where a body may stand behind `new` and a type: no final class (JLS 8.1.1.2, 15.9.1).
#[tactic(auto, unfolding(header_typing::specs::Supers::anonymous_super))]
pub fn anonymous_super(heads: &ClassHeads, ty: &SrcTy, written: &TyName) -> Result<(), Refusal>
    ensures ok { IfOk result (λ done. words.anonymous_super (heads_of heads.now) (shown ty.now)
        (type_view written.now) ≡ gives done) }
    ensures err { IfErr result (IsFault (words.anonymous_super (heads_of heads.now) (shown ty.now)
        (type_view written.now))) }
{
    check(TypeRule::BadSuper, name_span(written), !is_final(heads, ty))
}

fn is_final(heads: &ClassHeads, ty: &SrcTy) -> bool
    ensures { result ≡ is_final_in (words.head_of (heads_of heads.now) (shown ty.now)) }
{
    match head_of(heads, ty) {
        Some(head) => head.kind.is_final,
        None => false,
    }
}

/// Nothing where a class as a whole may stand where it does: no class stands above it with two lists of type arguments (JLS
/// 8.1.5), and it isn't both generic and below Throwable (JLS 8.1.2).
#[tactic(auto, unfolding(header_typing::specs::Supers::well_placed), using(je_typing::proofs::Walks::walks))]
pub fn well_placed(
    alloc: Global,
    heads: &ClassHeads,
    class: ClassId,
    span: Span,
) -> Result<(), Refusal>
    ensures ok { IfOk result (λ done. words.well_placed (heads_of heads.now) class.0 span
        ≡ gives done) }
    ensures err { IfErr result (IsFault (words.well_placed (heads_of heads.now) class.0 span)) }
{
    let own = own_type(alloc, heads, class)?;
    let twice = is_above_twice(alloc, heads, &own)?;
    let throwable = is_generic_throwable(alloc, heads, class, &own)?;
    check(TypeRule::BadSuper, span, !(twice || throwable))
}

/// A class with its own type variables as arguments.
pub fn own_type(alloc: Global, heads: &ClassHeads, class: ClassId) -> Result<SrcTy, Memory>
    ensures { IfOk result (λ t. shown t ≡ words.own_type (heads_of heads.now) class.0) }
{
    let arguments = variables_of(alloc, class, bound_count(heads, class))?;
    Ok(SrcTy {
        base: SrcBase::Made(class, arguments),
        dims: 0,
    })
}

// The first type variables of a class.
fn variables_of(alloc: Global, class: ClassId, count: usize) -> Result<Vec<SrcTy>, Memory>
    ensures { IfOk result (λ ts. map shown ts.items ≡ words.variables_of class.0 count) }
{
    let mut variables = Vec::new(alloc);
    for at in 0..count {
        variables.push(variable(class, at))?;
    }
    Ok(variables)
}

fn variable(class: ClassId, at: usize) -> SrcTy
    ensures { shown result ≡ of_variable class.0 at 0 }
{
    SrcTy {
        base: SrcBase::Var(class, at),
        dims: 0,
    }
}

// How many type parameters a class has.
fn bound_count(heads: &ClassHeads, class: ClassId) -> usize
    ensures { result ≡ length (bounds_in (head_at (heads_of heads.now) class.0)) }
{
    match heads.class(class) {
        Some(head) => head.bounds.len(),
        None => 0,
    }
}

#[tactic(auto, using(crate::proofs::Sets::two_lists))]
fn is_above_twice(alloc: Global, heads: &ClassHeads, own: &SrcTy) -> Result<bool, Memory>
    ensures { IfOk result (λ twice. twice ≡ words.has_two_lists
        (supertypes_of (heads_of heads.now) (shown own.now))) }
{
    let above = supertypes(alloc, heads, own)?;
    let twice = has_two_lists(&above);
    Ok(twice)
}

// Whether two of some types are of one class with two lists of type arguments.
fn has_two_lists(types: &[SrcTy]) -> bool
    ensures { result ≡ words.has_two_lists (map shown types.now) }
{
    for at in 0..types.len() {
        if has_other(&types[at], types) {
            return true;
        }
    }
    false
}

fn has_other(ty: &SrcTy, types: &[SrcTy]) -> bool
    ensures { result ≡ list_any (words.is_other_of (shown ty.now)) (map shown types.now) }
{
    for at in 0..types.len() {
        if is_other_of(ty, &types[at]) {
            return true;
        }
    }
    false
}

fn is_other_of(ty: &SrcTy, other: &SrcTy) -> bool
    ensures { result ≡ words.is_other_of (shown ty.now) (shown other.now) }
{
    is_of_class(ty, other) && !is_same(ty, other)
}

fn is_generic_throwable(
    alloc: Global,
    heads: &ClassHeads,
    class: ClassId,
    own: &SrcTy,
) -> Result<bool, Memory>
    ensures { IfOk result (λ both. both ≡ (the_is_generic (heads_of heads.now) class.0
        && is_subtype_of (heads_of heads.now) (shown own.now) words.throwable_type)) }
{
    if bound_count(heads, class) == 0 {
        return Ok(false);
    }
    let below = is_subtype(alloc, heads, own, &throwable())?;
    Ok(below)
}

/// Throwable.
pub fn throwable() -> SrcTy
    ensures { shown result ≡ words.throwable_type }
{
    SrcTy {
        base: SrcBase::Plain(Base::Class(throwable_class())),
        dims: 0,
    }
}

#[tactic(auto, unfolding(je_classes::specs::Hierarchy::library_class))]
fn throwable_class() -> ClassId
    ensures { result ≡ library_class (codes "java.lang.Throwable") }
{
    ClassId(LibraryClass::Throwable.number())
}
