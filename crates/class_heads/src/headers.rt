// The headers of classes.

ghost use Rattle.std.specs.Prelude.{◌≡◌, ◌<◌, ◌^◌, ◌∷◌, ◌++◌, [], ℕ, IfOk, OnOk, length, map, not, slice_get};
ghost use Rattle.je_scopes.specs.Headers.{is_interface_sort};
ghost use Rattle.name_types.specs.View.{base_shown, plain_shown, shown};
ghost use Rattle.declarations.specs.View.{class_shown, parameter_shown};
ghost use Rattle.source_subtypes.specs.HeadView.{head_shown};
ghost use Rattle.source_subtypes.specs.View.{heads_of};
ghost use Rattle.class_heads.specs.Headers.{begins_with_class as the_begins_with_class, bound_of as the_bound_of, class_heads as the_class_heads, head_of as the_head_of, is_interface_in, is_whole as the_is_whole, supers_of as the_supers_of};
ghost use Rattle.class_heads.specs.View.{classes_of};
ghost use Rattle.class_heads.specs.way.Rounds.{head_if as the_head_if};

use crate::all::AllClasses;
use declarations::{ClassDecl, ParameterDecl};
use je_base::Memory;
use je_classes::object_class;
use je_core::{Base, ClassId, Sort};
use name_types::{SrcBase, SrcTy};
use source_subtypes::{ClassHead, ClassHeads, copied, object};
use std::alloc::Global;

/// The headers of all classes, by number. A class that names no superclass has Object.
#[tactic(auto, unfolding(crate::specs::Headers::class_heads))]
pub fn class_heads(alloc: Global, classes: AllClasses) -> Result<ClassHeads, Memory>
    requires { length (classes_of classes) < 2 ^ 32 }
    ensures { IfOk result (λ heads. heads_of heads ≡ the_class_heads (classes_of classes.entry)) }
{
    let mut heads = Vec::new(alloc);
    for at in 0..classes.len() {
        push_head(alloc, classes, ClassId(at as u32), &mut heads)?;
    }
    Ok(ClassHeads::new(heads))
}

// Puts the header of the class of a number behind others, if there is such a class.
fn push_head(
    alloc: Global,
    classes: AllClasses,
    class: ClassId,
    heads: &mut Vec<ClassHead>,
) -> Result<(), Memory>
    ensures { OnOk result (map head_shown heads.new.items ≡ map head_shown heads.old.items
        ++ the_head_if (classes_of classes.entry) class.0
        (slice_get (classes_of classes.entry) class.0)) }
{
    match classes.class(class) {
        Some(declared) => {
            heads.push(head_of(alloc, classes, class, declared)?)?;
            Ok(())
        }
        None => Ok(()),
    }
}

fn head_of(
    alloc: Global,
    classes: AllClasses,
    class: ClassId,
    declared: &ClassDecl,
) -> Result<ClassHead, Memory>
    ensures { IfOk result (λ head. head_shown head ≡
        the_head_of (classes_of classes.entry) class.0 (class_shown declared.now)) }
{
    Ok(ClassHead {
        kind: declared.kind,
        bounds: bounds_of(alloc, &declared.parameters)?,
        supers: supers_of(alloc, classes, class, declared)?,
    })
}

// The bounds of type parameters, Object where none is written.
fn bounds_of(alloc: Global, parameters: &[ParameterDecl]) -> Result<Vec<SrcTy>, Memory>
    ensures { IfOk result (λ bounds. map shown bounds.items ≡
        map the_bound_of (map parameter_shown parameters.now)) }
{
    let mut bounds = Vec::new(alloc);
    for parameter in parameters {
        bounds.push(bound_of(alloc, parameter)?)?;
    }
    Ok(bounds)
}

fn bound_of(alloc: Global, parameter: &ParameterDecl) -> Result<SrcTy, Memory>
    ensures { IfOk result (λ bound. shown bound ≡ the_bound_of (parameter_shown parameter.now)) }
{
    match &parameter.bound {
        Some(bound) => {
            let copy = copied(alloc, bound)?;
            Ok(copy)
        }
        None => Ok(object()),
    }
}

// The types directly above a class.
fn supers_of(
    alloc: Global,
    classes: AllClasses,
    class: ClassId,
    declared: &ClassDecl,
) -> Result<Vec<SrcTy>, Memory>
    ensures { IfOk result (λ supers. map shown supers.items ≡
        the_supers_of (classes_of classes.entry) class.0 (class_shown declared.now)) }
{
    let mut supers = Vec::new(alloc);
    if !is_whole(classes, class, declared) {
        supers.push(object())?;
    }
    for head in &declared.heads {
        supers.push(copied(alloc, head)?)?;
    }
    Ok(supers)
}

// Whether it is an interface, Object, or names a superclass.
fn is_whole(classes: AllClasses, class: ClassId, declared: &ClassDecl) -> bool
    ensures { result ≡ the_is_whole (classes_of classes.entry) class.0 (class_shown declared.now) }
{
    is_interface(declared.kind.sort)
        || class.0 == object_class().0
        || begins_with_class(classes, &declared.heads)
}

fn is_interface(sort: Sort) -> bool
    ensures { result ≡ is_interface_sort sort }
{
    matches!(sort, Sort::Interface)
}

// Whether the first of some types is a class and no interface.
fn begins_with_class(classes: AllClasses, heads: &[SrcTy]) -> bool
    ensures { result ≡ the_begins_with_class (classes_of classes.entry) (map shown heads.now) }
{
    match heads.first() {
        Some(head) => is_class(classes, head),
        None => false,
    }
}

#[tactic(auto, using(name_types::proofs::Views::type_is))]
fn is_class(classes: AllClasses, head: &SrcTy) -> bool
    ensures { result ≡ the_begins_with_class (classes_of classes.entry) (shown head.now ∷ []) }
{
    is_class_base(classes, &head.base)
}

fn is_class_base(classes: AllClasses, base: &SrcBase) -> bool
    ensures { (n : ℕ) → result ≡
        the_begins_with_class (classes_of classes.entry) (base_shown base.now n ∷ []) }
{
    match base {
        SrcBase::Plain(plain) => is_class_plain(classes, *plain),
        SrcBase::Made(class, _) => is_no_interface(classes, *class),
        SrcBase::Var(_, _) => false,
    }
}

fn is_class_plain(classes: AllClasses, plain: Base) -> bool
    ensures { (n : ℕ) → result ≡
        the_begins_with_class (classes_of classes.entry) (plain_shown plain n ∷ []) }
{
    match plain {
        Base::Class(class) => is_no_interface(classes, class),
        _ => false,
    }
}

fn is_no_interface(classes: AllClasses, class: ClassId) -> bool
    ensures { result ≡ not (is_interface_in (slice_get (classes_of classes.entry) class.0)) }
{
    match classes.class(class) {
        Some(declared) => !is_interface(declared.kind.sort),
        None => true,
    }
}
