// What is asked of classes.

ghost use Rattle.std.specs.Prelude.{◌≡◌, ℕ, option_map};
ghost use Rattle.je_scopes.specs.Headers.{is_interface_sort as the_is_interface_sort};
ghost use Rattle.je_typing.specs.Castable.{is_final as the_is_final, is_generic as the_is_generic, is_interface as the_is_interface, may_meet as the_may_meet};
ghost use Rattle.je_typing.specs.Casts.{is_reifiable as the_is_reifiable};
ghost use Rattle.name_types.specs.View.{plain_shown, shown};
ghost use Rattle.reference_tests.specs.way.Shapes.{class_in as the_class_in};
ghost use Rattle.source_subtypes.specs.View.{heads_of};

use je_core::{Base, ClassId, Sort};
use name_types::{SrcBase, SrcTy};
use source_subtypes::ClassHeads;

fn is_interface_sort(sort: Sort) -> bool
    ensures { result ≡ the_is_interface_sort sort }
{
    match sort {
        Sort::Interface => true,
        _ => false,
    }
}

fn is_interface(heads: &ClassHeads, class: ClassId) -> bool
    ensures { result ≡ the_is_interface (heads_of heads.now) class.0 }
{
    match heads.class(class) {
        Some(head) => is_interface_sort(head.kind.sort),
        None => false,
    }
}

fn is_final(heads: &ClassHeads, class: ClassId) -> bool
    ensures { result ≡ the_is_final (heads_of heads.now) class.0 }
{
    match heads.class(class) {
        Some(head) => head.kind.is_final,
        None => false,
    }
}

fn is_generic(heads: &ClassHeads, class: ClassId) -> bool
    ensures { result ≡ the_is_generic (heads_of heads.now) class.0 }
{
    heads.bound(class, 0).is_some()
}

/// Whether there may be a class below both: one is an interface, and the other isn't final.
pub fn may_meet(heads: &ClassHeads, class: ClassId, other: ClassId) -> bool
    ensures { result ≡ the_may_meet (heads_of heads.now) class.0 other.0 }
{
    (is_interface(heads, class) && !is_final(heads, other))
        || (is_interface(heads, other) && !is_final(heads, class))
}

fn plain_class(base: Base) -> Option<ClassId>
    ensures { (n : ℕ) → option_map (λ c. c.0) result ≡ the_class_in (plain_shown base n) }
{
    match base {
        Base::Class(class) => Some(class),
        _ => None,
    }
}

/// The class that a type is, or is an array of, with type arguments or without.
#[tactic(auto, using(crate::proofs::Shapes::shapes))]
pub fn class_in(ty: &SrcTy) -> Option<ClassId>
    ensures { option_map (λ c. c.0) result ≡ the_class_in (shown ty.now) }
{
    match &ty.base {
        SrcBase::Plain(plain) => plain_class(*plain),
        SrcBase::Made(class, _) => Some(*class),
        SrcBase::Var(_, _) => None,
    }
}

fn is_reifiable_base(heads: &ClassHeads, base: Base) -> bool
    ensures { (n : ℕ) → result ≡ the_is_reifiable (heads_of heads.now) (plain_shown base n) }
{
    match base {
        Base::Class(class) => !is_generic(heads, class),
        _ => true,
    }
}

/// Whether a type is whole when the program runs: no type variable, no generic class and no array of these (JLS 4.7).
#[tactic(auto, using(crate::proofs::Shapes::shapes))]
pub fn is_reifiable(heads: &ClassHeads, ty: &SrcTy) -> bool
    ensures { result ≡ the_is_reifiable (heads_of heads.now) (shown ty.now) }
{
    match &ty.base {
        SrcBase::Plain(base) => is_reifiable_base(heads, *base),
        SrcBase::Made(class, _) => !is_generic(heads, *class),
        SrcBase::Var(_, _) => false,
    }
}
