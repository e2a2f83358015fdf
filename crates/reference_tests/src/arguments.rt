// No object is of a generic class with two lists of type arguments (JLS 4.5, 8.1.5).

ghost use Rattle.std.specs.Prelude.{◌≡◌, map, not};
ghost use Rattle.std.specs.List.{list_all};
ghost use Rattle.je_typing.specs.Castable.{are_distinct as the_are_distinct, are_distinct_arguments as the_are_distinct_arguments, is_variable as the_is_variable, some_are_distinct as the_some_are_distinct};
ghost use Rattle.name_types.specs.View.{all_shown, shown};
ghost use Rattle.reference_tests.specs.way.Shapes.{all_consistent};

use name_types::{SrcBase, SrcTy};
use source_subtypes::is_same;

#[tactic(auto, using(crate::proofs::Distinct::varying))]
fn is_variable(ty: &SrcTy) -> bool
    ensures { result ≡ the_is_variable (shown ty.now) }
{
    if ty.dims != 0 {
        return false;
    }
    match &ty.base {
        SrcBase::Plain(_) => false,
        SrcBase::Made(_, _) => false,
        SrcBase::Var(_, _) => true,
    }
}

fn are_distinct_arguments(ty: &SrcTy, other: &SrcTy) -> bool
    ensures { result ≡ the_are_distinct_arguments (shown ty.now) (shown other.now) }
{
    !(is_variable(ty) || is_variable(other) || is_same(ty, other))
}

fn some_are_distinct(types: &[SrcTy], others: &[SrcTy]) -> bool
    ensures { result ≡ the_some_are_distinct (all_shown types.now) (all_shown others.now) }
{
    let mut left = others;
    for ty in types {
        let Some((first, rest)) = left.split_first() else {
            return false;
        };
        if are_distinct_arguments(ty, first) {
            return true;
        }
        left = rest;
    }
    false
}

// Whether two types are one generic class with arguments that no object has at once.
#[tactic(auto, using(crate::proofs::Distinct::distinct))]
fn are_distinct(ty: &SrcTy, other: &SrcTy) -> bool
    ensures { result ≡ the_are_distinct (shown ty.now) (shown other.now) }
{
    match &ty.base {
        SrcBase::Plain(_) => false,
        SrcBase::Made(class, types) => match &other.base {
            SrcBase::Plain(_) => false,
            SrcBase::Made(other, others) => {
                class.0 == other.0 && some_are_distinct(types, others)
            }
            SrcBase::Var(_, _) => false,
        },
        SrcBase::Var(_, _) => false,
    }
}

fn is_consistent(ty: &SrcTy, others: &[SrcTy]) -> bool
    ensures { result ≡ list_all (λ v. not (the_are_distinct (shown ty.now) v))
        (map shown others.now) }
{
    for other in others {
        if are_distinct(ty, other) {
            return false;
        }
    }
    true
}

/// Whether no two types of these and of those are one generic class with arguments that no object has at once.
pub fn are_consistent(types: &[SrcTy], others: &[SrcTy]) -> bool
    ensures { result ≡ all_consistent (map shown types.now) (map shown others.now) }
{
    for ty in types {
        if !is_consistent(ty, others) {
            return false;
        }
    }
    true
}
