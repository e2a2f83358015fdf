// Equal types.

ghost use Rattle.std.specs.Prelude.{◌≡◌, ℕ};
ghost use Rattle.je_classes.specs.Subtypes.{same_base as the_same_base};
ghost use Rattle.je_scopes.specs.SourceTypes.{no_source_types, of_class, of_variable, same_source_type, same_source_types};
ghost use Rattle.name_types.specs.View.{all_shown, base_shown, plain_shown, shown};

use je_core::{Base, ClassId};
use name_types::{SrcBase, SrcTy};

/// Whether two types are the same.
#[cycle(equality)]
pub fn is_same(a: &SrcTy, b: &SrcTy) -> bool
    ensures { result ≡ same_source_type (shown a.now) (shown b.now) }
{
    a.dims == b.dims && is_same_base(&a.base, &b.base)
}

#[cycle(equality)]
fn is_same_base(a: &SrcBase, b: &SrcBase) -> bool
    ensures { (n : ℕ) → result ≡ same_source_type (base_shown a.now n) (base_shown b.now n) }
{
    match a {
        SrcBase::Plain(plain) => is_plain(b, *plain),
        SrcBase::Made(class, args) => is_made(*class, args, b),
        SrcBase::Var(class, at) => is_variable(b, *class, *at),
    }
}

// Whether a class with these type arguments is a base.
#[cycle(equality)]
fn is_made(class: ClassId, args: &[SrcTy], base: &SrcBase) -> bool
    ensures { (n : ℕ) → result ≡
        same_source_type (of_class class.0 (all_shown args.now) n) (base_shown base.now n) }
{
    match base {
        SrcBase::Plain(plain) => is_same_plain(Base::Class(class), *plain) && are_none(args),
        SrcBase::Made(other, others) => class.0 == other.0 && are_same(args, others),
        SrcBase::Var(_, _) => false,
    }
}

/// Whether a base is a primitive type, the null type or a class that isn't generic.
pub(crate) fn is_plain(base: &SrcBase, plain: Base) -> bool
    ensures { (n : ℕ) → result ≡ same_source_type (plain_shown plain n) (base_shown base.now n) }
{
    match base {
        SrcBase::Plain(other) => is_same_plain(plain, *other),
        SrcBase::Made(class, args) => is_same_plain(plain, Base::Class(*class)) && are_none(args),
        SrcBase::Var(_, _) => false,
    }
}

fn is_same_plain(a: Base, b: Base) -> bool
    ensures { result ≡ the_same_base a b }
{
    a == b
}

fn is_variable(base: &SrcBase, class: ClassId, at: usize) -> bool
    ensures { (n : ℕ) → result ≡ same_source_type (of_variable class.0 at n)
        (base_shown base.now n) }
{
    match base {
        SrcBase::Var(other, place) => class.0 == other.0 && at == *place,
        SrcBase::Plain(_) => false,
        SrcBase::Made(_, _) => false,
    }
}

fn are_none(types: &[SrcTy]) -> bool
    ensures { result ≡ same_source_types no_source_types (all_shown types.now) }
{
    match types {
        [] => true,
        [_, ..] => false,
    }
}

/// Whether two lists of types are the same.
#[cycle(equality)]
pub fn are_same(types: &[SrcTy], others: &[SrcTy]) -> bool
    ensures { result ≡ same_source_types (all_shown types.now) (all_shown others.now) }
{
    let mut left = others;
    for ty in types {
        let Some((first, rest)) = left.split_first() else {
            return false;
        };
        if !is_same(ty, first) {
            return false;
        }
        left = rest;
    }
    are_none(left)
}
