// The header of the class that a type is of.

ghost use Rattle.std.specs.Prelude.{◌≡◌, ℕ, option_map};
ghost use Rattle.je_scopes.specs.Headers.{is_interface_sort as the_is_interface_sort};
ghost use Rattle.name_types.specs.View.{base_shown, plain_shown, shown};
ghost use Rattle.source_subtypes.specs.HeadView.{head_shown};
ghost use Rattle.source_subtypes.specs.View.{heads_of};
ghost use Rattle.header_typing.specs.Supers.{class_in, head_of as the_head_of, is_of_class as the_is_of_class, same_class as the_same_class};

use je_core::{Base, ClassId, Sort};
use name_types::{SrcBase, SrcTy};
use source_subtypes::{ClassHead, ClassHeads};

/// The class that a type is of, whatever its type arguments and dimensions.
#[tactic(auto, using(name_types::proofs::Views::type_is))]
pub fn class_of(ty: &SrcTy) -> Option<ClassId>
    ensures { option_map (λ (c : ClassId). c.0) result ≡ class_in (shown ty.now) }
{
    class_of_base(&ty.base)
}

#[tactic(auto, using(name_types::proofs::Views::base_is))]
fn class_of_base(base: &SrcBase) -> Option<ClassId>
    ensures { (n : ℕ) → option_map (λ (c : ClassId). c.0) result
        ≡ class_in (base_shown base.now n) }
{
    match base {
        SrcBase::Plain(plain) => class_of_plain(*plain),
        SrcBase::Made(class, _) => Some(*class),
        SrcBase::Var(_, _) => None,
    }
}

fn class_of_plain(base: Base) -> Option<ClassId>
    ensures { (n : ℕ) → option_map (λ (c : ClassId). c.0) result ≡ class_in (plain_shown base n) }
{
    match base {
        Base::Class(class) => Some(class),
        _ => None,
    }
}

/// The header of that class.
pub fn head_of<'a>(heads: &'a ClassHeads, ty: &SrcTy) -> Option<&'a ClassHead>
    ensures { option_map (λ h. head_shown h.now) result ≡ the_head_of (heads_of heads.now)
        (shown ty.now) }
{
    match class_of(ty) {
        Some(class) => heads.class(class),
        None => None,
    }
}

/// Whether two types are of one class.
pub fn is_of_class(ty: &SrcTy, other: &SrcTy) -> bool
    ensures { result ≡ the_is_of_class (shown ty.now) (shown other.now) }
{
    same_class(class_of(ty), class_of(other))
}

fn same_class(one: Option<ClassId>, other: Option<ClassId>) -> bool
    ensures { result ≡ the_same_class (option_map (λ (c : ClassId). c.0) one)
        (option_map (λ (c : ClassId). c.0) other) }
{
    match (one, other) {
        (Some(one), Some(other)) => one.0 == other.0,
        _ => false,
    }
}

/// Whether it is that of interfaces.
pub fn is_interface_sort(sort: Sort) -> bool
    ensures { result ≡ the_is_interface_sort sort }
{
    matches!(sort, Sort::Interface)
}
