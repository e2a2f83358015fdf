// The class that a type is of, with its type arguments.

ghost use Rattle.std.specs.Prelude.{◌≡◌, ℕ, option_map};
ghost use Rattle.class_methods.specs.View.{arguments_seen};
ghost use Rattle.class_methods.specs.way.Parts.{parts_of};
ghost use Rattle.name_types.specs.View.{plain_shown, shown};

use je_core::Base;
use name_types::{SrcBase, SrcTy};
use source_subtypes::Arguments;

fn plain_arguments(base: Base) -> Option<Arguments<'static>>
    ensures { (n : ℕ) → option_map arguments_seen result ≡ parts_of (plain_shown base n) }
{
    match base {
        Base::Class(class) => Some(Arguments { class, types: &[] }),
        _ => None,
    }
}

/// The class that a type is of, or is an array of, and the type arguments that it has there.
pub fn arguments_of(ty: &SrcTy) -> Option<Arguments<'_>>
    ensures { option_map arguments_seen result ≡ parts_of (shown ty.now) }
{
    match &ty.base {
        SrcBase::Plain(base) => plain_arguments(*base),
        SrcBase::Made(class, types) => Some(Arguments {
            class: *class,
            types,
        }),
        SrcBase::Var(_, _) => None,
    }
}
