// What a class has of the methods of a type above it.

ghost use Rattle.std.specs.Prelude.{◌≡◌, ℕ, IfOk, option_map};
ghost use Rattle.name_types.specs.View.{base_shown, plain_shown, shown};
ghost use Rattle.class_methods.specs.View.{arguments_seen, method_seen};
ghost use Rattle.class_methods.specs.way.Parts.{parts_of as the_parts_of, put_arguments};

use crate::method::Method;
use je_base::Memory;
use je_core::Base;
use name_types::{SrcBase, SrcTy};
use source_subtypes::{Arguments, all_substituted, substituted};
use std::alloc::Global;

/// The class that a type is of, with its type arguments.
#[tactic(auto, using(name_types::proofs::Views::type_is))]
pub fn parts_of(ty: &SrcTy) -> Option<Arguments<'_>>
    ensures { option_map arguments_seen result ≡ the_parts_of (shown ty.now) }
{
    parts_of_base(&ty.base)
}

#[tactic(auto, using(name_types::proofs::Views::base_is))]
fn parts_of_base(base: &SrcBase) -> Option<Arguments<'_>>
    ensures { (n : ℕ) → option_map arguments_seen result ≡ the_parts_of (base_shown base.now n) }
{
    match base {
        SrcBase::Plain(plain) => parts_of_plain(*plain),
        SrcBase::Made(class, types) => Some(Arguments {
            class: *class,
            types,
        }),
        SrcBase::Var(_, _) => None,
    }
}

fn parts_of_plain(base: Base) -> Option<Arguments<'static>>
    ensures { (n : ℕ) → option_map arguments_seen result ≡ the_parts_of (plain_shown base n) }
{
    match base {
        Base::Class(class) => Some(Arguments { class, types: &[] }),
        _ => None,
    }
}

/// A method with the type arguments of its class put in.
pub fn put_in<'a>(
    alloc: Global,
    arguments: Arguments,
    method: &Method<'a>,
) -> Result<Method<'a>, Memory>
    ensures { IfOk result (λ m. method_seen m ≡
        put_arguments (arguments_seen arguments.entry) (method_seen method.now)) }
{
    Ok(Method {
        holder: method.holder,
        place: method.place,
        declared: method.declared,
        parameters: all_substituted(alloc, arguments, &method.parameters)?,
        result: substituted(alloc, arguments, &method.result)?,
        throws: all_substituted(alloc, arguments, &method.throws)?,
        is_abstract: method.is_abstract,
    })
}
