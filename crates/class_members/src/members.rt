// Fields and methods by their class and their place there.

ghost use Rattle.std.specs.Prelude.{◌≡◌, option_map, slice_get};
ghost use Rattle.je_core.specs.View.{field_view, method_view, program_view};
ghost use Rattle.je_classes.specs.Fields.{fields_of};
ghost use Rattle.je_classes.specs.Hierarchy.{same_class as the_same_class};
ghost use Rattle.je_classes.specs.Members.{method_of, same_name as the_same_name, is_private as the_is_private, is_hidden_access, constructor_place as the_constructor_place, names_constructors as the_names_constructors};
ghost use Rattle.je_classes.specs.Subtypes.{same_type as the_same_type, same_types as the_same_types};

use je_classes::object_class;
use je_core::{Access, ClassId, Field, Method, NameId, Program, Ty};

/// Whether two classes are one.
pub fn same_class(a: ClassId, b: ClassId) -> bool
    ensures { result ≡ the_same_class a b }
{
    a.0 == b.0
}

/// Whether two names are one.
pub fn same_name(a: NameId, b: NameId) -> bool
    ensures { result ≡ the_same_name a b }
{
    a.0 == b.0
}

/// Whether two types are one.
pub fn same_type(a: Ty, b: Ty) -> bool
    ensures { result ≡ the_same_type a b }
{
    a.dims == b.dims && a.base == b.base
}

/// Whether two lists of types are one.
#[tactic(auto, using(crate::proofs::Types::none_left))]
pub fn same_types(a: &[Ty], b: &[Ty]) -> bool
    ensures { result ≡ the_same_types a.now b.now }
{
    let mut left = b;
    for ty in a {
        let Some((other, rest)) = left.split_first() else {
            return false;
        };
        if !same_type(*ty, *other) {
            return false;
        }
        left = rest;
    }
    left.is_empty()
}

/// The field of a class at a place; None exactly where there is none.
pub fn field_at(program: &Program, class: ClassId, at: usize) -> Option<&Field>
    ensures { option_map (λ f. field_view f.now) result ≡
        slice_get (fields_of (program_view program.now) class) at }
{
    match program.class(class) {
        None => None,
        Some(class) => class.fields.get(at),
    }
}

/// The method of a class at a place; None exactly where there is none.
pub fn method_at(program: &Program, class: ClassId, at: usize) -> Option<&Method>
    ensures { option_map (λ m. method_view m.now) result ≡
        method_of (program_view program.now) (record { class = class; at = at }) }
{
    match program.class(class) {
        None => None,
        Some(class) => class.methods.get(at),
    }
}

/// Whether a method is private.
pub fn is_private(method: &Method) -> bool
    ensures { result ≡ the_is_private (method_view method.now) }
{
    match method.flags.access {
        Access::Private => true,
        _ => false,
    }
}

// The place of Object's constructor among its methods.
#[tactic(auto, unfolding(je_classes::specs::Members::constructor_place))]
fn constructor_place() -> usize
    ensures { result ≡ the_constructor_place }
{
    2
}

/// Whether it is the name under which constructors stand.
pub fn names_constructors(program: &Program, name: NameId) -> bool
    ensures { result ≡ the_names_constructors (program_view program.now) name }
{
    match method_at(program, object_class(), constructor_place()) {
        None => false,
        Some(method) => same_name(method.name, name),
    }
}

/// Whether a field is hidden, so that no name finds it.
pub fn is_hidden(field: &Field) -> bool
    ensures { result ≡ is_hidden_access (field_view field.now).access }
{
    match field.access {
        Access::Hidden => true,
        _ => false,
    }
}
