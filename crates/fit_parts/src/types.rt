// What is asked of types (JLS 4.2, 4.3, 5.1, 5.6).

ghost use Rattle.std.specs.Prelude.{◌≡◌};
ghost use Rattle.je_core.specs.View.{program_view};
ghost use Rattle.je_classes.specs.Subtypes.{class_type as the_class_type, is_reference as the_is_reference, is_reference_base as the_is_reference_base};
ghost use Rattle.je_fitting.specs.Types.{of as the_of, string as the_string, throwable as the_throwable, is_bool as the_is_bool, is_int as the_is_int, is_void as the_is_void, is_number as the_is_number, is_number_base as the_is_number_base, is_promoted as the_is_promoted, is_primitive as the_is_primitive, is_there as the_is_there, holds_something as the_holds_something, is_variable_type as the_is_variable_type, type_of_value as the_type_of_value};

use crate::parts::has_class;
use class_members::same_type;
use je_core::{Base, ClassId, Program, Ty, Value};
use je_table::LibraryClass;

/// The type without dimensions of a base.
pub fn of(base: Base) -> Ty
    ensures { result ≡ the_of base }
{
    Ty { base, dims: 0 }
}

/// The type of a class's instances.
pub fn class_type(class: ClassId) -> Ty
    ensures { result ≡ the_class_type class }
{
    of(Base::Class(class))
}

/// String.
#[tactic(auto, unfolding(je_classes::specs::Hierarchy::library_class))]
pub fn string() -> Ty
    ensures { result ≡ the_string }
{
    class_type(ClassId(LibraryClass::String.number()))
}

/// Throwable.
#[tactic(auto, unfolding(je_classes::specs::Hierarchy::library_class))]
pub fn throwable() -> Ty
    ensures { result ≡ the_throwable }
{
    class_type(ClassId(LibraryClass::Throwable.number()))
}

/// Whether it is `boolean`.
pub fn is_bool(ty: Ty) -> bool
    ensures { result ≡ the_is_bool ty }
{
    same_type(ty, of(Base::Bool))
}

/// Whether it is `int`.
pub fn is_int(ty: Ty) -> bool
    ensures { result ≡ the_is_int ty }
{
    same_type(ty, of(Base::Int))
}

/// Whether it is `void`.
pub fn is_void(ty: Ty) -> bool
    ensures { result ≡ the_is_void ty }
{
    same_type(ty, of(Base::Void))
}

fn is_number_base(base: Base) -> bool
    ensures { result ≡ the_is_number_base base }
{
    match base {
        Base::Byte | Base::Short | Base::Char | Base::Int | Base::Long => true,
        _ => false,
    }
}

/// Whether it is a number's type, or `char`.
pub fn is_number(ty: Ty) -> bool
    ensures { result ≡ the_is_number ty }
{
    ty.dims == 0 && is_number_base(ty.base)
}

/// Whether numeric promotion comes to it.
pub fn is_promoted(ty: Ty) -> bool
    ensures { result ≡ the_is_promoted ty }
{
    is_int(ty) || same_type(ty, of(Base::Long))
}

/// Whether it is primitive.
pub fn is_primitive(ty: Ty) -> bool
    ensures { result ≡ the_is_primitive ty }
{
    is_number(ty) || is_bool(ty)
}

fn is_reference_base(base: Base) -> bool
    ensures { result ≡ the_is_reference_base base }
{
    match base {
        Base::Class(_) | Base::Null => true,
        _ => false,
    }
}

/// Whether it is a class, an array, or the type of `null`.
#[tactic(auto, using(crate::proofs::Dimensions::dimensions))]
pub fn is_reference(ty: Ty) -> bool
    ensures { result ≡ the_is_reference ty }
{
    if ty.dims == 0 {
        is_reference_base(ty.base)
    } else {
        true
    }
}

// Whether its class, if it is of one, is there.
fn is_there(program: &Program, ty: Ty) -> bool
    ensures { result ≡ the_is_there (program_view program.now) ty }
{
    match ty.base {
        Base::Class(class) => has_class(program, class),
        _ => true,
    }
}

fn holds_something(base: Base) -> bool
    ensures { result ≡ the_holds_something base }
{
    match base {
        Base::Void | Base::Null => false,
        _ => true,
    }
}

/// Whether a variable may have it: its class is there, and it is neither `void` nor the type of `null`, nor an array of these.
pub fn is_variable_type(program: &Program, ty: Ty) -> bool
    ensures { result ≡ the_is_variable_type (program_view program.now) ty }
{
    is_there(program, ty) && holds_something(ty.base)
}

/// The type of a constant; none for a reference.
pub fn type_of_value(value: Value) -> Option<Ty>
    ensures { result ≡ the_type_of_value value }
{
    match value {
        Value::Bool(_) => Some(of(Base::Bool)),
        Value::Byte(_) => Some(of(Base::Byte)),
        Value::Short(_) => Some(of(Base::Short)),
        Value::Char(_) => Some(of(Base::Char)),
        Value::Int(_) => Some(of(Base::Int)),
        Value::Long(_) => Some(of(Base::Long)),
        Value::Null => Some(of(Base::Null)),
        Value::Ref(_) => None,
    }
}
