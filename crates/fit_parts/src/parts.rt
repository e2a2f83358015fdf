// What is named in a node: classes, fields, texts.

ghost use Rattle.std.specs.Prelude.{◌≡◌, is_some};
ghost use Rattle.std.specs.Str.{bytes_eq};
ghost use Rattle.je_core.specs.Core.{ty_of};
ghost use Rattle.je_core.specs.View.{view, method_view, program_view};
ghost use Rattle.je_classes.specs.Hierarchy.{class_at};
ghost use Rattle.je_fitting.specs.Expressions.{field_at as the_field_at, is_constructor as the_is_constructor};
ghost use Rattle.je_fitting.specs.way.Deciding.{uses_there as the_uses_there, stands_once as the_stands_once};

use class_members::{field_at, names_constructors};
use je_core::{ClassId, Expr, Method, Program, Ty, Units, Use};

/// The type of an expression.
#[tactic(auto, using(je_core::proofs::Views::view_is))]
pub fn type_of(e: &Expr) -> Ty
    ensures { result ≡ ty_of (view e.now) }
{
    e.ty
}

/// Whether there is a class of this number.
pub fn has_class(program: &Program, class: ClassId) -> bool
    ensures { result ≡ is_some (class_at (program_view program.now) class) }
{
    match program.class(class) {
        None => false,
        Some(_) => true,
    }
}

/// Whether a class has a field at a place.
pub fn has_field(program: &Program, class: ClassId, at: usize) -> bool
    ensures { result ≡ is_some (the_field_at (program_view program.now) class at) }
{
    match field_at(program, class, at) {
        None => false,
        Some(_) => true,
    }
}

/// Whether a method is a constructor.
pub fn is_constructor(program: &Program, method: &Method) -> bool
    ensures { result ≡ the_is_constructor (program_view program.now) (method_view method.now) }
{
    names_constructors(program, method.name)
}

/// Whether the library fields that a constant names are there.
pub fn uses_there(program: &Program, uses: &[Use]) -> bool
    ensures { result ≡ the_uses_there (program_view program.now) uses.now }
{
    for one in uses {
        if !has_field(program, one.class, one.field as usize) {
            return false;
        }
    }
    true
}

fn is_same_text(a: &Units, b: &Units) -> bool
    ensures { result ≡ bytes_eq a.now b.now }
{
    a.as_slice() == b.as_slice()
}

/// Whether the units stand once among the program's texts.
#[tactic(auto, unfolding(je_core::specs::View::program_view))]
pub fn stands_once(program: &Program, units: &Units) -> bool
    ensures { result ≡ the_stands_once (program_view program.now) units.now }
{
    let mut count: usize = 0;
    for text in program.texts.as_slice() {
        if is_same_text(text, units) {
            count += 1;
        }
    }
    count == 1
}
