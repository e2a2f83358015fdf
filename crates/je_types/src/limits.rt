// Whether the parts of a program have numbers.

ghost use Rattle.std.specs.Prelude.{◌≡◌, ◌<◌, ◌^◌, true, length, sum, map};
ghost use Rattle.std.specs.List.{list_all};
ghost use Rattle.je_core.specs.View.{class_view, initializer_view, method_view, program_view};
ghost use Rattle.je_classes.specs.Statics.{static_count};
ghost use Rattle.je_types.specs.Limits.{IsSmall};
ghost use Rattle.je_types.specs.way.Small.{begins_few_locals, has_few_locals, is_few as the_is_few, is_small as the_is_small, is_small_class as the_is_small_class};

use je_core::{Class, Initializer, Method, Program};

fn is_few(count: usize) -> bool
    ensures { result ≡ the_is_few count }
{
    count < 2_147_483_648
}

fn have_few_locals(methods: &[Method]) -> bool
    ensures { result ≡ list_all has_few_locals (map method_view methods.now) }
{
    for method in methods {
        if !is_few(method.locals.len()) {
            return false;
        }
    }
    true
}

fn begin_few_locals(initializers: &[Initializer]) -> bool
    ensures { result ≡ list_all begins_few_locals (map initializer_view initializers.now) }
{
    for initializer in initializers {
        if !is_few(initializer.locals.len()) {
            return false;
        }
    }
    true
}

fn is_small_class(class: &Class) -> bool
    ensures { result ≡ the_is_small_class (class_view class.now) }
{
    is_few(class.heads.len())
        && is_few(class.interfaces.len())
        && is_few(class.fields.len())
        && is_few(class.initializers.len())
        && is_few(class.methods.len())
        && have_few_locals(&class.methods)
        && begin_few_locals(&class.initializers)
}

fn are_small_classes(classes: &[Class]) -> bool
    ensures { result ≡ list_all the_is_small_class (map class_view classes.now) }
{
    for class in classes {
        if !is_small_class(class) {
            return false;
        }
    }
    true
}

// How many static fields a class has.
fn statics_of(class: &Class) -> u64
    ensures value { result ≡ static_count (class_view class.now) }
{
    let mut count: u64 = 0;
    for field in &class.fields {
        if field.is_static {
            count += 1;
        }
    }
    count
}

// How many static fields some classes have.
fn statics_among(classes: &[Class]) -> u128
    ensures value { result ≡ sum (map static_count (map class_view classes.now)) }
    ensures bound { result < 2 ^ 127 }
{
    let mut count: u128 = 0;
    for class in classes {
        count += statics_of(class) as u128;
    }
    count
}

// Whether a program passes the tests of a small one.
#[tactic(auto, unfolding(je_core::specs::View::program_view))]
fn passes(program: &Program) -> bool
    ensures { result ≡ the_is_small (program_view program.now) }
{
    let statics = statics_among(&program.classes) + program.texts.len() as u128;
    is_few(program.classes.len()) && are_small_classes(&program.classes) && statics < 2_147_483_648
}

/// Whether a program is small enough for the numbers of its parts: fewer than 2^31 classes, and of each kind of part in each
/// class, and static fields and texts together.
#[tactic(auto, using(crate::proofs::SmallPrograms::what_passes, crate::proofs::SmallPrograms::small_passes))]
pub fn is_small(program: &Program) -> bool
    ensures small { result ≡ true → IsSmall (program_view program.now) }
    ensures exact { IsSmall (program_view program.now) → result ≡ true }
{
    passes(program)
}
