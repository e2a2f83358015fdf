// Which method is the `main` of a program.

ghost use Rattle.std.specs.Prelude.{◌≡◌, ◌<◌, IfSome, codes, length, map};
ghost use Rattle.je_base.specs.Names.{text_of};
ghost use Rattle.je_core.specs.View.{method_view, program_view};
ghost use Rattle.je_classes.specs.Members.{methods_of};
ghost use Rattle.main_runs.specs.Mains.{first_class as the_first_class, is_main as the_is_main, is_text, main_from, main_of as the_main_of};

use class_members::same_type;
use je_core::{Base, ClassId, Method, NameId, Names, Program, Ty};
use je_table::class_rows;

const INT: Ty = Ty {
    base: Base::Int,
    dims: 0,
};

/// The first class of a source, behind the library's.
#[tactic(auto, unfolding(crate::specs::Mains::first_class))]
pub fn first_class() -> ClassId
    ensures { result ≡ the_first_class }
{
    ClassId(class_rows().len() as u32)
}

fn is_named_main(names: &Names, name: NameId) -> bool
    ensures { result ≡ is_text (codes "main") (text_of names.now name) }
{
    match names.text(name) {
        None => false,
        Some(text) => text == "main",
    }
}

// Whether a method is `static int main()`.
fn is_main(names: &Names, method: &Method) -> bool
    ensures { result ≡ the_is_main names.now (method_view method.now) }
{
    method.flags.is_static
        && method.params.len() == 0
        && same_type(method.returns, INT)
        && is_named_main(names, method.name)
}

// The number of the first of some methods that is one.
fn main_among(names: &Names, methods: &[Method]) -> Option<usize>
    ensures number { result ≡ main_from names.now 0 (map method_view methods.now) }
    ensures within { IfSome result (λ number. number < length methods.now) }
{
    for (number, method) in methods.iter().enumerate() {
        if is_main(names, method) {
            return Some(number);
        }
    }
    None
}

/// The number of `static int main()` among the methods of the first class of a source; None exactly where there is no
/// class, or where that one has no such method.
pub fn main_of(program: &Program, names: &Names) -> Option<usize>
    ensures number { result ≡ the_main_of names.now (program_view program.now) }
    ensures within { IfSome result
        (λ number. number < length (methods_of (program_view program.now) the_first_class)) }
{
    match program.class(first_class()) {
        None => None,
        Some(class) => main_among(names, &class.methods),
    }
}
