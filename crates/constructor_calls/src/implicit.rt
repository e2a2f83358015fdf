// The call of the superclass's constructor by no word of its own.

ghost use Rattle.std.specs.Prelude.{◌≡◌, map, option_map};
ghost use Rattle.je_core.specs.View.{method_view, program_view, stmt_view_if};
ghost use Rattle.je_classes.specs.Members.{methods_of};
ghost use Rattle.class_members.specs.Places.{member_of};
ghost use Rattle.constructor_calls.specs.Calls.{begins_without_call as the_begins_without_call, implicitly_called as the_implicitly_called, is_plain_constructor as the_is_plain_constructor, plain_constructor as the_plain_constructor, plain_from};

use crate::calls::begins_with_call;
use class_members::names_constructors;
use je_core::{ClassId, Method, Program, Stmt};
use std::rc::Rc;

fn is_plain_constructor(program: &Program, method: &Method) -> bool
    ensures { result ≡ the_is_plain_constructor (program_view program.now)
        (method_view method.now) }
{
    names_constructors(program, method.name) && method.params.len() == 0
}

// The place of the first constructor without parameters among some methods.
fn plain_among(program: &Program, methods: &[Method]) -> Option<usize>
    ensures { result ≡ plain_from (program_view program.now) 0 (map method_view methods.now) }
{
    for (at, method) in methods.iter().enumerate() {
        if is_plain_constructor(program, method) {
            return Some(at);
        }
    }
    None
}

fn plain_in(program: &Program, class: ClassId) -> Option<usize>
    ensures { result ≡ plain_from (program_view program.now) 0
        (methods_of (program_view program.now) class) }
{
    match program.class(class) {
        None => None,
        Some(class) => plain_among(program, &class.methods),
    }
}

/// A superclass's constructor without parameters.
pub fn plain_constructor(program: &Program, superclass: Option<ClassId>) -> Option<(ClassId, usize)>
    ensures { option_map member_of result ≡
        the_plain_constructor (program_view program.now) superclass }
{
    let Some(class) = superclass else {
        return None;
    };
    match plain_in(program, class) {
        None => None,
        Some(at) => Some((class, at)),
    }
}

fn begins_without_call(program: &Program, body: &Option<Rc<Stmt>>) -> bool
    ensures { result ≡ the_begins_without_call (program_view program.now) (stmt_view_if body.now) }
{
    match body {
        None => false,
        Some(body) => !begins_with_call(program, body),
    }
}

/// The constructor that a method of a class with that superclass calls by no word of its own; None exactly where it isn't a
/// constructor, where it begins with the call of another one, and where the superclass has none without parameters.
pub fn implicitly_called(
    program: &Program,
    superclass: Option<ClassId>,
    method: &Method,
) -> Option<(ClassId, usize)>
    ensures { option_map member_of result ≡
        the_implicitly_called (program_view program.now) superclass (method_view method.now) }
{
    if names_constructors(program, method.name) && begins_without_call(program, &method.body) {
        return plain_constructor(program, superclass);
    }
    None
}
