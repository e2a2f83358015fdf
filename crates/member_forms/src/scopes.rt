// What stands round the members of a class: words of the program, the span of the class, and scopes before locals.

ghost use Rattle.std.specs.Prelude.{◌≡◌, option_map};
ghost use Rattle.je_scopes.specs.Sites.{context_of as the_context_of};
ghost use Rattle.name_walk.specs.View.{context_view};
ghost use Rattle.body_places.specs.Places.{initializer_seen};
ghost use Rattle.body_scopes.specs.View.{scope_seen};
ghost use Rattle.member_forms.specs.Walks.{class_span as the_class_span, field_scope as the_field_scope, number as the_number, scope_in as the_scope_in};

use crate::walk::{ClassWalk, alloc};
use body_places::{Frame, Initializer};
use body_scopes::Scope;
use je_base::{NameId, Span};
use name_walk::Context;
use statement_forms::written_span;
use word_numbers::number as number_in;

/// The number of a word, the first one where it has none.
pub fn number(walk: ClassWalk, word: &str) -> NameId
    ensures { result ≡ the_number walk.entry word.now }
{
    number_in(walk.names, word)
}

/// The context in a member.
pub fn context_of(is_static: bool) -> Context
    ensures { context_view result ≡ the_context_of is_static }
{
    if is_static {
        Context::Static
    } else {
        Context::Instance
    }
}

/// The span that has what no source writes: that of the name of the class, or its word `new`.
pub fn class_span(walk: ClassWalk) -> Span
    ensures { result ≡ the_class_span walk.entry }
{
    let bodies = walk.bodies;
    written_span(bodies.calls.program.source.sites.written(walk.class))
}

/// The scope at the head of a member's body, or in an initializer.
pub fn scope_in<'a>(
    walk: ClassWalk<'a>,
    context: Context,
    initializer: Option<Initializer>,
    is_constructor: bool,
) -> Scope<'a>
    ensures { scope_seen result ≡ the_scope_in walk.entry (context_view context)
        (option_map initializer_seen initializer) is_constructor }
{
    let here = Frame {
        class: walk.class,
        locals: Vec::new(alloc(walk)),
        local_classes: Vec::new(alloc(walk)),
        context,
        initializer,
    };
    Scope {
        here,
        round: walk.round,
        is_constructor,
        given: Vec::new(alloc(walk)),
    }
}

/// The scope in the initializer of a field, before which so many fields stand.
pub fn field_scope<'a>(walk: ClassWalk<'a>, is_static: bool, at: usize) -> Scope<'a>
    ensures { scope_seen result ≡ the_field_scope walk.entry is_static at }
{
    let initializer = Initializer {
        is_static,
        declared: at,
    };
    scope_in(walk, context_of(is_static), Some(initializer), false)
}
