// Initializers (JLS 8.6, 8.7).

ghost use Rattle.std.specs.Prelude.{◌≡◌, IfOk};
ghost use Rattle.body_typing.specs.FinalVariables.{Scope as Seen};
ghost use Rattle.body_scopes.specs.View.{scope_seen};
ghost use Rattle.statement_forms.specs.Seen.{done_in, progress_seen};
ghost use Rattle.member_forms.specs.Seen.{members_seen};
ghost use Rattle.member_forms.specs.Walks.{initializer_code as the_initializer_code, initializer_scope as the_initializer_scope, is_static_word as the_is_static_word};

use crate::done::{MembersDone, of_initializer};
use crate::scopes::field_scope;
use crate::walk::{ClassWalk, alloc};
use body_scopes::Scope;
use je_ast::Block;
use je_base::{Memory, Span};
use je_core::Initializer;
use statement_forms::{Done, Progress, block_of};
use std::rc::Rc;

fn is_static_word(walk: ClassWalk, word: &Option<Span>) -> bool
    ensures { result ≡ the_is_static_word walk.entry word.now }
{
    match word {
        Some(_) => true,
        None => false,
    }
}

/// The scope of an initializer, before which the word `static` may stand, and so many fields.
pub fn initializer_scope<'a>(walk: ClassWalk<'a>, word: &Option<Span>, fields: usize) -> Scope<'a>
    ensures { scope_seen result ≡ the_initializer_scope walk.entry word.now fields }
{
    match word {
        Some(_) => field_scope(walk, true, fields),
        None => field_scope(walk, false, fields),
    }
}

/// An initializer, of what its statements came to.
pub fn initializer_code<'a>(
    walk: ClassWalk,
    word: &Option<Span>,
    block: &Block,
    progress: Progress<'a>,
    done: Done,
) -> Result<MembersDone<'a>, Memory>
    ensures { (s : Seen) → IfOk result (λ d. members_seen d ≡ the_initializer_code walk.entry
        (the_is_static_word walk.entry word.now) block.now.opening block.now.closing
        (done_in done s (progress_seen progress.entry))) }
{
    let Progress { locals, met } = progress;
    let code = block_of(alloc(walk), block.opening, block.closing, done)?;
    let initializer = Initializer {
        is_static: is_static_word(walk, word),
        span: block.opening,
        locals,
        body: Rc::new(alloc(walk), code)?,
    };
    let members = of_initializer(alloc(walk), initializer, met)?;
    Ok(members)
}
