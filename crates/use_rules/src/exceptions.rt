// Catches of errors, and `finally`.

ghost use Rattle.std.specs.Prelude.{◌≡◌, OnOk};
ghost use Rattle.je_core.specs.Core.{maybe_stmt};
ghost use Rattle.je_core.specs.View.{stmt_view_if};
ghost use Rattle.je_types.specs.Views.{program_of};
ghost use Rattle.rule_breaks.specs.way.Found.{followed_by};
ghost use Rattle.use_rules.specs.Exceptions.{error as the_error, error_breaks, finally_breaks, takes_errors as the_takes_errors, throwable as the_throwable};

use class_members::same_class;
use je_core::{ClassId, Memory, Span, Stmt};
use je_table::LibraryClass;
use je_types::Typed;
use rule_breaks::{ConfinementRule, Found};
use std::rc::Rc;

#[tactic(auto, unfolding(je_classes::specs::Hierarchy::library_class, crate::specs::Exceptions::throwable))]
fn throwable() -> ClassId
    ensures { result ≡ the_throwable }
{
    ClassId(LibraryClass::Throwable.number())
}

#[tactic(auto, unfolding(je_classes::specs::Hierarchy::library_class, crate::specs::Exceptions::error))]
fn error() -> ClassId
    ensures { result ≡ the_error }
{
    ClassId(LibraryClass::Error.number())
}

// Whether a catch of a class takes errors.
fn takes_errors(typed: &Typed, class: ClassId) -> bool
    ensures { result ≡ the_takes_errors (program_of typed.now) class }
{
    same_class(class, throwable()) || typed.is_below(class, error())
}

/// Adds the break of a catch that names `Throwable`, `Error` or a class below that, at the name.
pub fn judge_catch(
    typed: &Typed,
    class: ClassId,
    span: Span,
    found: &mut Found,
) -> Result<(), Memory>
    ensures { OnOk result (found.new ≡
        followed_by found.old (error_breaks (program_of typed.now) class span)) }
{
    found.add_where(
        takes_errors(typed, class),
        ConfinementRule::CatchError,
        span,
    )
}

/// Adds the break of a `finally`, at its word.
pub fn judge_finally(word: Span, last: &Option<Rc<Stmt>>, found: &mut Found) -> Result<(), Memory>
    ensures { OnOk result (found.new ≡
        followed_by found.old (finally_breaks word (maybe_stmt (stmt_view_if last.now)))) }
{
    match last {
        None => Ok(()),
        Some(_) => found.add(ConfinementRule::Finally, word),
    }
}
