// The loops of `for`, but for the walk over their bodies (JLS 14.14).

ghost use Rattle.std.specs.Prelude.{◌≡◌, IfOk, OnOk};
ghost use Rattle.je_core.specs.View.{stmt_view};
ghost use Rattle.body_typing.specs.FinalVariables.{Scope as Seen};
ghost use Rattle.body_typing.specs.Bodies.{Progress as Progressed};
ghost use Rattle.body_typing.specs.Statements.{for_code as the_for_code, with_hidden as the_with_hidden};
ghost use Rattle.typed_nodes.specs.Seen.{seen};
ghost use Rattle.statement_forms.specs.Seen.{done_in, known_of, program_of, progress_seen, returning_of};

use crate::done::{Done, parts};
use crate::labelling::{start_of, with_label};
use crate::progress::{Progress, add_number};
use crate::walk::{Walk, alloc};
use je_ast::Identifier;
use je_base::{Memory, Span};
use je_core::{Base, Stmt, make_block};
use typed_nodes::{TypedExpr, primitive_ty};

/// A block of what a `for` begins with and its loop, at which a label stands.
pub fn for_code(
    walk: Walk,
    label: Option<Identifier>,
    word: Span,
    start: Done,
    turn: Stmt,
) -> Result<Stmt, Memory>
    ensures { IfOk result (λ code. (s : Seen) (pr : Progressed) → stmt_view code ≡ the_for_code
        (program_of walk.entry) (known_of walk.entry) (returning_of walk.entry) label word
        (done_in start s pr) (stmt_view turn)) }
{
    let Done { mut code, numbers } = start;
    let alloc = alloc(walk);
    code.push(with_label(alloc, label, turn)?)?;
    let parts = parts(alloc, code)?;
    Ok(make_block(start_of(label, word), word, numbers, parts))
}

/// Numbers the locals of an array and of an index, which no source names.
pub fn add_hidden(
    walk: Walk,
    progress: &mut Progress,
    at: Span,
    array: &TypedExpr,
) -> Result<(), Memory>
    ensures { OnOk result (progress_seen progress.new ≡ the_with_hidden (program_of walk.entry)
        (known_of walk.entry) (returning_of walk.entry) at (seen array.now)
        (progress_seen progress.old)) }
{
    let bodies = walk.bodies;
    let heads = bodies.calls.program.heads;
    add_number(heads, progress, walk.no_name, &array.ty, false, at)?;
    add_number(
        heads,
        progress,
        walk.no_name,
        &primitive_ty(Base::Int),
        false,
        at,
    )?;
    Ok(())
}
