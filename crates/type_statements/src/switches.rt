// `switch`, but for the labels and the statements of its groups (JLS 14.11).

ghost use Rattle.std.specs.Prelude.{◌≡◌, IfErr, IfOk};
ghost use Rattle.je_ast.specs.View.{view};
ghost use Rattle.je_core.specs.View.{stmt_view};
ghost use Rattle.je_typing.specs.Answers.{IsFault};
ghost use Rattle.je_typing.specs.Judged.{gives};
ghost use Rattle.body_typing.specs.Bodies.{Progress as Progressed};
ghost use Rattle.body_typing.specs.Statements.{last_byte as the_last_byte, switch_judged as the_switch_judged};
ghost use Rattle.typed_nodes.specs.Seen.{seen};
ghost use Rattle.statement_forms.specs.Seen.{groups_in, known_of, program_of, returning_of};

use je_ast::Expr;
use je_base::Span;
use je_core::{Stmt, make_switch};
use je_typing::Refusal;
use statement_forms::{Groups, Walk, alloc, groups};
use statement_steps::selector;
use tree_spans::span;
use typed_nodes::TypedExpr;

// The closing bracket of a statement that ends with one.
fn last_byte(span: Span) -> Span
    ensures { result ≡ the_last_byte span }
{
    Span {
        file: span.file,
        start: span.end.saturating_sub(1),
        end: span.end,
    }
}

/// A `switch` over groups whose statements are walked, by what is selected of a value. Its last token is its closing bracket.
#[tactic(auto, using(je_typing::proofs::Walks::walks))]
pub fn switch_judged(
    walk: Walk,
    word: Span,
    whole: Span,
    value: &Expr,
    by: TypedExpr,
    written: Groups,
) -> Result<Stmt, Refusal>
    ensures ok { IfOk result (λ code. (pr : Progressed) → the_switch_judged
        (program_of walk.entry) (known_of walk.entry) (returning_of walk.entry) word whole
        (view value.now) (seen by) (groups_in written pr) ≡ gives (stmt_view code)) }
    ensures err { IfErr result (λ refusal. (pr : Progressed) → IsFault (the_switch_judged
        (program_of walk.entry) (known_of walk.entry) (returning_of walk.entry) word whole
        (view value.now) (seen by) (groups_in written pr)) refusal) }
{
    let Groups {
        groups: written,
        numbers,
    } = written;
    selector(span(value), &by.ty)?;
    let bodies = walk.bodies;
    let heads = bodies.calls.program.heads;
    let groups = groups(alloc(walk), heads, &by.ty, written)?;
    let code = make_switch(
        alloc(walk),
        word,
        last_byte(whole),
        numbers,
        by.node,
        groups,
    )?;
    Ok(code)
}
