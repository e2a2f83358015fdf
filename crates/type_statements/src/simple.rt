// Statements of an expression, `return`, `throw` (JLS 14.8, 14.17, 14.18).

ghost use Rattle.std.specs.Prelude.{◌≡◌, IfErr, IfOk};
ghost use Rattle.je_ast.specs.View.{view, view_of_option};
ghost use Rattle.je_typing.specs.Answers.{IsFault};
ghost use Rattle.je_typing.specs.Judged.{gives};
ghost use Rattle.body_scopes.specs.View.{scope_seen};
ghost use Rattle.statement_forms.specs.Bodies.{HasAllMethods};
ghost use Rattle.statement_forms.specs.Seen.{done_in, progress_seen};
ghost use Rattle.statement_forms.specs.Written.{statement_of};
ghost use Rattle.type_statements.specs.Written.{a_return, a_throw, an_expression};

use crate::expressing::{expressed, valued};
use body_scopes::Scope;
use je_ast::Expr;
use je_base::Span;
use je_typing::Refusal;
use statement_forms::{Done, Progress, Walk, alloc, one, performed};
use statement_steps::{returned, thrown};
use tree_spans::span;
use value_statements::returned_value;

/// An expression as a statement, which begins there.
#[tactic(auto, using(je_typing::proofs::Walks::walks, crate::proofs::Expressed::expression_is))]
pub fn expression_statement<'a>(
    walk: Walk,
    scope: &Scope,
    progress: &mut Progress<'a>,
    start: Span,
    expr: &'a Expr,
) -> Result<Done, Refusal>
    requires { HasAllMethods walk.bodies.now }
    ensures ok { IfOk result (λ d. statement_of walk.entry (scope_seen scope.now)
        (progress_seen progress.old) (an_expression start (view expr.now))
        ≡ gives (done_in d (scope_seen scope.now) (progress_seen progress.new))) }
    ensures err { IfErr result (IsFault (statement_of walk.entry
        (scope_seen scope.now) (progress_seen progress.old)
        (an_expression start (view expr.now)))) }
{
    let made = expressed(walk, scope, progress, expr)?;
    let code = performed(alloc(walk), start, made.node)?;
    let whole = one(alloc(walk), code)?;
    Ok(whole)
}

/// `return`, with or without a value.
#[tactic(auto, using(je_typing::proofs::Walks::walks, crate::proofs::Expressed::return_is, crate::proofs::Expressed::return_nothing))]
pub fn return_statement<'a>(
    walk: Walk,
    scope: &Scope,
    progress: &mut Progress<'a>,
    word: Span,
    value: &'a Option<Expr>,
) -> Result<Done, Refusal>
    requires { HasAllMethods walk.bodies.now }
    ensures ok { IfOk result (λ d. statement_of walk.entry (scope_seen scope.now)
        (progress_seen progress.old) (a_return word (view_of_option value.now))
        ≡ gives (done_in d (scope_seen scope.now) (progress_seen progress.new))) }
    ensures err { IfErr result (IsFault (statement_of walk.entry
        (scope_seen scope.now) (progress_seen progress.old)
        (a_return word (view_of_option value.now)))) }
{
    let Some(value) = value else {
        let code = returned(alloc(walk), walk.returning, word)?;
        let whole = one(alloc(walk), code)?;
        return Ok(whole);
    };
    let made = valued(walk, scope, progress, value)?;
    let bodies = walk.bodies;
    let heads = bodies.calls.program.heads;
    let code = returned_value(alloc(walk), heads, walk.returning, word, span(value), made)?;
    let whole = one(alloc(walk), code)?;
    Ok(whole)
}

/// `throw`
#[tactic(auto, using(je_typing::proofs::Walks::walks, crate::proofs::Expressed::throw_is))]
pub fn throw_statement<'a>(
    walk: Walk,
    scope: &Scope,
    progress: &mut Progress<'a>,
    word: Span,
    value: &'a Expr,
) -> Result<Done, Refusal>
    requires { HasAllMethods walk.bodies.now }
    ensures ok { IfOk result (λ d. statement_of walk.entry (scope_seen scope.now)
        (progress_seen progress.old) (a_throw word (view value.now))
        ≡ gives (done_in d (scope_seen scope.now) (progress_seen progress.new))) }
    ensures err { IfErr result (IsFault (statement_of walk.entry
        (scope_seen scope.now) (progress_seen progress.old) (a_throw word (view value.now)))) }
{
    let made = valued(walk, scope, progress, value)?;
    let bodies = walk.bodies;
    let heads = bodies.calls.program.heads;
    let code = thrown(alloc(walk), heads, word, span(value), made)?;
    let whole = one(alloc(walk), code)?;
    Ok(whole)
}
