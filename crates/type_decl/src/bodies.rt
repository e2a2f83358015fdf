// The statements of bodies.

ghost use Rattle.std.specs.Prelude.{◌≡◌, IfErr, IfOk, option_map};
ghost use Rattle.je_ast.specs.View.{block_view_of_option, statement_views_of};
ghost use Rattle.je_core.specs.View.{stmt_view};
ghost use Rattle.je_fitting.specs.Statements.{no_targets as the_no_targets};
ghost use Rattle.je_typing.specs.Answers.{IsFault};
ghost use Rattle.je_typing.specs.Judged.{gives};
ghost use Rattle.statement_steps.specs.View.{returning_seen};
ghost use Rattle.body_typing.specs.Statements.{statements as the_statements};
ghost use Rattle.body_scopes.specs.View.{scope_seen};
ghost use Rattle.member_forms.specs.Bodies.{HasAllMethods};
ghost use Rattle.member_forms.specs.Statements.{done_seen, progress_seen};
ghost use Rattle.member_forms.specs.Seen.{known_of, program_of};
ghost use Rattle.member_forms.specs.Walks.{begun, body_done};
ghost use Rattle.type_decl.specs.way.Walks.{body_if as the_body_if};

use body_scopes::Scope;
use fit_statements::no_targets;
use je_ast::{Block, Stmt};
use je_core::Stmt as Code;
use je_typing::Refusal;
use member_forms::{ClassWalk, Done, Progress, Walk, alloc, block_of, number};
use statement_steps::Returning;
use type_statements::statements;

/// The statements of a body.
pub fn body_statements<'a>(
    walk: ClassWalk,
    returning: Returning<'_>,
    scope: &mut Scope,
    progress: &mut Progress<'a>,
    list: &'a [Stmt],
) -> Result<Done, Refusal>
    requires { HasAllMethods walk.bodies.now }
    ensures ok { IfOk result (λ d. the_statements (program_of walk.entry) (known_of walk.entry)
        (returning_seen returning.entry) the_no_targets (scope_seen scope.old)
        (progress_seen progress.old) (statement_views_of list.now)
        ≡ gives (done_seen d scope.new progress.new)) }
    ensures err { IfErr result (IsFault (the_statements (program_of walk.entry)
        (known_of walk.entry) (returning_seen returning.entry) the_no_targets
        (scope_seen scope.old) (progress_seen progress.old) (statement_views_of list.now))) }
{
    let inside = Walk {
        bodies: walk.bodies,
        returning,
        no_name: number(walk, ""),
    };
    statements(inside, &no_targets(), scope, progress, list)
}

/// The body of a method, if it has one.
#[tactic(auto, using(je_typing::proofs::Walks::walks))]
pub fn body_if<'a>(
    walk: ClassWalk,
    returning: Returning<'_>,
    scope: &mut Scope,
    progress: &mut Progress<'a>,
    body: &'a Option<Block>,
) -> Result<Option<Code>, Refusal>
    requires { HasAllMethods walk.bodies.now }
    ensures ok { IfOk result (λ b. the_body_if walk.entry (returning_seen returning.entry)
        (begun (scope_seen scope.old) (progress_seen progress.old)) (block_view_of_option body.now)
        ≡ gives (body_done (option_map stmt_view b) (progress_seen progress.new))) }
    ensures err { IfErr result (IsFault (the_body_if walk.entry (returning_seen returning.entry)
        (begun (scope_seen scope.old) (progress_seen progress.old))
        (block_view_of_option body.now))) }
{
    let Some(block) = body else {
        return Ok(None);
    };
    let done = body_statements(walk, returning, scope, progress, &block.stmts)?;
    let code = block_of(alloc(walk), block.opening, block.closing, done)?;
    Ok(Some(code))
}
