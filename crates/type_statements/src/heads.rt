// What a `for` begins with (JLS 14.14.1.1).

ghost use Rattle.std.specs.Prelude.{◌≡◌, IfErr, IfOk, OnOk};
ghost use Rattle.je_ast.specs.View.{for_initializer_node_view, for_initializer_view};
ghost use Rattle.je_typing.specs.Answers.{IsFault};
ghost use Rattle.je_typing.specs.Judged.{gives};
ghost use Rattle.body_typing.specs.Statements.{for_start as the_for_start};
ghost use Rattle.body_scopes.specs.Extending.{Extends};
ghost use Rattle.body_scopes.specs.View.{scope_seen};
ghost use Rattle.statement_forms.specs.Bodies.{HasAllMethods};
ghost use Rattle.statement_forms.specs.Seen.{done_seen, known_of, program_of, progress_seen, returning_of};

use crate::declaring::locals;
use crate::expressing::performed_steps;
use body_scopes::Scope;
use je_ast::{Expr, ForInit};
use je_base::Span;
use je_typing::Refusal;
use statement_forms::{Done, Progress, Walk};
use written_types::span_of;

/// The parts of a `for` before its body.
#[derive(Clone, Copy)]
pub struct ForHead<'a> {
    pub word: Span,
    pub init: &'a ForInit,
    pub condition: &'a Option<Expr>,
    pub steps: &'a [Expr],
}

/// What a `for` begins with: local variables or steps.
#[tactic(auto, using(je_ast::proofs::Views::for_initializer_is))]
pub fn for_start<'a>(
    walk: Walk,
    scope: &mut Scope,
    progress: &mut Progress<'a>,
    init: &'a ForInit,
) -> Result<Done, Refusal>
    requires { HasAllMethods walk.bodies.now }
    ensures ok { IfOk result (λ d. the_for_start (program_of walk.entry) (known_of walk.entry)
        (returning_of walk.entry) (scope_seen scope.old) (progress_seen progress.old)
        (for_initializer_view init.now) ≡ gives (done_seen d scope.new progress.new)) }
    ensures extends { OnOk result (Extends (scope_seen scope.old) (scope_seen scope.new)) }
    ensures err { IfErr result (IsFault (the_for_start (program_of walk.entry)
        (known_of walk.entry) (returning_of walk.entry) (scope_seen scope.old)
        (progress_seen progress.old) (for_initializer_view init.now))) }
{
    for_start_here(walk, scope, progress, init)
}

#[tactic(auto, using(body_scopes::proofs::Extending::extends_itself))]
fn for_start_here<'a>(
    walk: Walk,
    scope: &mut Scope,
    progress: &mut Progress<'a>,
    init: &'a ForInit,
) -> Result<Done, Refusal>
    requires { HasAllMethods walk.bodies.now }
    ensures ok { IfOk result (λ d. the_for_start (program_of walk.entry) (known_of walk.entry)
        (returning_of walk.entry) (scope_seen scope.old) (progress_seen progress.old)
        (for_initializer_node_view init.now) ≡ gives (done_seen d scope.new progress.new)) }
    ensures extends { OnOk result (Extends (scope_seen scope.old) (scope_seen scope.new)) }
    ensures err { IfErr result (IsFault (the_for_start (program_of walk.entry)
        (known_of walk.entry) (returning_of walk.entry) (scope_seen scope.old)
        (progress_seen progress.old) (for_initializer_node_view init.now))) }
{
    match init {
        ForInit::Locals { is_final, ty, vars } => {
            locals(walk, scope, progress, *is_final, span_of(ty), ty, vars)
        }
        ForInit::Steps { steps } => performed_steps(walk, scope, progress, steps),
    }
}
