// Expressions in statements, and what they mention.

ghost use Rattle.std.specs.Prelude.{◌≡◌, IfErr, IfOk, OnOk};
ghost use Rattle.je_ast.specs.View.{view, view_of_option, views_of};
ghost use Rattle.je_core.specs.View.{views};
ghost use Rattle.je_typing.specs.Answers.{IsFault};
ghost use Rattle.je_typing.specs.Judged.{gives};
ghost use Rattle.name_typing.specs.Program.{Program};
ghost use Rattle.body_typing.specs.Expressions.{Known, expression, read};
ghost use Rattle.statement_steps.specs.Returns.{Returning as Returns};
ghost use Rattle.body_typing.specs.Bodies.{behind};
ghost use Rattle.body_typing.specs.Statements.{behind_if, condition_or as the_condition_or, condition_span as the_condition_span, performed_steps as the_performed_steps, steps as the_steps, valued as the_valued};
ghost use Rattle.typed_nodes.specs.Seen.{seen};
ghost use Rattle.body_scopes.specs.View.{scope_seen};
ghost use Rattle.statement_forms.specs.Bodies.{HasAllMethods};
ghost use Rattle.statement_forms.specs.Seen.{done_in, known_of, program_of, progress_seen, returning_of};

use body_scopes::Scope;
use je_ast::Expr;
use je_base::{Memory, Span};
use je_core::{Base, Expr as Node};
use je_typing::Refusal;
use statement_forms::{Done, Progress, Walk, add_met, alloc, follow, nothing, one, performed};
use statement_steps::no_condition;
use std::rc::Rc;
use tree_spans::span;
use type_expr::{Purpose, elab_expr, value};
use typed_nodes::{TypedExpr, of_base};

// What an expression mentions.
fn meet<'a>(
    walk: Walk,
    scope: &Scope,
    progress: &mut Progress<'a>,
    expr: &'a Expr,
) -> Result<(), Memory>
    ensures { OnOk result (progress_seen progress.new ≡ behind (program_of walk.entry)
        (scope_seen scope.now) (view expr.now) (progress_seen progress.old)) }
{
    add_met(walk.bodies, scope, expr, &mut progress.met)
}

/// An expression whose value may be dropped, and what it mentions.
#[tactic(auto, using(je_typing::proofs::Walks::walks))]
pub fn expressed<'a>(
    walk: Walk,
    scope: &Scope,
    progress: &mut Progress<'a>,
    expr: &'a Expr,
) -> Result<TypedExpr, Refusal>
    requires { HasAllMethods walk.bodies.now }
    ensures ok { IfOk result (λ t. expression (program_of walk.entry) (known_of walk.entry)
        (scope_seen scope.now) read (view expr.now) ≡ gives (seen t)) }
    ensures met { OnOk result (progress_seen progress.new ≡ behind (program_of walk.entry)
        (scope_seen scope.now) (view expr.now) (progress_seen progress.old)) }
    ensures err { IfErr result (IsFault (expression (program_of walk.entry) (known_of walk.entry)
        (scope_seen scope.now) read (view expr.now))) }
{
    meet(walk, scope, progress, expr)?;
    elab_expr(walk.bodies, scope, Purpose::Read, expr)
}

/// A value that is used, and what it mentions.
#[tactic(auto, using(je_typing::proofs::Walks::walks))]
pub fn valued<'a>(
    walk: Walk,
    scope: &Scope,
    progress: &mut Progress<'a>,
    expr: &'a Expr,
) -> Result<TypedExpr, Refusal>
    requires { HasAllMethods walk.bodies.now }
    ensures ok { IfOk result (λ t. the_valued (program_of walk.entry) (known_of walk.entry)
        (returning_of walk.entry) (scope_seen scope.now) (view expr.now) ≡ gives (seen t)) }
    ensures met { OnOk result (progress_seen progress.new ≡ behind (program_of walk.entry)
        (scope_seen scope.now) (view expr.now) (progress_seen progress.old)) }
    ensures err { IfErr result (IsFault (the_valued (program_of walk.entry) (known_of walk.entry)
        (returning_of walk.entry) (scope_seen scope.now) (view expr.now))) }
{
    meet(walk, scope, progress, expr)?;
    value(walk.bodies, scope, Purpose::Read, expr)
}

/// The condition of a `for`; one that isn't there holds (JLS 14.14.1.2).
pub fn condition_or<'a>(
    walk: Walk,
    scope: &Scope,
    progress: &mut Progress<'a>,
    word: Span,
    condition: &'a Option<Expr>,
) -> Result<TypedExpr, Refusal>
    requires { HasAllMethods walk.bodies.now }
    ensures ok { IfOk result (λ t. the_condition_or (program_of walk.entry) (known_of walk.entry)
        (returning_of walk.entry) (scope_seen scope.now) word (view_of_option condition.now)
        ≡ gives (seen t)) }
    ensures met { OnOk result (progress_seen progress.new ≡ behind_if (program_of walk.entry)
        (known_of walk.entry) (returning_of walk.entry) (scope_seen scope.now)
        (view_of_option condition.now) (progress_seen progress.old)) }
    ensures err { IfErr result (IsFault (the_condition_or (program_of walk.entry)
        (known_of walk.entry) (returning_of walk.entry) (scope_seen scope.now) word
        (view_of_option condition.now))) }
{
    match condition {
        Some(condition) => valued(walk, scope, progress, condition),
        None => Ok(of_base(Base::Bool, no_condition(alloc(walk), word))),
    }
}

/// Where a condition is written, brackets included.
pub fn condition_span(word: Span, condition: &Option<Expr>) -> Span
    ensures { (p : Program) (k : Known) (returning : Returns) → result ≡
        the_condition_span p k returning word (view_of_option condition.now) }
{
    match condition {
        Some(condition) => span(condition),
        None => word,
    }
}

/// The steps of a `for`, whose values are dropped.
#[tactic(auto, using(je_typing::proofs::Walks::walks, crate::proofs::StepLists::step_lists))]
pub fn steps<'a>(
    walk: Walk,
    scope: &Scope,
    progress: &mut Progress<'a>,
    list: &'a [Expr],
) -> Result<Vec<Rc<Node>>, Refusal>
    requires { HasAllMethods walk.bodies.now }
    ensures ok { IfOk result (λ nodes. the_steps (program_of walk.entry) (known_of walk.entry)
        (returning_of walk.entry) (scope_seen scope.now) (progress_seen progress.old)
        (views_of list.now)
        ≡ gives (record { items = views nodes.items; progress = progress_seen progress.new })) }
    ensures err { IfErr result (IsFault (the_steps (program_of walk.entry) (known_of walk.entry)
        (returning_of walk.entry) (scope_seen scope.now) (progress_seen progress.old)
        (views_of list.now))) }
{
    let mut nodes = Vec::new(alloc(walk));
    for expr in list {
        let step = expressed(walk, scope, progress, expr)?;
        nodes.push(Rc::new(alloc(walk), step.node)?)?;
    }
    Ok(nodes)
}

/// The steps that a `for` begins with.
#[tactic(auto, using(je_typing::proofs::Walks::walks, crate::proofs::StepLists::performed_lists))]
pub fn performed_steps<'a>(
    walk: Walk,
    scope: &Scope,
    progress: &mut Progress<'a>,
    list: &'a [Expr],
) -> Result<Done, Refusal>
    requires { HasAllMethods walk.bodies.now }
    ensures ok { IfOk result (λ d. the_performed_steps (program_of walk.entry)
        (known_of walk.entry) (returning_of walk.entry) (scope_seen scope.now)
        (progress_seen progress.old) (views_of list.now)
        ≡ gives (done_in d (scope_seen scope.now) (progress_seen progress.new))) }
    ensures err { IfErr result (IsFault (the_performed_steps (program_of walk.entry)
        (known_of walk.entry) (returning_of walk.entry) (scope_seen scope.now)
        (progress_seen progress.old) (views_of list.now))) }
{
    let mut done = nothing(alloc(walk));
    for expr in list {
        let made = expressed(walk, scope, progress, expr)?;
        let code = performed(alloc(walk), span(expr), made.node)?;
        let more = one(alloc(walk), code)?;
        follow(&mut done, more)?;
    }
    Ok(done)
}
