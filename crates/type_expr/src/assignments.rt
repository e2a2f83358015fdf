// Assignments and what counts by one, of parts that are judged (JLS 15.14, 15.15.1, 15.15.2, 15.26).

ghost use Rattle.std.specs.Prelude.{◌≡◌, IfErr, IfOk};
ghost use Rattle.je_typing.specs.Answers.{IsFault};
ghost use Rattle.je_typing.specs.Assignments.{assignment as the_assignment, compound as the_compound, stepped as the_stepped};
ghost use Rattle.je_typing.specs.Judged.{gives};
ghost use Rattle.body_typing.specs.Expressions.{assign_step, assigned_by, may_be_target as the_may_be_target};
ghost use Rattle.body_scopes.specs.View.{scope_seen};
ghost use Rattle.typed_nodes.specs.Seen.{seen};
ghost use Rattle.body_walks.specs.Walks.{known_in, program_in};

use body_scopes::{Scope, not_final};
use body_walks::Bodies;
use expr_steps::stepped;
use je_ast::BinaryOp;
use je_base::Span;
use je_core::BinOp;
use je_typing::{Refusal, TypeRule, check};
use operator_steps::{Part, assignment, compound};
use typed_nodes::TypedExpr;

// Whether what is assigned is written as a variable and isn't final.
#[tactic(auto, using(je_typing::proofs::Walks::walks), unfolding(body_typing::specs::Expressions::may_be_target, body_walks::specs::Known::known_seen))]
fn may_be_target(
    bodies: &Bodies,
    scope: &Scope,
    target: &Part,
    is_variable: bool,
) -> Result<(), Refusal>
    ensures ok { IfOk result (λ done. the_may_be_target (program_in bodies.now)
        (known_in bodies.now) (scope_seen scope.now) target.now.span is_variable
        (seen target.now.value) ≡ gives done) }
    ensures err { IfErr result (IsFault (the_may_be_target (program_in bodies.now)
        (known_in bodies.now) (scope_seen scope.now) target.now.span is_variable
        (seen target.now.value))) }
{
    check(TypeRule::BadTarget, target.span, is_variable)?;
    not_final(
        &bodies.calls.program,
        bodies.known.blank,
        scope,
        &target.value,
    )
}

/// `++` and `--` of a target, which is to be written as a variable, and whose old or new value they give.
#[tactic(auto, using(je_typing::proofs::Walks::walks, crate::proofs::Assigning::asking), unfolding(body_walks::specs::Known::known_seen))]
pub fn counted(
    bodies: &Bodies,
    scope: &Scope,
    op: BinOp,
    gives_old: bool,
    at: Span,
    span: Span,
    target: Part,
    is_variable: bool,
) -> Result<TypedExpr, Refusal>
    ensures ok { IfOk result (λ t. assigned_by (program_in bodies.now) (known_in bodies.now)
        (scope_seen scope.now) target.span is_variable (seen target.value)
        (the_stepped op gives_old at target.span span (seen target.value)) ≡ gives (seen t)) }
    ensures err { IfErr result (IsFault (assigned_by (program_in bodies.now)
        (known_in bodies.now) (scope_seen scope.now) target.span is_variable (seen target.value)
        (the_stepped op gives_old at target.span span (seen target.value)))) }
{
    let program = &bodies.calls.program;
    let alloc = program.source.alloc;
    let may_be_assigned = may_be_target(bodies, scope, &target, is_variable);
    let done = stepped(alloc, op, gives_old, at, target.span, span, target.value)?;
    may_be_assigned?;
    Ok(done)
}

// `=`
#[tactic(auto, using(je_typing::proofs::Walks::walks))]
fn assigned(
    bodies: &Bodies,
    scope: &Scope,
    at: Span,
    span: Span,
    target: Part,
    is_variable: bool,
    value: Part,
) -> Result<TypedExpr, Refusal>
    ensures ok { IfOk result (λ t. assigned_by (program_in bodies.now) (known_in bodies.now)
        (scope_seen scope.now) target.span is_variable (seen target.value) (the_assignment (program_in bodies.now).heads
        at target.span value.span span (seen target.value) (seen value.value)) ≡ gives (seen t)) }
    ensures err { IfErr result (IsFault (assigned_by (program_in bodies.now)
        (known_in bodies.now) (scope_seen scope.now) target.span is_variable (seen target.value) (the_assignment
        (program_in bodies.now).heads at target.span value.span span (seen target.value)
        (seen value.value)))) }
{
    let program = &bodies.calls.program;
    let may_be_assigned = may_be_target(bodies, scope, &target, is_variable);
    let done = assignment(
        program.source.alloc,
        program.heads,
        at,
        target.span,
        value.span,
        span,
        target.value,
        value.value,
    )?;
    may_be_assigned?;
    Ok(done)
}

// `+=` and its like.
#[tactic(auto, using(je_typing::proofs::Walks::walks))]
fn combined(
    bodies: &Bodies,
    scope: &Scope,
    op: BinaryOp,
    at: Span,
    span: Span,
    target: Part,
    is_variable: bool,
    value: TypedExpr,
) -> Result<TypedExpr, Refusal>
    ensures ok { IfOk result (λ t. assigned_by (program_in bodies.now) (known_in bodies.now)
        (scope_seen scope.now) target.span is_variable (seen target.value)
        (the_compound (program_in bodies.now).heads op at target.span span (seen target.value)
        (seen value)) ≡ gives (seen t)) }
    ensures err { IfErr result (IsFault (assigned_by (program_in bodies.now)
        (known_in bodies.now) (scope_seen scope.now) target.span is_variable (seen target.value)
        (the_compound (program_in bodies.now).heads op at target.span span (seen target.value) (seen value)))) }
{
    let program = &bodies.calls.program;
    let alloc = program.source.alloc;
    let may_be_assigned = may_be_target(bodies, scope, &target, is_variable);
    let done = compound(
        alloc,
        program.heads,
        op,
        at,
        target.span,
        span,
        target.value,
        value,
    )?;
    may_be_assigned?;
    Ok(done)
}

/// An assignment to what is to be written as a variable; an operator may stand before the `=`.
pub fn assigned_to(
    bodies: &Bodies,
    scope: &Scope,
    op: Option<BinaryOp>,
    at: Span,
    span: Span,
    target: Part,
    is_variable: bool,
    value: Part,
) -> Result<TypedExpr, Refusal>
    ensures ok { IfOk result (λ t. assigned_by (program_in bodies.now) (known_in bodies.now)
        (scope_seen scope.now) target.span is_variable (seen target.value) (assign_step (program_in bodies.now)
        (known_in bodies.now) (scope_seen scope.now) op at target.span value.span span
        (seen target.value) (seen value.value)) ≡ gives (seen t)) }
    ensures err { IfErr result (IsFault (assigned_by (program_in bodies.now)
        (known_in bodies.now) (scope_seen scope.now) target.span is_variable (seen target.value) (assign_step
        (program_in bodies.now) (known_in bodies.now) (scope_seen scope.now) op at target.span
        value.span span (seen target.value) (seen value.value)))) }
{
    match op {
        Some(op) => combined(
            bodies,
            scope,
            op,
            at,
            span,
            target,
            is_variable,
            value.value,
        ),
        None => assigned(bodies, scope, at, span, target, is_variable, value),
    }
}
