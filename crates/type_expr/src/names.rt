// Variables, by what they are for, names before a point, and objects round this one (JLS 6.5.2, 6.5.6, 15.8.4, 15.11).

ghost use Rattle.std.specs.Prelude.{◌≡◌, IfErr, IfOk, option_map};
ghost use Rattle.je_ast.specs.Types.{name_view};
ghost use Rattle.je_ast.specs.View.{node_view, view};
ghost use Rattle.je_typing.specs.Answers.{IsFault};
ghost use Rattle.je_typing.specs.Judged.{Judged, bind, gives};
ghost use Rattle.je_typing.specs.Typed.{TypedNode};
ghost use Rattle.name_typing.specs.Accesses.{super_field as the_super_field};
ghost use Rattle.body_typing.specs.Expressions.{before, named_before as the_named_before, one_more, outer as the_outer, selected as the_selected, simple as the_simple, taken_for};
ghost use Rattle.body_scopes.specs.View.{scope_seen};
ghost use Rattle.name_steps.specs.Qualifiers.{qualifier_seen};
ghost use Rattle.typed_nodes.specs.Seen.{seen};
ghost use Rattle.type_expr.specs.Seen.{purpose_seen};
ghost use Rattle.body_walks.specs.Walks.{known_in, program_in};

use crate::purpose::Purpose;
use body_scopes::Scope;
use body_walks::{Bodies, outer};
use je_ast::{Expr, Identifier, Name};
use je_base::Span;
use je_typing::Refusal;
use member_values::taken;
use name_steps::{
    Qualifier, assigned_name, assigned_select, name_before, select, select_before, simple_name,
    super_field, updated_name,
};
use typed_nodes::TypedExpr;

/// A simple name.
pub fn simple(
    bodies: &Bodies,
    scope: &Scope,
    purpose: Purpose,
    id: Identifier,
) -> Result<TypedExpr, Refusal>
    ensures ok { IfOk result (λ t. the_simple (program_in bodies.now) (known_in bodies.now)
        (scope_seen scope.now) (purpose_seen purpose.entry) id ≡ gives (seen t)) }
    ensures err { IfErr result (IsFault (the_simple (program_in bodies.now)
        (known_in bodies.now) (scope_seen scope.now) (purpose_seen purpose.entry) id)) }
{
    let program = &bodies.calls.program;
    match purpose {
        Purpose::Assigned => assigned_name(program, scope.place(), id),
        Purpose::Updated => updated_name(program, scope.place(), id),
        Purpose::Read | Purpose::Initial(_) => simple_name(program, scope.place(), id),
    }
}

/// A name behind a point.
pub fn selected(
    bodies: &Bodies,
    scope: &Scope,
    purpose: Purpose,
    id: Identifier,
    span: Span,
    on: Qualifier,
) -> Result<TypedExpr, Refusal>
    ensures ok { IfOk result (λ t. the_selected (program_in bodies.now) (known_in bodies.now)
        (scope_seen scope.now) (purpose_seen purpose.entry) id span (qualifier_seen on)
        ≡ gives (seen t)) }
    ensures err { IfErr result (IsFault (the_selected (program_in bodies.now)
        (known_in bodies.now) (scope_seen scope.now) (purpose_seen purpose.entry) id span
        (qualifier_seen on))) }
{
    let program = &bodies.calls.program;
    match purpose {
        Purpose::Assigned | Purpose::Updated => {
            assigned_select(program, scope.place(), id, span, on)
        }
        Purpose::Read | Purpose::Initial(_) => select(program, scope.place(), id, span, on),
    }
}

/// `super.x`; `word` is the span of `super`.
#[tactic(auto, using(je_typing::proofs::Walks::walks))]
pub fn super_selected(
    bodies: &Bodies,
    scope: &Scope,
    purpose: Purpose,
    word: Span,
    id: Identifier,
    span: Span,
) -> Result<TypedExpr, Refusal>
    ensures ok { IfOk result (λ t. bind (the_super_field (program_in bodies.now)
        (scope_seen scope.now).place word id span) (λ field. gives (taken_for
        (program_in bodies.now) (known_in bodies.now) (scope_seen scope.now)
        (purpose_seen purpose.entry) field)) ≡ gives (seen t)) }
    ensures err { IfErr result (IsFault (bind (the_super_field (program_in bodies.now)
        (scope_seen scope.now).place word id span) (λ field. gives (taken_for
        (program_in bodies.now) (known_in bodies.now) (scope_seen scope.now)
        (purpose_seen purpose.entry) field)))) }
{
    let program = &bodies.calls.program;
    let field = super_field(program, scope.place(), word, id, span)?;
    match purpose {
        Purpose::Assigned | Purpose::Updated => Ok(field),
        Purpose::Read | Purpose::Initial(_) => {
            Ok(taken(program.source.alloc, program.heads, field)?)
        }
    }
}

/// What names mean before a point; nothing where something else stands there.
#[cycle(names)]
#[tactic(auto, using(je_ast::proofs::Views::view_is))]
pub fn named_before(
    bodies: &Bodies,
    scope: &Scope,
    expr: &Expr,
) -> Result<Option<Qualifier>, Refusal>
    ensures ok { IfOk result (λ on. the_named_before (program_in bodies.now)
        (known_in bodies.now) (scope_seen scope.now) (view expr.now)
        ≡ option_map (λ q. gives (qualifier_seen q)) on) }
    ensures err { IfErr result (λ refusal. (other : Judged TypedNode) → IsFault
        (before (program_in bodies.now) (known_in bodies.now) (scope_seen scope.now)
        (the_named_before (program_in bodies.now) (known_in bodies.now) (scope_seen scope.now)
        (view expr.now)) other) refusal) }
{
    named_before_here(bodies, scope, expr)
}

#[cycle(names)]
fn named_before_here(
    bodies: &Bodies,
    scope: &Scope,
    expr: &Expr,
) -> Result<Option<Qualifier>, Refusal>
    ensures ok { IfOk result (λ on. the_named_before (program_in bodies.now)
        (known_in bodies.now) (scope_seen scope.now) (node_view expr.now)
        ≡ option_map (λ q. gives (qualifier_seen q)) on) }
    ensures err { IfErr result (λ refusal. (other : Judged TypedNode) → IsFault
        (before (program_in bodies.now) (known_in bodies.now) (scope_seen scope.now)
        (the_named_before (program_in bodies.now) (known_in bodies.now) (scope_seen scope.now)
        (node_view expr.now)) other) refusal) }
{
    match expr {
        Expr::Name { name } => {
            let on = name_before(&bodies.calls.program, scope.place(), *name)?;
            Ok(Some(on))
        }
        Expr::Select {
            object,
            field,
            span,
        } => selected_before(bodies, scope, object, *field, *span),
        _ => Ok(None),
    }
}

// One name more.
#[cycle(names)]
#[tactic(auto, using(crate::proofs::Before::further))]
fn selected_before(
    bodies: &Bodies,
    scope: &Scope,
    object: &Expr,
    id: Identifier,
    span: Span,
) -> Result<Option<Qualifier>, Refusal>
    ensures ok { IfOk result (λ on. one_more (program_in bodies.now) (known_in bodies.now)
        (scope_seen scope.now) id span (the_named_before (program_in bodies.now)
        (known_in bodies.now) (scope_seen scope.now) (view object.now))
        ≡ option_map (λ q. gives (qualifier_seen q)) on) }
    ensures err { IfErr result (λ refusal. (other : Judged TypedNode) → IsFault
        (before (program_in bodies.now) (known_in bodies.now) (scope_seen scope.now)
        (one_more (program_in bodies.now) (known_in bodies.now) (scope_seen scope.now) id span
        (the_named_before (program_in bodies.now) (known_in bodies.now) (scope_seen scope.now)
        (view object.now))) other) refusal) }
{
    match named_before(bodies, scope, object)? {
        Some(on) => {
            let on = select_before(&bodies.calls.program, scope.place(), id, span, on)?;
            Ok(Some(on))
        }
        None => Ok(None),
    }
}

/// `A.this`
pub fn outer_of(
    bodies: &Bodies,
    scope: &Scope,
    class: &Name,
    word: Span,
) -> Result<TypedExpr, Refusal>
    ensures ok { IfOk result (λ t. the_outer (program_in bodies.now) (known_in bodies.now)
        (scope_seen scope.now) (name_view class.now) word ≡ gives (seen t)) }
    ensures err { IfErr result (IsFault (the_outer (program_in bodies.now)
        (known_in bodies.now) (scope_seen scope.now) (name_view class.now) word)) }
{
    outer(&bodies.calls.program, scope.place(), class, word)
}
