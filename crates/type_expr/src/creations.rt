// New objects, of arguments that are judged (JLS 15.9).

ghost use Rattle.std.specs.Prelude.{◌≡◌, IfErr, IfOk, map};
ghost use Rattle.je_ast.specs.Types.{type_view};
ghost use Rattle.call_typing.specs.Creations.{anonymous_creation as the_anonymous_creation, creation as the_creation};
ghost use Rattle.je_typing.specs.Answers.{IsFault};
ghost use Rattle.je_typing.specs.Judged.{gives};
ghost use Rattle.name_types.specs.View.{shown};
ghost use Rattle.body_typing.specs.Expressions.{anonymous_at, anonymous_type as the_anonymous_type, class_or_zero as the_class_or_zero, name_span as the_name_span};
ghost use Rattle.body_scopes.specs.View.{scope_seen};
ghost use Rattle.typed_nodes.specs.Seen.{seen};
ghost use Rattle.body_walks.specs.Walks.{known_in, program_in};

use body_scopes::Scope;
use body_walks::{Bodies, anonymous_type, captures_for};
use creation_steps::{CreationSpans, anonymous_creation, creation};
use header_steps::class_of;
use je_ast::TyName;
use je_base::Span;
use je_core::ClassId;
use je_typing::Refusal;
use name_types::SrcTy;
use typed_nodes::TypedExpr;

/// Where the name of a type is written; the whole type, where it is primitive.
#[tactic(auto, using(crate::proofs::Spans::name_spans))]
pub fn name_span(ty: &TyName) -> Span
    ensures { result ≡ the_name_span (type_view ty.now) }
{
    name_types::name_span(ty)
}

#[tactic(auto, using(crate::proofs::Types::classes))]
fn class_or_zero(ty: &SrcTy) -> ClassId
    ensures { result.0 ≡ the_class_or_zero (shown ty.now) }
{
    match class_of(ty) {
        Some(class) => class,
        None => ClassId(0),
    }
}

/// `new C(..)`
#[tactic(auto, using(je_typing::proofs::Walks::walks))]
pub fn created(
    bodies: &Bodies,
    scope: &Scope,
    ty: SrcTy,
    spans: CreationSpans,
    arguments: Vec<TypedExpr>,
) -> Result<TypedExpr, Refusal>
    ensures ok { IfOk result (λ t. the_creation (program_in bodies.now)
        (scope_seen scope.now).place (shown ty) spans.word spans.name spans.whole
        (map seen arguments.items) ((known_in bodies.now).captures (scope_seen scope.now).place
        (the_class_or_zero (shown ty))) ≡ gives (seen t)) }
    ensures err { IfErr result (IsFault (the_creation (program_in bodies.now)
        (scope_seen scope.now).place (shown ty) spans.word spans.name spans.whole
        (map seen arguments.items) ((known_in bodies.now).captures (scope_seen scope.now).place
        (the_class_or_zero (shown ty))))) }
{
    let program = &bodies.calls.program;
    let class = class_or_zero(&ty);
    let captures = captures_for(program, bodies.known, scope.place(), class)?;
    creation(bodies.calls, scope.place(), ty, spans, arguments, captures)
}

/// `new C(..) { .. }`, where the class of the body stands behind the word.
#[tactic(auto, using(je_typing::proofs::Walks::walks))]
pub fn created_with_body(
    bodies: &Bodies,
    scope: &Scope,
    ty: &TyName,
    spans: CreationSpans,
    arguments: Vec<TypedExpr>,
) -> Result<TypedExpr, Refusal>
    ensures ok { IfOk result (λ t. the_anonymous_creation (program_in bodies.now)
        (scope_seen scope.now).place (anonymous_at (program_in bodies.now) spans.word)
        (the_anonymous_type (program_in bodies.now) spans.word (type_view ty.now)) spans.word
        spans.name spans.whole (map seen arguments.items) ((known_in bodies.now).captures
        (scope_seen scope.now).place (anonymous_at (program_in bodies.now) spans.word))
        ≡ gives (seen t)) }
    ensures err { IfErr result (IsFault (the_anonymous_creation (program_in bodies.now)
        (scope_seen scope.now).place (anonymous_at (program_in bodies.now) spans.word)
        (the_anonymous_type (program_in bodies.now) spans.word (type_view ty.now)) spans.word
        spans.name spans.whole (map seen arguments.items) ((known_in bodies.now).captures
        (scope_seen scope.now).place (anonymous_at (program_in bodies.now) spans.word)))) }
{
    let program = &bodies.calls.program;
    let class = bodies.spots.anonymous(program.source.sites, spans.word);
    let made = anonymous_type(program, class, ty)?;
    let captures = captures_for(program, bodies.known, scope.place(), class)?;
    anonymous_creation(
        bodies.calls,
        scope.place(),
        class,
        made,
        spans,
        arguments,
        captures,
    )
}
