// New objects (JLS 15.9).

ghost use Rattle.std.specs.Prelude.{◌≡◌, IfErr, IfOk, map};
ghost use Rattle.call_typing.specs.Constructors.{constructor_for, default_place as the_default_place};
ghost use Rattle.call_typing.specs.Creations.{anonymous_creation as the_anonymous_creation, creation as the_creation, made_of as the_made_of, typed_new};
ghost use Rattle.header_typing.specs.Supers.{own_type as the_own_type};
ghost use Rattle.je_core.specs.View.{capture_view};
ghost use Rattle.je_typing.specs.Answers.{IsFault};
ghost use Rattle.je_typing.specs.Judged.{gives};
ghost use Rattle.name_types.specs.View.{shown};
ghost use Rattle.overloads.specs.View.{candidate_seen};
ghost use Rattle.typed_nodes.specs.Seen.{seen};
ghost use Rattle.body_places.specs.Places.{place_seen};
ghost use Rattle.body_places.specs.View.{program_seen};

use body_places::{Place, Program};
use call_steps::{
    Calls, CreationSpans, chosen_constructor, default_place, has_constructors, is_abstract,
    is_variable, made_of, new_object,
};
use enclosing_instances::has_enclosing;
use header_steps::own_type;
use je_base::{Memory, Span};
use je_core::{Capture, ClassId};
use je_typing::{Refusal, TypeRule, check};
use name_types::SrcTy;
use overloads::Candidate;
use typed_nodes::TypedExpr;

/// `new C(..)`; `captures` are what the new object gets from round its class.
#[tactic(auto, unfolding(call_typing::specs::Creations::creation), using(je_typing::proofs::Walks::walks))]
pub fn creation(
    calls: Calls,
    place: Place,
    ty: SrcTy,
    spans: CreationSpans,
    arguments: Vec<TypedExpr>,
    captures: Vec<Capture>,
) -> Result<TypedExpr, Refusal>
    ensures ok { IfOk result (λ t. the_creation (program_seen calls.entry.program)
        (place_seen place.entry) (shown ty) spans.word spans.name spans.whole
        (map seen arguments.items) (map capture_view captures.items) ≡ gives (seen t)) }
    ensures err { IfErr result (IsFault (the_creation (program_seen calls.entry.program)
        (place_seen place.entry) (shown ty) spans.word spans.name spans.whole
        (map seen arguments.items) (map capture_view captures.items))) }
{
    let program = &calls.program;
    let alloc = program.source.alloc;
    let may_be_named = has_constructors(program.heads, &ty);
    check(TypeRule::AbstractNew, spans.name, may_be_named)?;
    let method = chosen_constructor(calls, place, &ty, spans.name, &arguments)?;
    let is_whole = !is_abstract(program.heads, &ty);
    check(TypeRule::AbstractNew, spans.name, is_whole)?;
    let has_round = has_enclosing(program, &ty, place)?;
    check(TypeRule::NoEnclosing, spans.name, has_round)?;
    let whole = new_object(
        alloc,
        method.class,
        method.place,
        ty,
        spans,
        &method,
        arguments,
        captures,
    )?;
    Ok(whole)
}

// The constructor that one of an anonymous class calls.
#[tactic(auto, using(je_typing::proofs::Walks::walks))]
fn made_constructor(
    calls: Calls,
    place: Place,
    ty: &SrcTy,
    at: Span,
    arguments: &[TypedExpr],
) -> Result<Candidate, Refusal>
    ensures ok { IfOk result (λ m. constructor_for (program_seen calls.entry.program)
        (place_seen place.entry).here.class
        (the_made_of (program_seen calls.entry.program) (shown ty.now)) at (map seen arguments.now)
        ≡ gives (candidate_seen m)) }
    ensures err { IfErr result (IsFault (constructor_for (program_seen calls.entry.program)
        (place_seen place.entry).here.class
        (the_made_of (program_seen calls.entry.program) (shown ty.now)) at
        (map seen arguments.now))) }
{
    let made = made_of(calls.program.source.alloc, calls.program.heads, ty)?;
    let method = chosen_constructor(calls, place, &made, at, arguments)?;
    Ok(method)
}

// An object of an anonymous class, whose constructor stands behind what the class declares.
fn anonymous_object(
    program: &Program,
    class: ClassId,
    spans: CreationSpans,
    method: &Candidate,
    arguments: Vec<TypedExpr>,
    captures: Vec<Capture>,
) -> Result<TypedExpr, Memory>
    ensures { IfOk result (λ t. seen t ≡ typed_new class.0
        (the_default_place (program_seen program.now).classes class.0)
        (the_own_type (program_seen program.now).heads class.0) spans.word spans.name spans.whole
        (candidate_seen method.now) (map seen arguments.items)
        (map capture_view captures.items)) }
{
    let alloc = program.source.alloc;
    let own = own_type(alloc, program.heads, class)?;
    let at = default_place(program.classes, class);
    let whole = new_object(alloc, class, at, own, spans, method, arguments, captures)?;
    Ok(whole)
}

/// `new C(..) { .. }`: an object of the class of the body.
#[tactic(auto, unfolding(call_typing::specs::Creations::anonymous_creation), using(je_typing::proofs::Walks::walks))]
pub fn anonymous_creation(
    calls: Calls,
    place: Place,
    class: ClassId,
    ty: SrcTy,
    spans: CreationSpans,
    arguments: Vec<TypedExpr>,
    captures: Vec<Capture>,
) -> Result<TypedExpr, Refusal>
    ensures ok { IfOk result (λ t. the_anonymous_creation (program_seen calls.entry.program)
        (place_seen place.entry) class.0 (shown ty) spans.word spans.name spans.whole
        (map seen arguments.items) (map capture_view captures.items) ≡ gives (seen t)) }
    ensures err { IfErr result (IsFault (the_anonymous_creation (program_seen calls.entry.program)
        (place_seen place.entry) class.0 (shown ty) spans.word spans.name spans.whole
        (map seen arguments.items) (map capture_view captures.items))) }
{
    let program = &calls.program;
    check(TypeRule::AbstractNew, spans.name, !is_variable(&ty))?;
    let method = made_constructor(calls, place, &ty, spans.name, &arguments)?;
    let has_round = has_enclosing(program, &ty, place)?;
    check(TypeRule::NoEnclosing, spans.name, has_round)?;
    let whole = anonymous_object(program, class, spans, &method, arguments, captures)?;
    Ok(whole)
}
