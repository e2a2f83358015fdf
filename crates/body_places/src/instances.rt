// `this`, and the instances round it (JLS 8.1.3, 15.8.3, 15.8.4).

ghost use Rattle.std.specs.Prelude.{◌≡◌, IfOk, IfErr, map};
ghost use Rattle.je_core.specs.View.{view};
ghost use Rattle.je_typing.specs.Answers.{IsFault};
ghost use Rattle.je_typing.specs.Judged.{gives};
ghost use Rattle.name_typing.specs.Instances.{has_instance as the_has_instance, instance_node as the_instance_node, is_instance as the_is_instance, outer_this as the_outer_this, steps_from, steps_to as the_steps_to, this as the_this, this_node as the_this_node, ty_of_class as the_ty_of_class};
ghost use Rattle.name_typing.specs.Program.{frames};
ghost use Rattle.name_typing.specs.Variables.{class_of_frame};
ghost use Rattle.name_walk.specs.View.{context_view};
ghost use Rattle.typed_nodes.specs.Seen.{seen};
ghost use Rattle.body_places.specs.Places.{frame_seen, place_seen};
ghost use Rattle.body_places.specs.View.{program_seen};

use crate::place::{Frame, Place};
use crate::program::Program;
use crate::tables::outer_of;
use fit_parts::of;
use header_steps::own_type;
use je_base::{Memory, Span};
use je_core::{Base, ClassId, Expr, Mark, Ty, make_field, make_this};
use je_typing::{Refusal, TypeRule, check, need};
use name_walk::Context;
use typed_nodes::TypedExpr;

/// Whether there is a current object: neither in a static context nor in the arguments of an explicit constructor
/// call (JLS 8.8.7.1).
pub fn is_instance(context: Context) -> bool
    ensures { result ≡ the_is_instance (context_view context) }
{
    match context {
        Context::Instance => true,
        Context::ConstructorArguments | Context::Static => false,
    }
}

// The same of a class so many classes outwards, of which each body on the way has a current object.
fn has_outwards(frames: &[Frame], steps: usize) -> bool
    ensures { result ≡ the_has_instance steps (map frame_seen frames.now) }
{
    for (at, frame) in frames.iter().enumerate() {
        if !is_instance(frame.context) {
            return false;
        }
        if at == steps {
            return true;
        }
    }
    false
}

/// Whether there is a current object of the class so many classes outwards.
pub fn has_instance(place: Place, steps: usize) -> bool
    ensures { result ≡ the_has_instance steps (frames (place_seen place.entry)) }
{
    if !is_instance(place.here.context) {
        return false;
    }
    steps == 0 || has_outwards(place.round, steps - 1)
}

/// The class so many classes outwards.
pub fn class_outwards(place: Place, outwards: usize) -> ClassId
    ensures { result.0 ≡ class_of_frame (frames (place_seen place.entry)) outwards }
{
    if outwards == 0 {
        return place.here.class;
    }
    match place.round.get(outwards - 1) {
        Some(frame) => frame.class,
        None => ClassId(0),
    }
}

fn ty_of_class(class: ClassId) -> Ty
    ensures { result ≡ the_ty_of_class class.0 }
{
    of(Base::Class(class))
}

fn mark_of_class(class: ClassId, at: Span) -> Mark
    ensures { result ≡ record { ty = the_ty_of_class class.0; span = at; at = at } }
{
    Mark {
        ty: ty_of_class(class),
        span: at,
        at,
    }
}

/// The node of `this`.
pub fn this_node(place: Place, at: Span) -> Expr
    ensures { view result ≡ the_this_node (place_seen place.entry) at }
{
    make_this(mark_of_class(place.here.class, at))
}

/// The node of the instance of the class so many classes outwards, from that of `this` field by field.
pub fn instance_node(
    program: &Program,
    place: Place,
    steps: usize,
    at: Span,
) -> Result<Expr, Memory>
    ensures { IfOk result (λ e. view e ≡
        the_instance_node (program_seen program.now) (place_seen place.entry) steps at) }
{
    let mut object = this_node(place, at);
    let mut class = place.here.class;
    for step in 0..steps {
        let Some(frame) = place.round.get(step) else {
            return Ok(object);
        };
        let mark = mark_of_class(frame.class, at);
        let field = outer_of(program.outer, class);
        object = make_field(program.source.alloc, mark, object, class, field)?;
        class = frame.class;
    }
    Ok(object)
}

/// `this` (JLS 15.8.3), by the span of the word.
#[tactic(auto, unfolding(name_typing::specs::Instances::this), using(je_typing::proofs::Walks::walks))]
pub fn this(program: &Program, place: Place, word: Span) -> Result<TypedExpr, Refusal>
    ensures ok { IfOk result (λ t. the_this (program_seen program.now) (place_seen place.entry) word
        ≡ gives (seen t)) }
    ensures err { IfErr result (IsFault
        (the_this (program_seen program.now) (place_seen place.entry) word)) }
{
    check(
        TypeRule::StaticContext,
        word,
        is_instance(place.here.context),
    )?;
    let ty = own_type(program.source.alloc, program.heads, place.here.class)?;
    let node = this_node(place, word);
    Ok(TypedExpr { node, ty })
}

// The same behind the first of the bodies that a place stands in.
fn steps_round(class: ClassId, round: &[Frame]) -> Option<usize>
    ensures { result ≡ steps_from 1 class.0 (map frame_seen round.now) }
{
    for (at, frame) in round.iter().enumerate() {
        if frame.class.0 == class.0 {
            return Some(at + 1);
        }
    }
    None
}

// How many classes outwards a class stands.
fn steps_to(class: ClassId, place: Place) -> Option<usize>
    ensures { result ≡ the_steps_to class.0 (place_seen place.entry) }
{
    if place.here.class.0 == class.0 {
        return Some(0);
    }
    steps_round(class, place.round)
}

/// `Name.this` (JLS 15.8.4), by the class that is named, the span of its name and that of the word.
#[tactic(auto, unfolding(name_typing::specs::Instances::outer_this), using(je_typing::proofs::Walks::walks))]
pub fn outer_this(
    program: &Program,
    place: Place,
    class: ClassId,
    name: Span,
    word: Span,
) -> Result<TypedExpr, Refusal>
    ensures ok { IfOk result (λ t. the_outer_this (program_seen program.now)
        (place_seen place.entry) class.0 name word ≡ gives (seen t)) }
    ensures err { IfErr result (IsFault (the_outer_this (program_seen program.now)
        (place_seen place.entry) class.0 name word)) }
{
    let steps = need(TypeRule::UnknownName, name, steps_to(class, place))?;
    check(TypeRule::StaticContext, word, has_instance(place, steps))?;
    let ty = own_type(program.source.alloc, program.heads, class)?;
    let node = instance_node(program, place, steps, word)?;
    Ok(TypedExpr { node, ty })
}
