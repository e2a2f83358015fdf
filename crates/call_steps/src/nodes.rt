// The nodes of calls and creations (JLS 15.9.4, 15.12.3).

ghost use Rattle.std.specs.Prelude.{◌≡◌, IfErr, IfOk, map, option_map};
ghost use Rattle.call_typing.specs.Calls.{exactly, form_on, is_exact as the_is_exact, used as the_used, virtually};
ghost use Rattle.call_typing.specs.Creations.{typed_new};
ghost use Rattle.je_core.specs.Core.{a_core, maybe_core};
ghost use Rattle.je_core.specs.Making.{Makes};
ghost use Rattle.je_core.specs.View.{capture_view, view};
ghost use Rattle.je_core.specs.declared.types.Base.TheVariants as base;
ghost use Rattle.je_typing.specs.Answers.{IsFault};
ghost use Rattle.je_typing.specs.Judged.{gives};
ghost use Rattle.je_typing.specs.Typed.{typed_as};
ghost use Rattle.je_scopes.specs.SourceTypes.{plain};
ghost use Rattle.name_types.specs.View.{shown};
ghost use Rattle.name_typing.specs.Variables.{taken as the_taken};
ghost use Rattle.overloads.specs.View.{candidate_seen};
ghost use Rattle.source_subtypes.specs.View.{heads_of};
ghost use Rattle.source_types.specs.Erasure.{erased as the_erased};
ghost use Rattle.typed_nodes.specs.Seen.{seen};
ghost use Rattle.call_steps.specs.Called.{called};

use crate::arguments::passed;
use class_methods::unbounded;
use fit_parts::of;
use folded_nodes::mark_of;
use je_base::{Memory, Span};
use je_core::{
    Base, Capture, ClassId, Expr, Mark, Ty, make_call_exact, make_call_virtual, make_new,
};
use je_typing::{Refusal, TypeRule, check};
use member_values::taken;
use name_types::SrcTy;
use overloads::{Candidate, is_private};
use source_subtypes::{ClassHeads, erased};
use std::alloc::Global;
use typed_nodes::{TypedExpr, is_void};

/// A call that is used as a value, which one of a `void` method isn't (JLS 14.8, 15.12.3).
#[tactic(auto, unfolding(call_typing::specs::Calls::used), using(je_typing::proofs::Walks::walks, je_core::proofs::Views::view_is))]
pub fn used(call: TypedExpr) -> Result<TypedExpr, Refusal>
    ensures ok { IfOk result (λ t. the_used (seen call) ≡ gives (seen t)) }
    ensures err { IfErr result (IsFault (the_used (seen call))) }
{
    check(TypeRule::VoidValue, call.node.span, !is_void(&call.ty))?;
    Ok(call)
}

// The place of a method in its class. No memory holds a class with as many methods as a place can't name.
fn numbered(place: usize) -> Result<u32, Memory>
    ensures { IfOk result (λ n. n ≡ place) }
{
    match u32::try_from(place) {
        Ok(number) => Ok(number),
        Err(_) => Err(Memory),
    }
}

// The node of a call of a method itself.
fn exact_node(
    alloc: Global,
    mark: Mark,
    receiver: Option<Expr>,
    method: &Candidate,
    arguments: Vec<TypedExpr>,
) -> Result<Expr, Memory>
    ensures { Makes result mark (exactly (maybe_core (option_map view receiver))
        (candidate_seen method.now) (map seen arguments.items)) }
{
    let place = numbered(method.place)?;
    let values = passed(alloc, &method.parameters, arguments)?;
    let node = make_call_exact(alloc, mark, receiver, method.class, place, values)?;
    Ok(node)
}

// The node of a call of the method that an object has for another one.
fn virtual_node(
    alloc: Global,
    mark: Mark,
    receiver: Expr,
    method: &Candidate,
    arguments: Vec<TypedExpr>,
) -> Result<Expr, Memory>
    ensures { Makes result mark (virtually (view receiver)
        (candidate_seen method.now) (map seen arguments.items)) }
{
    let place = numbered(method.place)?;
    let values = passed(alloc, &method.parameters, arguments)?;
    let node = make_call_virtual(alloc, mark, receiver, method.class, place, values)?;
    Ok(node)
}

// Whether a call is of the named method itself: a static one has no object, and a private one is not overridden.
fn is_exact(method: &Candidate) -> bool
    ensures { result ≡ the_is_exact (candidate_seen method.now) }
{
    method.flags.is_static || is_private(method.flags.access)
}

// The node of a call on an object, which is evaluated for a static method too.
fn node_on(
    alloc: Global,
    mark: Mark,
    receiver: Expr,
    method: &Candidate,
    arguments: Vec<TypedExpr>,
) -> Result<Expr, Memory>
    ensures { Makes result mark (form_on (view receiver)
        (candidate_seen method.now) (map seen arguments.items)) }
{
    if is_exact(method) {
        return exact_node(alloc, mark, Some(receiver), method, arguments);
    }
    virtual_node(alloc, mark, receiver, method, arguments)
}

fn call_mark(heads: &ClassHeads, method: &Candidate, at: Span, span: Span) -> Mark
    ensures { result ≡ record {
      ty = the_erased (heads_of heads.now)
          (candidate_seen method.now).declared;
      span = span;
      at = at;
    } }
{
    Mark {
        ty: erased(heads, &method.declared),
        span,
        at,
    }
}

// A call of a method, as a value of its result.
fn typed_call(
    alloc: Global,
    heads: &ClassHeads,
    node: Expr,
    method: Candidate,
) -> Result<TypedExpr, Memory>
    ensures { IfOk result (λ t. seen t ≡ the_taken (heads_of heads.now)
        (record { node = view node; type = (candidate_seen method).result })) }
{
    let ty = method.result;
    taken(alloc, heads, TypedExpr { node, ty })
}

/// A call of a chosen method itself, with an object or without; `at` is its name.
pub fn exact_call(
    alloc: Global,
    heads: &ClassHeads,
    receiver: Option<Expr>,
    method: Candidate,
    arguments: Vec<TypedExpr>,
    at: Span,
    span: Span,
) -> Result<TypedExpr, Memory>
    ensures { IfOk result (λ t. seen t ≡ called (heads_of heads.now) (exactly
        (maybe_core (option_map view receiver)) (candidate_seen method) (map seen arguments.items))
        (candidate_seen method) at span) }
{
    let mark = call_mark(heads, &method, at, span);
    let node = exact_node(alloc, mark, receiver, &method, arguments)?;
    let call = typed_call(alloc, heads, node, method)?;
    Ok(call)
}

/// A call of a chosen method on an object; `at` is its name.
pub fn call_on(
    alloc: Global,
    heads: &ClassHeads,
    receiver: Expr,
    method: Candidate,
    arguments: Vec<TypedExpr>,
    at: Span,
    span: Span,
) -> Result<TypedExpr, Memory>
    ensures { IfOk result (λ t. seen t ≡ called (heads_of heads.now) (form_on (view receiver)
        (candidate_seen method) (map seen arguments.items)) (candidate_seen method) at span) }
{
    let mark = call_mark(heads, &method, at, span);
    let node = node_on(alloc, mark, receiver, &method, arguments)?;
    let call = typed_call(alloc, heads, node, method)?;
    Ok(call)
}

fn void() -> SrcTy
    ensures { shown result ≡ plain base.Void 0 }
{
    unbounded(Ty {
        base: Base::Void,
        dims: 0,
    })
}

/// A call of a constructor at the head of another one, on the object that is made; `word` is `this` or `super`.
pub fn head_call(
    alloc: Global,
    object: Expr,
    method: &Candidate,
    arguments: Vec<TypedExpr>,
    span: Span,
    word: Span,
) -> Result<TypedExpr, Memory>
    ensures { IfOk result (λ t. seen t ≡ typed_as base.Void (exactly (a_core (view object))
        (candidate_seen method.now) (map seen arguments.items)) span word) }
{
    let mark = mark_of(Base::Void, word, span);
    let node = exact_node(alloc, mark, Some(object), method, arguments)?;
    Ok(TypedExpr { node, ty: void() })
}

/// The spans of a creation: of the word `new`, of the name behind it, and of the whole.
#[derive(Clone, Copy, PartialEq, Eq)]
pub struct CreationSpans {
    pub word: Span,
    pub name: Span,
    pub whole: Span,
}

/// A new object of a class, by its constructor at a place; `method` has the types of the parameters.
pub fn new_object(
    alloc: Global,
    class: ClassId,
    place: usize,
    ty: SrcTy,
    spans: CreationSpans,
    method: &Candidate,
    arguments: Vec<TypedExpr>,
    captures: Vec<Capture>,
) -> Result<TypedExpr, Memory>
    ensures { IfOk result (λ t. seen t ≡ typed_new class.0 place (shown ty) spans.word spans.name
        spans.whole (candidate_seen method.now) (map seen arguments.items)
        (map capture_view captures.items)) }
{
    let number = numbered(place)?;
    let values = passed(alloc, &method.parameters, arguments)?;
    let mark = Mark {
        ty: of(Base::Class(class)),
        span: spans.whole,
        at: spans.name,
    };
    let node = make_new(mark, class, number, values, captures, spans.word);
    Ok(TypedExpr { node, ty })
}
