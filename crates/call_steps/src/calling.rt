// Calls on a value, of a class, and by `super` (JLS 15.12).

ghost use Rattle.std.specs.Prelude.{◌≡◌, IfErr, IfOk, map};
ghost use Rattle.call_typing.specs.Calls.{call_on as the_call_on, call_on_class as the_call_on_class, call_on_value as the_call_on_value, method_for, receiver as the_receiver, super_call as the_super_call};
ghost use Rattle.class_heads.specs.View.{classes_of};
ghost use Rattle.header_typing.specs.Supers.{own_type as the_own_type};
ghost use Rattle.je_typing.specs.Answers.{IsFault};
ghost use Rattle.je_typing.specs.Judged.{gives};
ghost use Rattle.call_steps.specs.TableView.{HasMethods};
ghost use Rattle.name_typing.specs.Accesses.{superclass_of as the_superclass_of};
ghost use Rattle.overloads.specs.View.{candidate_seen};
ghost use Rattle.source_subtypes.specs.View.{heads_of};
ghost use Rattle.typed_nodes.specs.Seen.{seen};
ghost use Rattle.name_steps.specs.Places.{place_seen, program_seen};
ghost use Rattle.name_steps.specs.Qualifiers.{qualifier_seen};
ghost use Rattle.call_steps.specs.Receivers.{receiver_seen};

use crate::calls::{Calls, chosen_method};
use crate::nodes::{call_on as called_on, exact_call};
use header_steps::own_type;
use je_ast::Identifier;
use je_base::Span;
use je_core::ClassId;
use je_typing::{Refusal, TypeFault, TypeRule, check};
use member_values::{has_members, superclass_of};
use name_steps::{Place, Qualifier, is_instance, this_node};
use overloads::Candidate;
use typed_nodes::TypedExpr;

/// What stands before the point of a call.
#[derive(Drop)]
pub enum Receiver {
    Value(TypedExpr),
    Class(ClassId),
}

/// What stands before the point of a call; a name without meaning is a fault (JLS 6.5).
#[tactic(auto, unfolding(call_typing::specs::Calls::receiver), using(je_typing::proofs::Walks::walks))]
pub fn receiver_of(qualifier: Qualifier) -> Result<Receiver, Refusal>
    ensures ok { IfOk result (λ r. the_receiver (qualifier_seen qualifier)
        ≡ gives (receiver_seen r)) }
    ensures err { IfErr result (IsFault (the_receiver (qualifier_seen qualifier))) }
{
    match qualifier {
        Qualifier::Value(value) => Ok(Receiver::Value(value)),
        Qualifier::Class(class) => Ok(Receiver::Class(class)),
        Qualifier::Beginning { first, .. } => Err(Refusal::Fault(TypeFault {
            rule: TypeRule::UnknownName,
            span: first.span,
        })),
    }
}

/// The method of a class that a name and arguments choose at a place.
#[tactic(auto, using(je_typing::proofs::Walks::walks))]
pub fn method_of_class(
    calls: Calls,
    place: Place,
    class: ClassId,
    id: Identifier,
    arguments: &[TypedExpr],
) -> Result<Candidate, Refusal>
    requires { HasMethods (heads_of calls.program.heads.now) (classes_of calls.program.classes)
        calls.methods.now }
    ensures ok { IfOk result (λ m. method_for (program_seen calls.entry.program)
        (place_seen place.entry) (the_own_type (heads_of calls.entry.program.heads.now) class.0) id
        (map seen arguments.now) ≡ gives (candidate_seen m)) }
    ensures err { IfErr result (IsFault (method_for (program_seen calls.entry.program)
        (place_seen place.entry) (the_own_type (heads_of calls.entry.program.heads.now) class.0) id
        (map seen arguments.now))) }
{
    let ty = own_type(calls.program.source.alloc, calls.program.heads, class)?;
    let method = chosen_method(calls, place, &ty, id, arguments)?;
    Ok(method)
}

// The method of the superclass of the class at a place.
#[tactic(auto, using(je_typing::proofs::Walks::walks))]
fn method_of_superclass(
    calls: Calls,
    place: Place,
    id: Identifier,
    arguments: &[TypedExpr],
) -> Result<Candidate, Refusal>
    requires { HasMethods (heads_of calls.program.heads.now) (classes_of calls.program.classes)
        calls.methods.now }
    ensures ok { IfOk result (λ m. method_for (program_seen calls.entry.program)
        (place_seen place.entry) (the_superclass_of (heads_of calls.entry.program.heads.now)
        (place_seen place.entry).here.class) id (map seen arguments.now)
        ≡ gives (candidate_seen m)) }
    ensures err { IfErr result (IsFault (method_for (program_seen calls.entry.program)
        (place_seen place.entry) (the_superclass_of (heads_of calls.entry.program.heads.now)
        (place_seen place.entry).here.class) id (map seen arguments.now))) }
{
    let heads = calls.program.heads;
    let ty = superclass_of(calls.program.source.alloc, heads, place.here.class)?;
    let method = chosen_method(calls, place, &ty, id, arguments)?;
    Ok(method)
}

// `e.m(..)`
#[tactic(auto, unfolding(call_typing::specs::Calls::call_on_value), using(je_typing::proofs::Walks::walks))]
fn call_on_value(
    calls: Calls,
    place: Place,
    id: Identifier,
    span: Span,
    arguments: Vec<TypedExpr>,
    on: TypedExpr,
) -> Result<TypedExpr, Refusal>
    requires { HasMethods (heads_of calls.program.heads.now) (classes_of calls.program.classes)
        calls.methods.now }
    ensures ok { IfOk result (λ t. the_call_on_value (program_seen calls.entry.program)
        (place_seen place.entry) id span (map seen arguments.items) (seen on) ≡ gives (seen t)) }
    ensures err { IfErr result (IsFault (the_call_on_value (program_seen calls.entry.program)
        (place_seen place.entry) id span (map seen arguments.items) (seen on))) }
{
    let alloc = calls.program.source.alloc;
    check(TypeRule::BadOperand, id.span, has_members(&on.ty))?;
    let method = chosen_method(calls, place, &on.ty, id, &arguments)?;
    let TypedExpr { node, .. } = on;
    let call = called_on(
        alloc,
        calls.program.heads,
        node,
        method,
        arguments,
        id.span,
        span,
    )?;
    Ok(call)
}

// `C.m(..)`
#[tactic(auto, unfolding(call_typing::specs::Calls::call_on_class), using(je_typing::proofs::Walks::walks))]
fn call_on_class(
    calls: Calls,
    place: Place,
    id: Identifier,
    span: Span,
    arguments: Vec<TypedExpr>,
    class: ClassId,
) -> Result<TypedExpr, Refusal>
    requires { HasMethods (heads_of calls.program.heads.now) (classes_of calls.program.classes)
        calls.methods.now }
    ensures ok { IfOk result (λ t. the_call_on_class (program_seen calls.entry.program)
        (place_seen place.entry) id span (map seen arguments.items) class.0 ≡ gives (seen t)) }
    ensures err { IfErr result (IsFault (the_call_on_class (program_seen calls.entry.program)
        (place_seen place.entry) id span (map seen arguments.items) class.0)) }
{
    let alloc = calls.program.source.alloc;
    let heads = calls.program.heads;
    let method = method_of_class(calls, place, class, id, &arguments)?;
    check(TypeRule::StaticContext, id.span, method.flags.is_static)?;
    let call = exact_call(alloc, heads, None, method, arguments, id.span, span)?;
    Ok(call)
}

/// A call on a value, or of a class.
#[tactic(auto, unfolding(call_typing::specs::Calls::call_on))]
pub fn call_on(
    calls: Calls,
    place: Place,
    id: Identifier,
    span: Span,
    arguments: Vec<TypedExpr>,
    receiver: Receiver,
) -> Result<TypedExpr, Refusal>
    requires { HasMethods (heads_of calls.program.heads.now) (classes_of calls.program.classes)
        calls.methods.now }
    ensures ok { IfOk result (λ t. the_call_on (program_seen calls.entry.program)
        (place_seen place.entry) id span (map seen arguments.items) (receiver_seen receiver)
        ≡ gives (seen t)) }
    ensures err { IfErr result (IsFault (the_call_on (program_seen calls.entry.program)
        (place_seen place.entry) id span (map seen arguments.items) (receiver_seen receiver))) }
{
    match receiver {
        Receiver::Value(on) => call_on_value(calls, place, id, span, arguments, on),
        Receiver::Class(class) => call_on_class(calls, place, id, span, arguments, class),
    }
}

/// `super.m(..)`: the method of the superclass itself; `word` is the span of `super`.
#[tactic(auto, unfolding(call_typing::specs::Calls::super_call), using(je_typing::proofs::Walks::walks))]
pub fn super_call(
    calls: Calls,
    place: Place,
    word: Span,
    id: Identifier,
    span: Span,
    arguments: Vec<TypedExpr>,
) -> Result<TypedExpr, Refusal>
    requires { HasMethods (heads_of calls.program.heads.now) (classes_of calls.program.classes)
        calls.methods.now }
    ensures ok { IfOk result (λ t. the_super_call (program_seen calls.entry.program)
        (place_seen place.entry) word id span (map seen arguments.items) ≡ gives (seen t)) }
    ensures err { IfErr result (IsFault (the_super_call (program_seen calls.entry.program)
        (place_seen place.entry) word id span (map seen arguments.items))) }
{
    let alloc = calls.program.source.alloc;
    let heads = calls.program.heads;
    let method = method_of_superclass(calls, place, id, &arguments)?;
    check(
        TypeRule::StaticContext,
        word,
        is_instance(place.here.context),
    )?;
    check(TypeRule::BadSuperCall, id.span, !method.is_abstract)?;
    let object = this_node(place, id.span);
    let call = exact_call(alloc, heads, Some(object), method, arguments, id.span, span)?;
    Ok(call)
}
