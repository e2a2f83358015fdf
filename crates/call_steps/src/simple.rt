// `m(..)` (JLS 15.12.1): of the innermost class that has a method of the name.

ghost use Rattle.std.specs.Prelude.{◌≡◌, ◌||◌, IfErr, IfOk, map};
ghost use Rattle.call_typing.specs.Calls.{class_outwards as the_class_outwards, has_some, method_for, simple_call as the_simple_call, simple_form, steps_from, steps_to_method as the_steps_to_method, typed_call};
ghost use Rattle.call_typing.specs.Methods.{methods_of};
ghost use Rattle.class_heads.specs.View.{classes_of};
ghost use Rattle.header_typing.specs.Supers.{own_type as the_own_type};
ghost use Rattle.je_typing.specs.Answers.{IsFault};
ghost use Rattle.je_typing.specs.Judged.{gives, need as the_need};
ghost use Rattle.je_typing.specs.declared.fault.TypeRule.TheVariants.{NoMethod};
ghost use Rattle.call_steps.specs.TableView.{HasMethods};
ghost use Rattle.name_typing.specs.Instances.{has_instance as the_has_instance};
ghost use Rattle.name_typing.specs.Program.{frames};
ghost use Rattle.overloads.specs.View.{candidate_seen};
ghost use Rattle.source_subtypes.specs.View.{heads_of};
ghost use Rattle.typed_nodes.specs.Seen.{seen};
ghost use Rattle.name_steps.specs.Places.{frame_seen, place_seen, program_seen};
ghost use Rattle.call_steps.specs.way.Found.{any};

use crate::calling::method_of_class;
use crate::calls::Calls;
use crate::nodes::{call_on, exact_call};
use crate::seeking::class_candidates;
use je_ast::Identifier;
use je_base::{Memory, NameId, Span};
use je_core::ClassId;
use je_typing::{Refusal, TypeRule, check, need};
use name_steps::{Frame, Place, class_outwards, has_instance, instance_node};
use overloads::Candidate;
use source_subtypes::Arguments;
use typed_nodes::TypedExpr;

// Whether there are any candidates.
fn is_any(candidates: &[Candidate]) -> bool
    ensures { result ≡ any (map candidate_seen candidates.now) }
{
    match candidates {
        [_, ..] => true,
        [] => false,
    }
}

// Whether a class has a method of a name.
fn has_method(calls: Calls, name: NameId, class: ClassId) -> Result<bool, Memory>
    requires { HasMethods (heads_of calls.program.heads.now) (classes_of calls.program.classes)
        calls.methods.now }
    ensures { IfOk result (λ has. has ≡ has_some (methods_of
        (heads_of calls.entry.program.heads.now) (classes_of calls.entry.program.classes)
        name class.0)) }
{
    let arguments = Arguments { class, types: &[] };
    let methods = class_candidates(calls.program.source.alloc, calls.methods, name, arguments)?;
    Ok(is_any(&methods))
}

// How many classes outwards a class has a method of a name, of those behind the first.
fn steps_round(calls: Calls, name: NameId, round: &[Frame]) -> Result<Option<usize>, Memory>
    requires { HasMethods (heads_of calls.program.heads.now) (classes_of calls.program.classes)
        calls.methods.now }
    ensures { IfOk result (λ steps. steps ≡
        steps_from (program_seen calls.entry.program) name 1 (map frame_seen round.now)) }
{
    for (at, frame) in round.iter().enumerate() {
        if has_method(calls, name, frame.class)? {
            return Ok(Some(at + 1));
        }
    }
    Ok(None)
}

fn steps_to_method(calls: Calls, place: Place, name: NameId) -> Result<Option<usize>, Memory>
    requires { HasMethods (heads_of calls.program.heads.now) (classes_of calls.program.classes)
        calls.methods.now }
    ensures { IfOk result (λ steps. steps ≡
        the_steps_to_method (program_seen calls.entry.program) (place_seen place.entry) name) }
{
    if has_method(calls, name, place.here.class)? {
        return Ok(Some(0));
    }
    let steps = steps_round(calls, name, place.round)?;
    Ok(steps)
}

// The method of the class so many classes outwards.
fn method_outwards(
    calls: Calls,
    place: Place,
    steps: usize,
    id: Identifier,
    arguments: &[TypedExpr],
) -> Result<Candidate, Refusal>
    requires { HasMethods (heads_of calls.program.heads.now) (classes_of calls.program.classes)
        calls.methods.now }
    ensures ok { IfOk result (λ m. method_for (program_seen calls.entry.program)
        (place_seen place.entry) (the_own_type (heads_of calls.entry.program.heads.now)
        (the_class_outwards (place_seen place.entry) steps)) id (map seen arguments.now)
        ≡ gives (candidate_seen m)) }
    ensures err { IfErr result (IsFault (method_for (program_seen calls.entry.program)
        (place_seen place.entry) (the_own_type (heads_of calls.entry.program.heads.now)
        (the_class_outwards (place_seen place.entry) steps)) id (map seen arguments.now))) }
{
    let class = class_outwards(place, steps);
    method_of_class(calls, place, class, id, arguments)
}

// Whether a method may be called on the class so many classes outwards: a static one, or where there is an instance.
fn may_be_called(place: Place, steps: usize, method: &Candidate) -> bool
    ensures { result ≡ (candidate_seen method.now).flags.is_static
        || the_has_instance steps (frames (place_seen place.entry)) }
{
    method.flags.is_static || has_instance(place, steps)
}

// How many classes outwards, else the fault.
#[tactic(auto, using(je_typing::proofs::Walks::walks))]
fn needed_steps(calls: Calls, place: Place, id: Identifier) -> Result<usize, Refusal>
    requires { HasMethods (heads_of calls.program.heads.now) (classes_of calls.program.classes)
        calls.methods.now }
    ensures ok { IfOk result (λ n. the_need NoMethod id.span (the_steps_to_method
        (program_seen calls.entry.program) (place_seen place.entry) id.name) ≡ gives n) }
    ensures err { IfErr result (IsFault (the_need NoMethod id.span (the_steps_to_method
        (program_seen calls.entry.program) (place_seen place.entry) id.name))) }
{
    let steps = steps_to_method(calls, place, id.name)?;
    let steps = need(TypeRule::NoMethod, id.span, steps)?;
    Ok(steps)
}

// A call on the instance so many classes outwards; a static method has no receiver.
fn call_outwards(
    calls: Calls,
    place: Place,
    steps: usize,
    id: Identifier,
    span: Span,
    method: Candidate,
    arguments: Vec<TypedExpr>,
) -> Result<TypedExpr, Memory>
    ensures { IfOk result (λ t. seen t ≡ typed_call (program_seen calls.entry.program)
        (simple_form (program_seen calls.entry.program) (place_seen place.entry) steps id.span
        (candidate_seen method) (map seen arguments.items)) (candidate_seen method) id.span span) }
{
    let alloc = calls.program.source.alloc;
    let heads = calls.program.heads;
    if method.flags.is_static {
        return exact_call(alloc, heads, None, method, arguments, id.span, span);
    }
    let object = instance_node(&calls.program, place, steps, id.span)?;
    call_on(alloc, heads, object, method, arguments, id.span, span)
}

/// `m(..)`
#[tactic(auto, unfolding(call_typing::specs::Calls::simple_call), using(je_typing::proofs::Walks::walks))]
pub fn simple_call(
    calls: Calls,
    place: Place,
    id: Identifier,
    span: Span,
    arguments: Vec<TypedExpr>,
) -> Result<TypedExpr, Refusal>
    requires { HasMethods (heads_of calls.program.heads.now) (classes_of calls.program.classes)
        calls.methods.now }
    ensures ok { IfOk result (λ t. the_simple_call (program_seen calls.entry.program)
        (place_seen place.entry) id span (map seen arguments.items) ≡ gives (seen t)) }
    ensures err { IfErr result (IsFault (the_simple_call (program_seen calls.entry.program)
        (place_seen place.entry) id span (map seen arguments.items))) }
{
    let steps = needed_steps(calls, place, id)?;
    let method = method_outwards(calls, place, steps, id, &arguments)?;
    let may_be_called = may_be_called(place, steps, &method);
    check(TypeRule::StaticContext, id.span, may_be_called)?;
    let call = call_outwards(calls, place, steps, id, span, method, arguments)?;
    Ok(call)
}
