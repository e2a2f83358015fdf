// Calls of another constructor at the head of one (JLS 8.8.7.1, 8.8.9).

ghost use Rattle.std.specs.Prelude.{◌≡◌, IfErr, IfOk, map};
ghost use Rattle.call_typing.specs.Constructors.{constructor_for};
ghost use Rattle.call_typing.specs.Creations.{has_enclosing, implicit_constructor_call as the_implicit_constructor_call, own_constructor_call as the_own_constructor_call, superclass_constructor_call as the_superclass_constructor_call};
ghost use Rattle.header_typing.specs.Supers.{own_type as the_own_type};
ghost use Rattle.je_typing.specs.Answers.{IsFault};
ghost use Rattle.je_typing.specs.Judged.{gives};
ghost use Rattle.name_typing.specs.Accesses.{superclass_of as the_superclass_of};
ghost use Rattle.overloads.specs.View.{candidate_seen};
ghost use Rattle.source_subtypes.specs.View.{heads_of};
ghost use Rattle.typed_nodes.specs.Seen.{seen};
ghost use Rattle.body_places.specs.Places.{place_seen};
ghost use Rattle.body_places.specs.View.{program_seen};

use body_places::{Place, this_node};
use call_steps::{Calls, chosen_constructor, head_call};
use enclosing_instances::has_enclosing_round;
use header_steps::own_type;
use je_base::{Memory, Span};
use je_typing::{Refusal, TypeRule, check};
use member_values::superclass_of;
use overloads::Candidate;
use typed_nodes::TypedExpr;

// The constructor of the class at a place that arguments choose.
#[tactic(auto, using(je_typing::proofs::Walks::walks))]
fn own_constructor(
    calls: Calls,
    place: Place,
    at: Span,
    arguments: &[TypedExpr],
) -> Result<Candidate, Refusal>
    ensures ok { IfOk result (λ m. constructor_for (program_seen calls.entry.program)
        (place_seen place.entry).here.class (the_own_type (heads_of calls.entry.program.heads.now)
        (place_seen place.entry).here.class) at (map seen arguments.now)
        ≡ gives (candidate_seen m)) }
    ensures err { IfErr result (IsFault (constructor_for (program_seen calls.entry.program)
        (place_seen place.entry).here.class (the_own_type (heads_of calls.entry.program.heads.now)
        (place_seen place.entry).here.class) at (map seen arguments.now))) }
{
    let ty = own_type(
        calls.program.source.alloc,
        calls.program.heads,
        place.here.class,
    )?;
    let method = chosen_constructor(calls, place, &ty, at, arguments)?;
    Ok(method)
}

// The same of its superclass.
#[tactic(auto, using(je_typing::proofs::Walks::walks))]
fn superclass_constructor(
    calls: Calls,
    place: Place,
    at: Span,
    arguments: &[TypedExpr],
) -> Result<Candidate, Refusal>
    ensures ok { IfOk result (λ m. constructor_for (program_seen calls.entry.program)
        (place_seen place.entry).here.class (the_superclass_of
        (heads_of calls.entry.program.heads.now) (place_seen place.entry).here.class) at
        (map seen arguments.now) ≡ gives (candidate_seen m)) }
    ensures err { IfErr result (IsFault (constructor_for (program_seen calls.entry.program)
        (place_seen place.entry).here.class (the_superclass_of
        (heads_of calls.entry.program.heads.now) (place_seen place.entry).here.class) at
        (map seen arguments.now))) }
{
    let heads = calls.program.heads;
    let ty = superclass_of(calls.program.source.alloc, heads, place.here.class)?;
    let method = chosen_constructor(calls, place, &ty, at, arguments)?;
    Ok(method)
}

// Whether there is the instance round the part that the superclass is.
fn superclass_has_enclosing(calls: Calls, place: Place) -> Result<bool, Memory>
    ensures { IfOk result (λ has. has ≡ has_enclosing (program_seen calls.entry.program)
        (the_superclass_of (heads_of calls.entry.program.heads.now)
        (place_seen place.entry).here.class) (place_seen place.entry).round) }
{
    let heads = calls.program.heads;
    let ty = superclass_of(calls.program.source.alloc, heads, place.here.class)?;
    let has_round = has_enclosing_round(&calls.program, &ty, place)?;
    Ok(has_round)
}

/// `this(..)`
#[tactic(auto, unfolding(call_typing::specs::Creations::own_constructor_call), using(je_typing::proofs::Walks::walks))]
pub fn own_constructor_call(
    calls: Calls,
    place: Place,
    word: Span,
    span: Span,
    arguments: Vec<TypedExpr>,
) -> Result<TypedExpr, Refusal>
    ensures ok { IfOk result (λ t. the_own_constructor_call (program_seen calls.entry.program)
        (place_seen place.entry) word span (map seen arguments.items) ≡ gives (seen t)) }
    ensures err { IfErr result (IsFault (the_own_constructor_call
        (program_seen calls.entry.program) (place_seen place.entry) word span
        (map seen arguments.items))) }
{
    let alloc = calls.program.source.alloc;
    let method = own_constructor(calls, place, word, &arguments)?;
    let object = this_node(place, word);
    let call = head_call(alloc, object, &method, arguments, span, word)?;
    Ok(call)
}

/// `super(..)`: the instance round the part that the superclass is comes from the bodies round the class.
#[tactic(auto, unfolding(call_typing::specs::Creations::superclass_constructor_call), using(je_typing::proofs::Walks::walks))]
pub fn superclass_constructor_call(
    calls: Calls,
    place: Place,
    word: Span,
    span: Span,
    arguments: Vec<TypedExpr>,
) -> Result<TypedExpr, Refusal>
    ensures ok { IfOk result (λ t. the_superclass_constructor_call
        (program_seen calls.entry.program) (place_seen place.entry) word span
        (map seen arguments.items) ≡ gives (seen t)) }
    ensures err { IfErr result (IsFault (the_superclass_constructor_call
        (program_seen calls.entry.program) (place_seen place.entry) word span
        (map seen arguments.items))) }
{
    let alloc = calls.program.source.alloc;
    let method = superclass_constructor(calls, place, word, &arguments)?;
    let has_round = superclass_has_enclosing(calls, place)?;
    check(TypeRule::NoEnclosing, word, has_round)?;
    let object = this_node(place, word);
    let call = head_call(alloc, object, &method, arguments, span, word)?;
    Ok(call)
}

/// `super()`, where no such call is written, with the span of the class.
#[tactic(auto, unfolding(call_typing::specs::Creations::implicit_constructor_call))]
pub fn implicit_constructor_call(
    calls: Calls,
    place: Place,
    class_span: Span,
) -> Result<TypedExpr, Refusal>
    ensures ok { IfOk result (λ t. the_implicit_constructor_call
        (program_seen calls.entry.program) (place_seen place.entry) class_span ≡ gives (seen t)) }
    ensures err { IfErr result (IsFault (the_implicit_constructor_call
        (program_seen calls.entry.program) (place_seen place.entry) class_span)) }
{
    let none = Vec::new(calls.program.source.alloc);
    superclass_constructor_call(calls, place, class_span, class_span, none)
}
