// The last name behind a point (JLS 6.5.6.2): what is assigned, and what is read.

ghost use Rattle.std.specs.Prelude.{◌≡◌, IfOk, IfErr};
ghost use Rattle.je_typing.specs.Answers.{IsFault};
ghost use Rattle.je_typing.specs.Judged.{gives};
ghost use Rattle.name_typing.specs.Qualified.{a_class, a_value, assigned_select as the_assigned_select, select as the_select};
ghost use Rattle.typed_nodes.specs.Seen.{seen};
ghost use Rattle.body_places.specs.Places.{place_seen};
ghost use Rattle.body_places.specs.View.{program_seen};
ghost use Rattle.name_steps.specs.Qualifiers.{qualifier_seen};

use crate::accesses::{member_of_value, static_field, static_value};
use crate::before::found_in;
use crate::qualifier::Qualifier;
use body_places::{Place, Program};
use je_ast::Identifier;
use je_base::Span;
use je_core::ClassId;
use je_typing::{Refusal, TypeFault, TypeRule};
use member_values::taken;
use typed_nodes::TypedExpr;

#[tactic(auto, unfolding(name_typing::specs::Qualified::assigned_select), using(je_typing::proofs::Walks::walks))]
fn assigned_in_class(
    program: &Program,
    place: Place,
    class: ClassId,
    id: Identifier,
    span: Span,
) -> Result<TypedExpr, Refusal>
    ensures ok { IfOk result (λ t. the_assigned_select (program_seen program.now)
        (place_seen place.entry) id span (a_class class.0) ≡ gives (seen t)) }
    ensures err { IfErr result (IsFault (the_assigned_select (program_seen program.now)
        (place_seen place.entry) id span (a_class class.0))) }
{
    let found = found_in(program, class, id)?;
    static_field(program, place, id, span, found)
}

/// A field behind a point that is assigned; `span` is that of the whole.
#[tactic(auto, unfolding(name_typing::specs::Qualified::assigned_select), using(je_typing::proofs::Walks::walks))]
pub fn assigned_select(
    program: &Program,
    place: Place,
    id: Identifier,
    span: Span,
    qualifier: Qualifier,
) -> Result<TypedExpr, Refusal>
    ensures ok { IfOk result (λ t. the_assigned_select (program_seen program.now)
        (place_seen place.entry) id span (qualifier_seen qualifier) ≡ gives (seen t)) }
    ensures err { IfErr result (IsFault (the_assigned_select (program_seen program.now)
        (place_seen place.entry) id span (qualifier_seen qualifier))) }
{
    match qualifier {
        Qualifier::Value(on) => member_of_value(program, place, id, span, on),
        Qualifier::Class(class) => assigned_in_class(program, place, class, id, span),
        Qualifier::Beginning { first, .. } => Err(Refusal::Fault(TypeFault {
            rule: TypeRule::UnknownName,
            span: first.span,
        })),
    }
}

#[tactic(auto, unfolding(name_typing::specs::Qualified::select, name_typing::specs::Qualified::assigned_select), using(je_typing::proofs::Walks::walks))]
fn read_in_class(
    program: &Program,
    place: Place,
    class: ClassId,
    id: Identifier,
    span: Span,
) -> Result<TypedExpr, Refusal>
    ensures ok { IfOk result (λ t. the_select (program_seen program.now) (place_seen place.entry)
        id span (a_class class.0) ≡ gives (seen t)) }
    ensures err { IfErr result (IsFault (the_select (program_seen program.now)
        (place_seen place.entry) id span (a_class class.0))) }
{
    let found = found_in(program, class, id)?;
    let field = static_field(program, place, id, span, found)?;
    Ok(static_value(program, id, found, field)?)
}

#[tactic(auto, unfolding(name_typing::specs::Qualified::select, name_typing::specs::Qualified::assigned_select), using(je_typing::proofs::Walks::walks))]
fn read_of_value(
    program: &Program,
    place: Place,
    on: TypedExpr,
    id: Identifier,
    span: Span,
) -> Result<TypedExpr, Refusal>
    ensures ok { IfOk result (λ t. the_select (program_seen program.now) (place_seen place.entry)
        id span (a_value (seen on)) ≡ gives (seen t)) }
    ensures err { IfErr result (IsFault (the_select (program_seen program.now)
        (place_seen place.entry) id span (a_value (seen on)))) }
{
    let member = member_of_value(program, place, id, span, on)?;
    Ok(taken(program.source.alloc, program.heads, member)?)
}

/// A field behind a point that is read, or the length of an array; `span` is that of the whole.
#[tactic(auto, unfolding(name_typing::specs::Qualified::select, name_typing::specs::Qualified::assigned_select), using(je_typing::proofs::Walks::walks))]
pub fn select(
    program: &Program,
    place: Place,
    id: Identifier,
    span: Span,
    qualifier: Qualifier,
) -> Result<TypedExpr, Refusal>
    ensures ok { IfOk result (λ t. the_select (program_seen program.now) (place_seen place.entry)
        id span (qualifier_seen qualifier) ≡ gives (seen t)) }
    ensures err { IfErr result (IsFault (the_select (program_seen program.now)
        (place_seen place.entry) id span (qualifier_seen qualifier))) }
{
    match qualifier {
        Qualifier::Value(on) => read_of_value(program, place, on, id, span),
        Qualifier::Class(class) => read_in_class(program, place, class, id, span),
        Qualifier::Beginning { first, .. } => Err(Refusal::Fault(TypeFault {
            rule: TypeRule::UnknownName,
            span: first.span,
        })),
    }
}
