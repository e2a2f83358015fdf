// Names before a point (JLS 6.5.2, 6.5.5, 6.5.6.2).

ghost use Rattle.std.specs.Prelude.{◌≡◌, ◌∷◌, IfOk, IfErr};
ghost use Rattle.je_scopes.specs.Looks.{a_class as the_class};
ghost use Rattle.je_typing.specs.Answers.{IsFault};
ghost use Rattle.je_typing.specs.Judged.{gives};
ghost use Rattle.member_lookup.specs.Founds.{found_seen};
ghost use Rattle.name_lookup.specs.View.{look_view};
ghost use Rattle.name_typing.specs.Qualified.{a_beginning, a_class, a_value, class_before as the_class_before, class_named as the_class_named, found_in as the_found_in, member_before as the_member_before, name_before as the_name_before, select_before as the_select_before, static_before as the_static_before, value_before as the_value_before};
ghost use Rattle.name_typing.specs.Variables.{simple_name as the_simple_name, variable_named as the_variable_named};
ghost use Rattle.typed_nodes.specs.Seen.{seen};
ghost use Rattle.body_places.specs.Places.{place_seen};
ghost use Rattle.body_places.specs.View.{program_seen};
ghost use Rattle.name_steps.specs.Variables.{variable_seen};
ghost use Rattle.name_steps.specs.Qualifiers.{qualifier_seen};
ghost use Rattle.name_steps.specs.way.Behind.{member_named, static_value_before as the_static_value_before};

use crate::accesses::{member_of_value, static_field, static_value};
use crate::classes::class_named;
use crate::finding::{Variable, is_nothing, variable_named};
use crate::qualifier::Qualifier;
use crate::variables::named_value;
use body_places::{Found, Place, Program, find_field};
use header_steps::own_type;
use je_ast::Identifier;
use je_base::{Memory, Span};
use je_core::ClassId;
use je_typing::{Refusal, TypeFault, TypeRule, check};
use member_values::taken;
use name_lookup::{Look, is_accessible};
use std::alloc::Global;
use type_faults::Program as Source;
use typed_nodes::TypedExpr;

// A type variable has no members; a name with several meanings has none.
#[tactic(auto, using(je_typing::proofs::Walks::walks))]
fn class_before(alloc: Global, id: Identifier, look: Look) -> Result<Qualifier, Refusal>
    ensures ok { IfOk result (λ q. the_class_before id (look_view look) ≡ gives (qualifier_seen q)) }
    ensures err { IfErr result (IsFault (the_class_before id (look_view look))) }
{
    match look {
        Look::Class(class) => Ok(Qualifier::Class(class)),
        Look::Nothing => Ok(Qualifier::Beginning {
            first: id,
            further: Vec::new(alloc),
        }),
        Look::Waits(_) | Look::Variable(_, _) | Look::Unclear => Err(Refusal::Fault(TypeFault {
            rule: TypeRule::UnknownName,
            span: id.span,
        })),
    }
}

#[tactic(auto, using(je_typing::proofs::Walks::walks))]
fn class_name_before(program: &Program, place: Place, id: Identifier) -> Result<Qualifier, Refusal>
    ensures ok { IfOk result (λ q. the_class_before id (the_class_named (program_seen program.now)
        (place_seen place.entry).here id.name) ≡ gives (qualifier_seen q)) }
    ensures err { IfErr result (IsFault (the_class_before id (the_class_named
        (program_seen program.now) (place_seen place.entry).here id.name))) }
{
    let look = class_named(program, place.here, id.name)?;
    class_before(program.source.alloc, id, look)
}

#[tactic(auto, using(je_typing::proofs::Walks::walks))]
fn value_before(
    program: &Program,
    place: Place,
    id: Identifier,
    variable: Variable,
) -> Result<Qualifier, Refusal>
    requires { variable_seen variable ≡
        the_variable_named (program_seen program.now) (place_seen place) id.name }
    ensures ok { IfOk result (λ q. the_value_before (the_simple_name (program_seen program.now)
        (place_seen place.entry) id) ≡ gives (qualifier_seen q)) }
    ensures err { IfErr result (IsFault (the_value_before
        (the_simple_name (program_seen program.now) (place_seen place.entry) id))) }
{
    let value = named_value(program, place, id, variable)?;
    Ok(Qualifier::Value(value))
}

/// A simple name before a point: a variable, or else a class, or else the first part of a class's full name.
#[tactic(auto, using(je_typing::proofs::Walks::walks, crate::proofs::SimpleNames::names_before))]
pub fn name_before(program: &Program, place: Place, id: Identifier) -> Result<Qualifier, Refusal>
    ensures ok { IfOk result (λ q. the_name_before (program_seen program.now)
        (place_seen place.entry) id ≡ gives (qualifier_seen q)) }
    ensures err { IfErr result (IsFault
        (the_name_before (program_seen program.now) (place_seen place.entry) id)) }
{
    let variable = variable_named(program, place, id.name)?;
    if is_nothing(variable) {
        return class_name_before(program, place, id);
    }
    value_before(program, place, id, variable)
}

// A member class (JLS 8.5, 6.6.1).
#[tactic(auto, using(je_typing::proofs::Walks::walks))]
fn member_before(
    program: &Program,
    place: Place,
    id: Identifier,
    look: Look,
) -> Result<Qualifier, Refusal>
    ensures ok { IfOk result (λ q. the_member_before (program_seen program.now)
        (place_seen place.entry) id (look_view look) ≡ gives (qualifier_seen q)) }
    ensures err { IfErr result (IsFault (the_member_before (program_seen program.now)
        (place_seen place.entry) id (look_view look))) }
{
    match look {
        Look::Class(class) => class_member(program, place, id, class),
        Look::Nothing | Look::Waits(_) | Look::Variable(_, _) | Look::Unclear => {
            Err(Refusal::Fault(TypeFault {
                rule: TypeRule::UnknownField,
                span: id.span,
            }))
        }
    }
}

#[tactic(auto, using(je_typing::proofs::Walks::walks))]
fn class_member(
    program: &Program,
    place: Place,
    id: Identifier,
    class: ClassId,
) -> Result<Qualifier, Refusal>
    ensures ok { IfOk result (λ q. the_member_before (program_seen program.now)
        (place_seen place.entry) id (the_class class.0) ≡ gives (qualifier_seen q)) }
    ensures err { IfErr result (IsFault (the_member_before (program_seen program.now)
        (place_seen place.entry) id (the_class class.0))) }
{
    check(
        TypeRule::NotAccessible,
        id.span,
        is_accessible(program.source.sites, place.here.class, class),
    )?;
    Ok(Qualifier::Class(class))
}

// What a name means in a class where it finds no field there: a member class.
#[tactic(auto, using(je_typing::proofs::Walks::walks))]
fn member_class_before(
    program: &Program,
    place: Place,
    class: ClassId,
    id: Identifier,
) -> Result<Qualifier, Refusal>
    ensures ok { IfOk result (λ q. the_member_before (program_seen program.now)
        (place_seen place.entry) id (member_named (program_seen program.now) class.0 id)
        ≡ gives (qualifier_seen q)) }
    ensures err { IfErr result (IsFault (the_member_before (program_seen program.now)
        (place_seen place.entry) id (member_named (program_seen program.now) class.0 id))) }
{
    let Source {
        alloc,
        sites,
        headers,
    } = program.source;
    let look = headers.member_class(alloc, sites, class, id.name)?;
    member_before(program, place, id, look)
}

// A static field that is read.
#[tactic(auto, using(je_typing::proofs::Walks::walks))]
fn static_value_before(
    program: &Program,
    place: Place,
    id: Identifier,
    span: Span,
    found: Found,
) -> Result<Qualifier, Refusal>
    ensures ok { IfOk result (λ q. the_static_value_before (program_seen program.now)
        (place_seen place.entry) id span (found_seen found) ≡ gives (qualifier_seen q)) }
    ensures err { IfErr result (IsFault (the_static_value_before (program_seen program.now)
        (place_seen place.entry) id span (found_seen found))) }
{
    let field = static_field(program, place, id, span, found)?;
    let value = static_value(program, id, found, field)?;
    Ok(Qualifier::Value(value))
}

// A name behind a class, by the field that it finds there; a field hides a member class.
fn static_before(
    program: &Program,
    place: Place,
    class: ClassId,
    id: Identifier,
    span: Span,
    found: Found,
) -> Result<Qualifier, Refusal>
    ensures ok { IfOk result (λ q. the_static_before (program_seen program.now)
        (place_seen place.entry) class.0 id span (found_seen found) ≡ gives (qualifier_seen q)) }
    ensures err { IfErr result (IsFault (the_static_before (program_seen program.now)
        (place_seen place.entry) class.0 id span (found_seen found))) }
{
    match found {
        Found::Nothing => member_class_before(program, place, class, id),
        Found::One(_, _) => static_value_before(program, place, id, span, found),
        Found::Several => static_value_before(program, place, id, span, found),
    }
}

/// What a name finds among the fields of a class.
pub(crate) fn found_in(program: &Program, class: ClassId, id: Identifier) -> Result<Found, Memory>
    ensures { IfOk result (λ found. found_seen found ≡
        the_found_in (program_seen program.now) class.0 id) }
{
    let alloc = program.source.alloc;
    let own = own_type(alloc, program.heads, class)?;
    find_field(alloc, program.heads, program.classes, &own, id.name)
}

#[tactic(auto, unfolding(name_typing::specs::Qualified::select_before), using(je_typing::proofs::Walks::walks))]
fn behind_class(
    program: &Program,
    place: Place,
    class: ClassId,
    id: Identifier,
    span: Span,
) -> Result<Qualifier, Refusal>
    ensures ok { IfOk result (λ q. the_select_before (program_seen program.now)
        (place_seen place.entry) id span (a_class class.0) ≡ gives (qualifier_seen q)) }
    ensures err { IfErr result (IsFault (the_select_before (program_seen program.now)
        (place_seen place.entry) id span (a_class class.0))) }
{
    let found = found_in(program, class, id)?;
    static_before(program, place, class, id, span, found)
}

#[tactic(auto, unfolding(name_typing::specs::Qualified::select_before), using(je_typing::proofs::Walks::walks))]
fn behind_value(
    program: &Program,
    place: Place,
    on: TypedExpr,
    id: Identifier,
    span: Span,
) -> Result<Qualifier, Refusal>
    ensures ok { IfOk result (λ q. the_select_before (program_seen program.now)
        (place_seen place.entry) id span (a_value (seen on)) ≡ gives (qualifier_seen q)) }
    ensures err { IfErr result (IsFault (the_select_before (program_seen program.now)
        (place_seen place.entry) id span (a_value (seen on)))) }
{
    let member = member_of_value(program, place, id, span, on)?;
    let value = taken(program.source.alloc, program.heads, member)?;
    Ok(Qualifier::Value(value))
}

// All parts of a name.
fn whole_name(
    alloc: Global,
    first: Identifier,
    further: &[Identifier],
) -> Result<Vec<Identifier>, Memory>
    ensures { IfOk result (λ parts. parts.items ≡ first ∷ further.now) }
{
    let mut parts = Vec::new(alloc);
    parts.push(first)?;
    for part in further {
        parts.push(*part)?;
    }
    Ok(parts)
}

// A name that means nothing so far, with one part more: the full name of a class, or still the beginning of one.
fn behind_beginning(
    program: &Program,
    place: Place,
    first: Identifier,
    further: Vec<Identifier>,
    id: Identifier,
    span: Span,
) -> Result<Qualifier, Memory>
    ensures { IfOk result (λ q. the_select_before (program_seen program.now)
        (place_seen place.entry) id span (a_beginning first further.items)
        ≡ gives (qualifier_seen q)) }
{
    let mut further = further;
    further.push(id)?;
    let Source { alloc, sites, .. } = program.source;
    let parts = whole_name(alloc, first, &further)?;
    match sites.full_name(alloc, &parts)? {
        Some(class) => Ok(Qualifier::Class(class)),
        None => Ok(Qualifier::Beginning { first, further }),
    }
}

/// A name behind a point and before another one; `span` is that of all up to its end.
#[tactic(auto, using(je_typing::proofs::Walks::walks))]
pub fn select_before(
    program: &Program,
    place: Place,
    id: Identifier,
    span: Span,
    qualifier: Qualifier,
) -> Result<Qualifier, Refusal>
    ensures ok { IfOk result (λ q. the_select_before (program_seen program.now)
        (place_seen place.entry) id span (qualifier_seen qualifier) ≡ gives (qualifier_seen q)) }
    ensures err { IfErr result (IsFault (the_select_before (program_seen program.now)
        (place_seen place.entry) id span (qualifier_seen qualifier))) }
{
    match qualifier {
        Qualifier::Value(on) => behind_value(program, place, on, id, span),
        Qualifier::Class(class) => behind_class(program, place, class, id, span),
        Qualifier::Beginning { first, further } => Ok(behind_beginning(
            program, place, first, further, id, span,
        )?),
    }
}
