// The class before `.this`, and the type behind a `new` with a body (JLS 15.8.4, 15.9.5).

ghost use Rattle.std.specs.Prelude.{◌≡◌, IfErr, IfOk};
ghost use Rattle.body_types.specs.BodyTypes.{look_at};
ghost use Rattle.declarations.specs.Declarations.{type_at};
ghost use Rattle.body_typing.specs.Expressions.{class_of_look};
ghost use Rattle.je_ast.specs.Types.{type_view};
ghost use Rattle.je_scopes.specs.Scope.{header};
ghost use Rattle.je_typing.specs.Answers.{IsFault};
ghost use Rattle.je_typing.specs.declared.fault.TypeRule.TheVariants.{UnknownName};
ghost use Rattle.je_typing.specs.Judged.{bind, gives, need};
ghost use Rattle.name_lookup.specs.View.{look_view};
ghost use Rattle.name_types.specs.View.{shown};
ghost use Rattle.name_typing.specs.Instances.{outer_this as the_outer_this};
ghost use Rattle.typed_nodes.specs.Seen.{seen};
ghost use Rattle.name_steps.specs.Places.{place_seen, program_seen};

use crate::meaning::body_meaning;
use je_ast::{Name, TyName};
use je_base::{Memory, Span};
use je_core::ClassId;
use je_typing::{Refusal, TypeFault, TypeRule};
use name_lookup::{Look, Part, Place as NamePlace};
use name_steps::{Place, Program, outer_this};
use name_types::{SrcTy, source_type};
use type_faults::Program as Source;
use typed_nodes::TypedExpr;

/// `Name.this`, by the name and the span of the word.
#[tactic(auto, using(je_typing::proofs::Walks::walks))]
pub fn outer(program: &Program, place: Place, name: &Name, word: Span) -> Result<TypedExpr, Refusal>
    ensures ok { IfOk result (λ t. bind (need UnknownName name.now.span (class_of_look (look_at
        (program_seen program.now) (place_seen place.entry).here name.now.parts.items)))
        (λ c. the_outer_this (program_seen program.now) (place_seen place.entry) c name.now.span
        word) ≡ gives (seen t)) }
    ensures err { IfErr result (IsFault (bind (need UnknownName name.now.span (class_of_look (look_at
        (program_seen program.now) (place_seen place.entry).here name.now.parts.items)))
        (λ c. the_outer_this (program_seen program.now) (place_seen place.entry) c name.now.span
        word))) }
{
    let meant = body_meaning(program, place.here, &name.parts)?;
    outer_of_look(program, place, meant.look, name.span, word)
}

// The same by what the name means.
#[tactic(auto, unfolding(je_typing::specs::Judged::need), using(je_typing::proofs::Walks::walks))]
fn outer_of_look(
    program: &Program,
    place: Place,
    look: Look,
    name: Span,
    word: Span,
) -> Result<TypedExpr, Refusal>
    ensures ok { IfOk result (λ t. bind (need UnknownName name (class_of_look (look_view look)))
        (λ c. the_outer_this (program_seen program.now) (place_seen place.entry) c name word)
        ≡ gives (seen t)) }
    ensures err { IfErr result (IsFault (bind (need UnknownName name (class_of_look
        (look_view look))) (λ c. the_outer_this (program_seen program.now) (place_seen place.entry)
        c name word))) }
{
    match look {
        Look::Class(class) => outer_this(program, place, class, name, word),
        Look::Waits(_) | Look::Nothing | Look::Variable(_, _) | Look::Unclear => {
            Err(Refusal::Fault(TypeFault {
                rule: TypeRule::UnknownName,
                span: name,
            }))
        }
    }
}

/// The type that stands behind a `new` with a body, which is what the class of the body names in its header.
pub fn anonymous_type(program: &Program, class: ClassId, ty: &TyName) -> Result<SrcTy, Memory>
    ensures { IfOk result (λ t. shown t ≡
        type_at (program_seen program.now).source class.0 header (type_view ty.now)) }
{
    let Source {
        alloc,
        sites,
        headers,
    } = program.source;
    let place = NamePlace {
        class,
        part: Part::Header,
    };
    source_type(headers, alloc, sites, place, ty)
}
