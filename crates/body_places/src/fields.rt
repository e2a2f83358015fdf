// The field that a name finds (JLS 6.6.1, 15.11).

ghost use Rattle.std.specs.Prelude.{◌≡◌, ◌<◌, ◌^◌, IfOk, IfErr, OnOk};
ghost use Rattle.declarations.specs.View.{field_shown};
ghost use Rattle.je_classes.specs.Members.{is_private_access, one};
ghost use Rattle.je_scopes.specs.Headers.{is_guest as the_is_guest};
ghost use Rattle.je_typing.specs.Answers.{IsFault};
ghost use Rattle.je_typing.specs.Judged.{gives, need as the_need};
ghost use Rattle.member_lookup.specs.Founds.{found_seen};
ghost use Rattle.name_types.specs.View.{shown};
ghost use Rattle.name_typing.specs.Accesses.{field_in as the_field_in, found_field as the_found_field};
ghost use Rattle.name_typing.specs.Fields.{field_at as the_field_at, is_accessible as the_is_accessible};
ghost use Rattle.name_typing.specs.Variables.{uses_for as the_uses_for};
ghost use Rattle.name_walk.specs.View.{written_view};
ghost use Rattle.body_places.specs.Selected.{IsSmall, selected_seen};
ghost use Rattle.body_places.specs.View.{program_seen};

use crate::declared::field_at;
use crate::found::find_field;
use crate::program::Program;
use declarations::FieldDecl;
use je_ast::Identifier;
use je_base::{Memory, Span};
use je_core::{Access, ClassId, Use};
use je_typing::{Refusal, TypeFault, TypeRule, check};
use member_lookup::Found;
use name_types::SrcTy;
use name_walk::Written;

/// A field by the class that declares it and its place there, and what is declared.
#[derive(Clone, Copy)]
pub struct Selected<'a> {
    pub class: ClassId,
    pub field: u32,
    pub declared: &'a FieldDecl,
}

/// The field at a place of a class, else the fault of a name that means nothing.
#[tactic(auto, unfolding(je_typing::specs::Judged::need), using(je_typing::proofs::Walks::walks))]
pub fn need_field<'a>(
    program: &Program<'a>,
    rule: TypeRule,
    span: Span,
    class: ClassId,
    at: usize,
) -> Result<Selected<'a>, Refusal>
    ensures ok { IfOk result (λ s. the_need rule span (the_field_at (program_seen program.now).classes
        (record { class = class; at = at })) ≡ gives (field_shown s.declared.now)) }
    ensures member { IfOk result (λ s. (selected_seen s).member ≡ record { class = class; at = at }) }
    ensures small { OnOk result (at < 2 ^ 32) }
    ensures err { IfErr result (IsFault (the_need rule span
        (the_field_at (program_seen program.now).classes (record { class = class; at = at })))) }
{
    match field_at(program.classes, class, at) {
        Some(declared) => Ok(Selected {
            class,
            field: at as u32,
            declared,
        }),
        None => Err(Refusal::Fault(TypeFault { rule, span })),
    }
}

fn is_private(access: Access) -> bool
    ensures { result ≡ is_private_access access }
{
    matches!(access, Access::Private)
}

// Whether a field may be named in a class: a private one in the top-level class that it stands in alone.
fn is_accessible(program: &Program, class: ClassId, selected: Selected) -> bool
    ensures { result ≡ the_is_accessible (program_seen program.now) class.0
        (selected_seen selected.entry).member (selected_seen selected.entry).declared }
{
    !is_private(selected.declared.access)
        || program.source.sites.top_of(class).0 == program.source.sites.top_of(selected.class).0
}

/// The field that a name finds, for a class in which it is named.
#[tactic(auto, unfolding(name_typing::specs::Accesses::found_field), using(je_typing::proofs::Walks::walks))]
pub fn found_field<'a>(
    program: &Program<'a>,
    class: ClassId,
    id: Identifier,
    found: Found,
) -> Result<Selected<'a>, Refusal>
    ensures ok { IfOk result (λ s. the_found_field (program_seen program.now) class.0 id
        (found_seen found) ≡ gives (selected_seen s)) }
    ensures small { OnOk result (IsSmall (found_seen found)) }
    ensures err { IfErr result (IsFault
        (the_found_field (program_seen program.now) class.0 id (found_seen found))) }
{
    match found {
        Found::Nothing => Err(Refusal::Fault(TypeFault {
            rule: TypeRule::UnknownField,
            span: id.span,
        })),
        Found::Several => Err(Refusal::Fault(TypeFault {
            rule: TypeRule::AmbiguousField,
            span: id.span,
        })),
        Found::One(holder, at) => one_field(program, class, id, holder, at),
    }
}

#[tactic(auto, unfolding(name_typing::specs::Accesses::found_field), using(je_typing::proofs::Walks::walks))]
fn one_field<'a>(
    program: &Program<'a>,
    class: ClassId,
    id: Identifier,
    holder: ClassId,
    at: usize,
) -> Result<Selected<'a>, Refusal>
    ensures ok { IfOk result (λ s. the_found_field (program_seen program.now) class.0 id
        (one (record { class = holder; at = at })) ≡ gives (selected_seen s)) }
    ensures small { OnOk result (at < 2 ^ 32) }
    ensures err { IfErr result (IsFault (the_found_field (program_seen program.now) class.0 id
        (one (record { class = holder; at = at })))) }
{
    let selected = need_field(program, TypeRule::UnknownField, id.span, holder, at)?;
    check(
        TypeRule::NotAccessible,
        id.span,
        is_accessible(program, class, selected),
    )?;
    Ok(selected)
}

/// The field of that name in a type, for a class in which it is named.
#[tactic(auto, using(je_typing::proofs::Walks::walks))]
pub fn field_in<'a>(
    program: &Program<'a>,
    class: ClassId,
    ty: &SrcTy,
    id: Identifier,
) -> Result<Selected<'a>, Refusal>
    ensures ok { IfOk result (λ s. the_field_in (program_seen program.now) class.0 (shown ty.now) id
        ≡ gives (selected_seen s)) }
    ensures err { IfErr result (IsFault
        (the_field_in (program_seen program.now) class.0 (shown ty.now) id)) }
{
    let found = find_field(
        program.source.alloc,
        program.heads,
        program.classes,
        ty,
        id.name,
    )?;
    found_field(program, class, id, found)
}

fn is_guest(written: Written) -> bool
    ensures { result ≡ the_is_guest (written_view written.entry) }
{
    match written {
        Written::Library => false,
        Written::Declared { .. } | Written::Anonymous { .. } => true,
    }
}

/// A field of the library is one that its constant is made of.
pub fn uses_for(
    program: &Program,
    class: ClassId,
    field: u32,
    span: Span,
) -> Result<Vec<Use>, Memory>
    ensures { IfOk result (λ uses. uses.items ≡
        the_uses_for (program_seen program.now) (record { class = class; at = field }) span) }
{
    let mut uses = Vec::new(program.source.alloc);
    if !is_guest(program.source.sites.written(class)) {
        uses.push(Use { class, field, span })?;
    }
    Ok(uses)
}
