// Field access (JLS 10.7, 15.11). A fault stands at the name behind the point.

ghost use Rattle.std.specs.Prelude.{◌≡◌, ℕ, IfOk, IfErr, OnOk, map};
ghost use Rattle.je_classes.specs.Subtypes as base_types;
ghost use Rattle.je_core.specs.Making.{Makes};
ghost use Rattle.je_core.specs.View.{view};
ghost use Rattle.je_typing.specs.Answers.{IsFault};
ghost use Rattle.je_typing.specs.Judged.{gives};
ghost use Rattle.member_lookup.specs.Founds.{found_seen};
ghost use Rattle.name_types.specs.View.{base_shown, shown};
ghost use Rattle.name_typing.specs.Accesses.{field_of_value as the_field_of_value, is_array as the_is_array, is_length as the_is_length, member_of_value as the_member_of_value, static_field as the_static_field, static_value as the_static_value, super_field as the_super_field, typed_selected as the_typed_selected, typed_static as the_typed_static};
ghost use Rattle.source_subtypes.specs.View.{heads_of};
ghost use Rattle.source_types.specs.Subtypes.{is_null as the_is_null};
ghost use Rattle.typed_nodes.specs.Seen.{seen};
ghost use Rattle.body_places.specs.Places.{place_seen};
ghost use Rattle.body_places.specs.Selected.{IsSmall, selected_seen};
ghost use Rattle.body_places.specs.View.{program_seen};
ghost use Rattle.name_steps.specs.way.Selecting.{form_selected};

use crate::values::constant_or;
use body_places::{
    Found, Place, Program, Selected, constant_of, field_in, found_field, is_instance, this_node,
    type_seen, uses_for,
};
use je_ast::Identifier;
use je_base::{Memory, Span};
use je_core::{Base, ClassId, Expr, Mark, make_field, make_static};
use je_typing::{Refusal, TypeRule, check};
use member_values::{has_members, superclass_of};
use name_types::{SrcBase, SrcTy};
use operator_steps::length_of;
use source_subtypes::{ClassHeads, copied, erased, object};
use std::alloc::Global;
use typed_nodes::{TypedExpr, is_reference};

fn selected_node(alloc: Global, mark: Mark, on: Expr, selected: Selected) -> Result<Expr, Memory>
    ensures { Makes result mark (form_selected (view on) (selected_seen selected.entry)) }
{
    let Selected {
        class,
        field,
        declared,
    } = selected;
    if declared.is_static {
        return make_static(alloc, mark, Some(on), class, field);
    }
    make_field(alloc, mark, on, class, field)
}

// A field of a value; a static one too is selected from the value.
fn typed_selected(
    program: &Program,
    on: TypedExpr,
    selected: Selected,
    at: Span,
    span: Span,
) -> Result<TypedExpr, Memory>
    ensures { IfOk result (λ t. seen t ≡ the_typed_selected (program_seen program.now) (seen on)
        (selected_seen selected.entry) at span) }
{
    let Selected {
        class,
        field,
        declared,
    } = selected;
    let mark = Mark {
        ty: erased(program.heads, &declared.ty),
        span,
        at,
    };
    let TypedExpr { node, ty: of } = on;
    let ty = type_seen(
        program.source.alloc,
        program.heads,
        &of,
        class,
        field as usize,
        declared,
    )?;
    let node = selected_node(program.source.alloc, mark, node, selected)?;
    Ok(TypedExpr { node, ty })
}

#[tactic(auto, unfolding(name_typing::specs::Accesses::field_of_value), using(je_typing::proofs::Walks::walks))]
fn field_of_value(
    program: &Program,
    place: Place,
    id: Identifier,
    span: Span,
    on: TypedExpr,
) -> Result<TypedExpr, Refusal>
    ensures ok { IfOk result (λ t. the_field_of_value (program_seen program.now)
        (place_seen place.entry) id span (seen on) ≡ gives (seen t)) }
    ensures err { IfErr result (IsFault (the_field_of_value (program_seen program.now)
        (place_seen place.entry) id span (seen on))) }
{
    check(TypeRule::BadOperand, id.span, has_members(&on.ty))?;
    let selected = field_in(program, place.here.class, &on.ty, id)?;
    Ok(typed_selected(program, on, selected, id.span, span)?)
}

#[tactic(auto, using(crate::proofs::Arrays::array_dims))]
fn is_array(ty: &SrcTy) -> bool
    ensures { result ≡ the_is_array (shown ty.now) }
{
    ty.dims != 0
}

fn is_length(program: &Program, id: Identifier) -> bool
    ensures { result ≡ the_is_length (program_seen program.now) id }
{
    program.source.sites.text(id.name) == "length"
}

/// A member of a value by its name: the length of an array, or a field (JLS 10.7, 15.11.1); `span` is that of the
/// whole.
#[tactic(auto, unfolding(name_typing::specs::Accesses::member_of_value), using(je_typing::proofs::Walks::walks))]
pub fn member_of_value(
    program: &Program,
    place: Place,
    id: Identifier,
    span: Span,
    on: TypedExpr,
) -> Result<TypedExpr, Refusal>
    ensures ok { IfOk result (λ t. the_member_of_value (program_seen program.now)
        (place_seen place.entry) id span (seen on) ≡ gives (seen t)) }
    ensures err { IfErr result (IsFault (the_member_of_value (program_seen program.now)
        (place_seen place.entry) id span (seen on))) }
{
    if is_array(&on.ty) && is_length(program, id) {
        let TypedExpr { node, .. } = on;
        return Ok(length_of(program.source.alloc, id.span, span, node)?);
    }
    field_of_value(program, place, id, span, on)
}

fn typed_static(
    program: &Program,
    selected: Selected,
    at: Span,
    span: Span,
) -> Result<TypedExpr, Memory>
    ensures { IfOk result (λ t. seen t ≡ the_typed_static (program_seen program.now)
        (selected_seen selected.entry) at span) }
{
    let Selected {
        class,
        field,
        declared,
    } = selected;
    let mark = Mark {
        ty: erased(program.heads, &declared.ty),
        span,
        at,
    };
    let ty = copied(program.source.alloc, &declared.ty)?;
    let node = make_static(program.source.alloc, mark, None, class, field)?;
    Ok(TypedExpr { node, ty })
}

/// A static field of a class that is named before the point, by what the name behind it finds there (JLS 6.5.6.2).
#[tactic(auto, unfolding(name_typing::specs::Accesses::static_field), using(je_typing::proofs::Walks::walks))]
pub fn static_field(
    program: &Program,
    place: Place,
    id: Identifier,
    span: Span,
    found: Found,
) -> Result<TypedExpr, Refusal>
    ensures ok { IfOk result (λ t. the_static_field (program_seen program.now)
        (place_seen place.entry) id span (found_seen found) ≡ gives (seen t)) }
    ensures small { OnOk result (IsSmall (found_seen found)) }
    ensures err { IfErr result (IsFault (the_static_field (program_seen program.now)
        (place_seen place.entry) id span (found_seen found))) }
{
    let selected = found_field(program, place.here.class, id, found)?;
    check(
        TypeRule::StaticContext,
        id.span,
        selected.declared.is_static,
    )?;
    Ok(typed_static(program, selected, id.span, span)?)
}

/// What is read of that field: of a constant variable the constant.
pub fn static_value(
    program: &Program,
    id: Identifier,
    found: Found,
    field: TypedExpr,
) -> Result<TypedExpr, Memory>
    requires { IsSmall (found_seen found) }
    ensures { IfOk result (λ t. seen t ≡
        the_static_value (program_seen program.now) id (found_seen found) (seen field)) }
{
    match found {
        Found::One(class, at) => {
            let uses = uses_for(program, class, at as u32, id.span)?;
            let constant = constant_of(program.constants, class, at);
            constant_or(program.source.alloc, uses, field, constant)
        }
        Found::Nothing | Found::Several => Ok(field),
    }
}

/// `super.name` (JLS 15.11.2); `word` is the span of `super`, `span` that of the whole.
#[tactic(auto, unfolding(name_typing::specs::Accesses::super_field), using(je_typing::proofs::Walks::walks))]
pub fn super_field(
    program: &Program,
    place: Place,
    word: Span,
    id: Identifier,
    span: Span,
) -> Result<TypedExpr, Refusal>
    ensures ok { IfOk result (λ t. the_super_field (program_seen program.now)
        (place_seen place.entry) word id span ≡ gives (seen t)) }
    ensures err { IfErr result (IsFault (the_super_field (program_seen program.now)
        (place_seen place.entry) word id span)) }
{
    let ty = superclass_of(program.source.alloc, program.heads, place.here.class)?;
    let selected = field_in(program, place.here.class, &ty, id)?;
    check(
        TypeRule::StaticContext,
        word,
        is_instance(place.here.context),
    )?;
    let node = this_node(place, word);
    Ok(typed_selected(program, TypedExpr { node, ty }, selected, id.span, span)?)
}
