// Simple names of variables (JLS 6.5.6.1, 8.1.3, 8.3.2.3).

ghost use Rattle.std.specs.Prelude.{◌≡◌, ◌<◌, ◌^◌, ◌||◌, IfOk, IfErr, OnOk, option_map};
ghost use Rattle.declarations.specs.View.{field_shown};
ghost use Rattle.je_core.specs.Making.{Makes};
ghost use Rattle.je_typing.specs.Answers.{IsFault};
ghost use Rattle.je_typing.specs.Judged.{gives};
ghost use Rattle.name_typing.specs.Instances.{has_instance as the_has_instance};
ghost use Rattle.name_typing.specs.Program.{frames};
ghost use Rattle.name_typing.specs.Variables.{a_field, a_local, assigned_name as the_assigned_name, field_form, is_early as the_is_early, is_forward as the_is_forward, simple_name as the_simple_name, typed_captured as the_typed_captured, typed_field as the_typed_field, typed_local as the_typed_local, updated_name as the_updated_name, value_of as the_value_of, variable_named as the_variable_named, variable_node as the_variable_node};
ghost use Rattle.typed_nodes.specs.Seen.{seen};
ghost use Rattle.body_places.specs.Places.{initializer_seen, local_seen, place_seen};
ghost use Rattle.body_places.specs.Selected.{selected_seen};
ghost use Rattle.name_steps.specs.Variables.{variable_seen};
ghost use Rattle.body_places.specs.View.{program_seen};
ghost use Rattle.name_steps.specs.way.Named.{IsSmall, updated as the_updated, valued as the_valued};

use crate::finding::{Variable, variable_named};
use crate::values::constant_or;
use body_places::{
    Initializer, LocalVariable, Place, Program, Selected, captured_of, class_outwards, constant_of,
    field_at, has_instance, instance_node, need_field, this_node, type_seen, uses_for,
};
use declarations::FieldDecl;
use header_steps::own_type;
use je_ast::Identifier;
use je_base::{Memory, Span};
use je_core::{ClassId, Expr, Mark, make_field, make_local, make_static};
use je_typing::{Refusal, TypeFault, TypeRule, check};
use member_values::taken;
use source_subtypes::{copied, erased};
use typed_nodes::TypedExpr;

/// A local of the body itself, at a place of its text.
pub fn typed_local(program: &Program, local: &LocalVariable, at: Span) -> Result<TypedExpr, Memory>
    ensures { IfOk result (λ t. seen t ≡
        the_typed_local (program_seen program.now) (local_seen local.now) at) }
{
    let mark = Mark {
        ty: erased(program.heads, &local.ty),
        span: at,
        at,
    };
    let ty = copied(program.source.alloc, &local.ty)?;
    let node = make_local(mark, local.number);
    Ok(TypedExpr { node, ty })
}

// The value of a local of an outer body stands in a field of `this`.
fn typed_captured(
    program: &Program,
    place: Place,
    outwards: usize,
    local: &LocalVariable,
    at: Span,
) -> Result<TypedExpr, Memory>
    ensures { IfOk result (λ t. seen t ≡ the_typed_captured (program_seen program.now)
        (place_seen place.entry) outwards (local_seen local.now) at) }
{
    let mark = Mark {
        ty: erased(program.heads, &local.ty),
        span: at,
        at,
    };
    let class = place.here.class;
    let owner = class_outwards(place, outwards);
    let field = captured_of(program, class, owner, local.number);
    let ty = copied(program.source.alloc, &local.ty)?;
    let node = make_field(
        program.source.alloc,
        mark,
        this_node(place, at),
        class,
        field,
    )?;
    Ok(TypedExpr { node, ty })
}

#[tactic(auto, unfolding(name_typing::specs::Variables::variable_node), using(je_typing::proofs::Walks::walks, crate::proofs::Captured::captured_local))]
fn local_node(
    program: &Program,
    place: Place,
    at: Span,
    outwards: usize,
    local: &LocalVariable,
) -> Result<TypedExpr, Refusal>
    ensures ok { IfOk result (λ t. the_variable_node (program_seen program.now)
        (place_seen place.entry) at (a_local outwards (local_seen local.now)) ≡ gives (seen t)) }
    ensures err { IfErr result (IsFault (the_variable_node (program_seen program.now)
        (place_seen place.entry) at (a_local outwards (local_seen local.now)))) }
{
    if outwards == 0 {
        return Ok(typed_local(program, local, at)?);
    }
    check(TypeRule::NotFinalCapture, at, local.is_final)?;
    Ok(typed_captured(program, place, outwards, local, at)?)
}

fn field_expr(
    program: &Program,
    place: Place,
    outwards: usize,
    mark: Mark,
    selected: Selected,
) -> Result<Expr, Memory>
    ensures { Makes result mark (field_form (program_seen program.now) (place_seen place.entry) outwards
        (selected_seen selected.entry).member (selected_seen selected.entry).declared.is_static mark.at) }
{
    let Selected {
        class,
        field,
        declared,
    } = selected;
    if declared.is_static {
        return make_static(program.source.alloc, mark, None, class, field);
    }
    let object = instance_node(program, place, outwards, mark.at)?;
    make_field(program.source.alloc, mark, object, class, field)
}

fn typed_field(
    program: &Program,
    place: Place,
    outwards: usize,
    selected: Selected,
    at: Span,
) -> Result<TypedExpr, Memory>
    ensures { IfOk result (λ t. seen t ≡ the_typed_field (program_seen program.now)
        (place_seen place.entry) outwards (selected_seen selected.entry).member
        (selected_seen selected.entry).declared at) }
{
    let Selected {
        class,
        field,
        declared,
    } = selected;
    let own = own_type(
        program.source.alloc,
        program.heads,
        class_outwards(place, outwards),
    )?;
    let ty = type_seen(
        program.source.alloc,
        program.heads,
        &own,
        class,
        field as usize,
        declared,
    )?;
    let mark = Mark {
        ty: erased(program.heads, &declared.ty),
        span: at,
        at,
    };
    let node = field_expr(program, place, outwards, mark, selected)?;
    Ok(TypedExpr { node, ty })
}

// A static field is there in any context.
fn is_there(place: Place, outwards: usize, declared: &FieldDecl) -> bool
    ensures { result ≡ ((field_shown declared.now).is_static
        || the_has_instance outwards (frames (place_seen place.entry))) }
{
    declared.is_static || has_instance(place, outwards)
}

#[tactic(auto, unfolding(name_typing::specs::Variables::variable_node), using(je_typing::proofs::Walks::walks))]
fn field_node(
    program: &Program,
    place: Place,
    at: Span,
    outwards: usize,
    class: ClassId,
    field: usize,
) -> Result<TypedExpr, Refusal>
    ensures ok { IfOk result (λ t. the_variable_node (program_seen program.now)
        (place_seen place.entry) at (a_field outwards (record { class = class; at = field }))
        ≡ gives (seen t)) }
    ensures err { IfErr result (IsFault (the_variable_node (program_seen program.now)
        (place_seen place.entry) at (a_field outwards (record { class = class; at = field })))) }
    ensures small { OnOk result (field < 2 ^ 32) }
{
    let selected = need_field(program, TypeRule::UnknownName, at, class, field)?;
    let there = is_there(place, outwards, selected.declared);
    check(TypeRule::StaticContext, at, there)?;
    let read = typed_field(program, place, outwards, selected, at)?;
    Ok(read)
}

/// A variable's node, as what is assigned.
#[tactic(auto, unfolding(name_typing::specs::Variables::variable_node), using(je_typing::proofs::Walks::walks))]
fn variable_node(
    program: &Program,
    place: Place,
    at: Span,
    variable: Variable,
) -> Result<TypedExpr, Refusal>
    ensures ok { IfOk result (λ t. the_variable_node (program_seen program.now)
        (place_seen place.entry) at (variable_seen variable.entry) ≡ gives (seen t)) }
    ensures err { IfErr result (IsFault (the_variable_node (program_seen program.now)
        (place_seen place.entry) at (variable_seen variable.entry))) }
    ensures small { OnOk result (IsSmall (variable_seen variable.entry)) }
{
    match variable {
        Variable::Nothing => Err(Refusal::Fault(TypeFault {
            rule: TypeRule::UnknownName,
            span: at,
        })),
        Variable::Unclear => Err(Refusal::Fault(TypeFault {
            rule: TypeRule::AmbiguousField,
            span: at,
        })),
        Variable::Local { outwards, local } => local_node(program, place, at, outwards, local),
        Variable::Field {
            outwards,
            class,
            at: field,
        } => field_node(program, place, at, outwards, class, field),
    }
}

fn is_early(initializer: Option<Initializer>, at: usize, field: Option<&FieldDecl>) -> bool
    ensures { result ≡ the_is_early (option_map initializer_seen initializer) at
        (option_map (λ f. field_shown f.now) field.entry) }
{
    match (initializer, field) {
        (Some(initializer), Some(field)) => {
            initializer.is_static == field.is_static && initializer.declared <= at
        }
        _ => false,
    }
}

// Whether a field of the class itself is read in an initializer of its kind before its declaration, or in its own.
fn is_forward(program: &Program, place: Place, variable: Variable) -> bool
    ensures { result ≡ the_is_forward (program_seen program.now) (place_seen place.entry).here
        (variable_seen variable.entry) }
{
    match variable {
        Variable::Field {
            outwards: 0,
            class,
            at,
        } => {
            class.0 == place.here.class.0
                && is_early(
                    place.here.initializer,
                    at,
                    field_at(program.classes, class, at),
                )
        }
        _ => false,
    }
}

#[tactic(auto, unfolding(crate::specs::way::Named::updated, name_typing::specs::Variables::not_forward), using(je_typing::proofs::Walks::walks))]
fn updated(
    program: &Program,
    place: Place,
    at: Span,
    variable: Variable,
) -> Result<TypedExpr, Refusal>
    ensures ok { IfOk result (λ t. the_updated (program_seen program.now) (place_seen place.entry) at
        (variable_seen variable.entry) ≡ gives (seen t)) }
    ensures err { IfErr result (IsFault (the_updated (program_seen program.now)
        (place_seen place.entry) at (variable_seen variable.entry))) }
    ensures small { OnOk result (IsSmall (variable_seen variable.entry)) }
{
    let node = variable_node(program, place, at, variable)?;
    let forward = is_forward(program, place, variable);
    check(TypeRule::ForwardUse, at, !forward)?;
    Ok(node)
}

// What is read of a variable.
fn value_of(
    program: &Program,
    at: Span,
    variable: Variable,
    read: TypedExpr,
) -> Result<TypedExpr, Memory>
    requires { IsSmall (variable_seen variable) }
    ensures { IfOk result (λ t. seen t ≡ the_value_of (program_seen program.now) at
        (variable_seen variable.entry) (seen read)) }
{
    let alloc = program.source.alloc;
    match variable {
        Variable::Local { local, .. } => {
            constant_or(alloc, Vec::new(alloc), read, local.constant.as_ref())
        }
        Variable::Field {
            class,
            at: field,
            ..
        } => {
            let uses = uses_for(program, class, field as u32, at)?;
            let read = taken(alloc, program.heads, read)?;
            constant_or(
                alloc,
                uses,
                read,
                constant_of(program.constants, class, field),
            )
        }
        Variable::Nothing | Variable::Unclear => Ok(read),
    }
}

/// A simple name that is assigned.
#[tactic(auto, unfolding(name_typing::specs::Variables::assigned_name), using(je_typing::proofs::Walks::walks))]
pub fn assigned_name(program: &Program, place: Place, id: Identifier) -> Result<TypedExpr, Refusal>
    ensures ok { IfOk result (λ t. the_assigned_name (program_seen program.now)
        (place_seen place.entry) id ≡ gives (seen t)) }
    ensures err { IfErr result (IsFault
        (the_assigned_name (program_seen program.now) (place_seen place.entry) id)) }
{
    let variable = variable_named(program, place, id.name)?;
    variable_node(program, place, id.span, variable)
}

/// A simple name that is read and assigned.
#[tactic(auto, using(je_typing::proofs::Walks::walks, crate::proofs::Readings::updates))]
pub fn updated_name(program: &Program, place: Place, id: Identifier) -> Result<TypedExpr, Refusal>
    ensures ok { IfOk result (λ t. the_updated_name (program_seen program.now)
        (place_seen place.entry) id ≡ gives (seen t)) }
    ensures err { IfErr result (IsFault
        (the_updated_name (program_seen program.now) (place_seen place.entry) id)) }
{
    let variable = variable_named(program, place, id.name)?;
    updated(program, place, id.span, variable)
}

#[tactic(auto, unfolding(crate::specs::way::Named::valued), using(je_typing::proofs::Walks::walks))]
fn valued(
    program: &Program,
    place: Place,
    at: Span,
    variable: Variable,
) -> Result<TypedExpr, Refusal>
    ensures ok { IfOk result (λ t. the_valued (program_seen program.now) (place_seen place.entry) at
        (variable_seen variable.entry) ≡ gives (seen t)) }
    ensures err { IfErr result (IsFault (the_valued (program_seen program.now)
        (place_seen place.entry) at (variable_seen variable.entry))) }
{
    let read = updated(program, place, at, variable)?;
    Ok(value_of(program, at, variable, read)?)
}

/// A simple name that is read, which means this as a variable.
#[tactic(auto, using(crate::proofs::Readings::readings))]
pub fn named_value(
    program: &Program,
    place: Place,
    id: Identifier,
    variable: Variable,
) -> Result<TypedExpr, Refusal>
    requires { variable_seen variable ≡
        the_variable_named (program_seen program.now) (place_seen place) id.name }
    ensures ok { IfOk result (λ t. the_simple_name (program_seen program.now)
        (place_seen place.entry) id ≡ gives (seen t)) }
    ensures err { IfErr result (IsFault
        (the_simple_name (program_seen program.now) (place_seen place.entry) id)) }
{
    valued(program, place, id.span, variable)
}

/// A simple name that is read.
#[tactic(auto, using(je_typing::proofs::Walks::walks))]
pub fn simple_name(program: &Program, place: Place, id: Identifier) -> Result<TypedExpr, Refusal>
    ensures ok { IfOk result (λ t. the_simple_name (program_seen program.now)
        (place_seen place.entry) id ≡ gives (seen t)) }
    ensures err { IfErr result (IsFault
        (the_simple_name (program_seen program.now) (place_seen place.entry) id)) }
{
    let variable = variable_named(program, place, id.name)?;
    named_value(program, place, id, variable)
}
