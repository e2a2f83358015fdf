// The field that a name means in a class (JLS 6.5, 8.3, 9.3).

ghost use Rattle.std.specs.Prelude.{◌≡◌, IfOk, OnOk, length, map};
ghost use Rattle.je_core.specs.View.{field_view, program_view};
ghost use Rattle.je_classes.specs.Fields.{place_from, declared_field as the_declared_field, can_inherit_field, find_field as the_find_field};
ghost use Rattle.je_classes.specs.Hierarchy.{IsAcyclic};
ghost use Rattle.je_classes.specs.way.Reaching.{with_all};
ghost use Rattle.class_lookup.specs.way.Walk.{reached_by};
ghost use Rattle.member_lookup.specs.Founds.{found_seen};
ghost use Rattle.member_lookup.specs.way.Fields.{next_field, field_in as the_field_in};

use crate::found::{Found, joined};
use class_members::{field_at, is_hidden, same_class, same_name};
use je_classes::{class_count, class_in, reach_one, reach_supers};
use je_core::{Access, ClassId, Field, Memory, NameId, Program};
use std::alloc::Global;

// The place of the first of some fields that has the name and isn't hidden.
fn declared(fields: &[Field], name: NameId) -> Option<usize>
    ensures { result ≡ place_from 0 (map field_view fields.now) name }
{
    for (at, field) in fields.iter().enumerate() {
        if same_name(field.name, name) && !is_hidden(field) {
            return Some(at);
        }
    }
    None
}

// The place of the field of that name that a class declares.
fn declared_field(program: &Program, class: ClassId, name: NameId) -> Option<usize>
    ensures { result ≡ the_declared_field (program_view program.now) name class }
{
    match program.class(class) {
        None => None,
        Some(class) => declared(&class.fields, name),
    }
}

// The supers of a class are reached, unless it declares a field of the name.
fn reach_past(
    reached: &mut Vec<ClassId>,
    program: &Program,
    class: ClassId,
    name: NameId,
) -> Result<(), Memory>
    ensures { OnOk result (reached.new.items ≡ with_all (length (program_view program.now).classes)
        reached.old.items (next_field (program_view program.now) name class)) }
{
    match declared_field(program, class, name) {
        Some(_) => Ok(()),
        None => reach_supers(reached, program, class),
    }
}

// The classes to which ways lead from one past classes that declare no field of the name.
fn owners(
    alloc: Global,
    program: &Program,
    class: ClassId,
    name: NameId,
) -> Result<Vec<ClassId>, Memory>
    ensures { IfOk result
        (λ owners. owners.items ≡ reached_by (next_field (program_view program.now) name)
        (length (program_view program.now).classes) class) }
{
    let count = class_count(program);
    let mut reached = Vec::new(alloc);
    reach_one(&mut reached, count, class)?;
    for at in 0..count {
        let Some(next) = class_in(&reached, at) else {
            return Ok(reached);
        };
        reach_past(&mut reached, program, next, name)?;
    }
    Ok(reached)
}

// Whether a field of a class is inherited by the classes below.
fn can_inherit(program: &Program, class: ClassId, at: usize) -> bool
    ensures { result ≡ can_inherit_field (program_view program.now)
        (record { class = class; at = at }) }
{
    match field_at(program, class, at) {
        None => false,
        Some(field) => match field.access {
            Access::Private => false,
            _ => true,
        },
    }
}

// The field of the name that a class has from one above it, or from itself.
fn field_in(program: &Program, own: ClassId, class: ClassId, name: NameId) -> Found
    ensures { found_seen result ≡ the_field_in (program_view program.now) name own class }
{
    let Some(at) = declared_field(program, class, name) else {
        return Found::Nothing;
    };
    if same_class(class, own) || can_inherit(program, class, at) {
        Found::One(class, at)
    } else {
        Found::Nothing
    }
}

/// The field that a name means in a class: none, one, or several where it is inherited from more than one place.
#[tactic(auto, using(crate::proofs::FieldWays::field_is))]
pub fn find_field(
    alloc: Global,
    program: &Program,
    class: ClassId,
    name: NameId,
) -> Result<Found, Memory>
    requires { IsAcyclic (program_view program.now) }
    ensures { IfOk result (λ found. found_seen found ≡
        the_find_field (program_view program.now) class name) }
{
    let owners = owners(alloc, program, class, name)?;
    let mut found = Found::Nothing;
    for owner in &owners {
        found = joined(found, field_in(program, class, *owner, name));
    }
    Ok(found)
}
