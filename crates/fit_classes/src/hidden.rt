// The hidden fields of a program's own class: its outer instance, the locals that it captures, and an enum's name and place.

ghost use Rattle.std.specs.Prelude.{◌≡◌, ◌&&◌, not, IfOk, map, filter, take, drop, length};
ghost use Rattle.std.specs.List.{list_all};
ghost use Rattle.je_core.specs.Core.{CoreField};
ghost use Rattle.je_core.specs.View.{class_view, field_view};
ghost use Rattle.je_classes.specs.Subtypes.{same_types as the_same_types};
ghost use Rattle.je_fitting.specs.Classes.{is_hidden as the_is_hidden, hidden_fields, field_types, outer_type, enum_types as the_enum_types, handed_count as the_handed_count};
ghost use Rattle.je_fitting.specs.Expressions.{outer_count};
ghost use Rattle.je_fitting.specs.way.DecidingClasses.{is_hidden_fit};

use class_members::{is_hidden, same_type, same_types};
use fit_parts::{class_type, handed_count, of, string};
use je_core::{Base, Class, Field, Memory, Sort, Ty};
use std::alloc::Global;

// The types of the hidden fields among some, in order.
fn hidden_types(alloc: Global, fields: &[Field]) -> Result<Vec<Ty>, Memory>
    ensures { IfOk result
        (λ types. types.items ≡ field_types (filter the_is_hidden (map field_view fields.now))) }
{
    let mut types = Vec::new(alloc);
    for field in fields {
        if is_hidden(field) {
            types.push(field.ty)?;
        }
    }
    Ok(types)
}

// The types of an enum's own hidden fields; none of another class.
fn enum_types(alloc: Global, sort: Sort) -> Result<Vec<Ty>, Memory>
    ensures { IfOk result (λ types. types.items ≡ the_enum_types sort) }
{
    let mut types = Vec::new(alloc);
    match sort {
        Sort::Enum => {
            types.push(string())?;
            types.push(of(Base::Int))?;
            Ok(types)
        }
        _ => Ok(types),
    }
}

// Whether the first fields are hidden, so many of them.
fn begin_hidden(fields: &[Field], count: usize) -> bool
    ensures { result ≡ list_all the_is_hidden (take count (map field_view fields.now)) }
{
    let mut left = count;
    for field in fields {
        if left == 0 {
            return true;
        }
        if !is_hidden(field) {
            return false;
        }
        left -= 1;
    }
    true
}

// Whether the first field has the type of the outer instance, where there is one.
#[tactic(auto, using(crate::proofs::Outer::outer))]
fn outer_fits(class: &Class) -> bool
    ensures { result ≡ the_same_types
        (take (outer_count (class_view class.now).enclosing)
        (field_types (class_view class.now).fields))
        (outer_type (class_view class.now).enclosing) }
{
    let Some(outer) = class.enclosing else {
        return true;
    };
    match class.fields.first() {
        None => false,
        Some(field) => same_type(field.ty, class_type(outer)),
    }
}

// Whether the hidden fields are instance fields and final.
fn are_own_and_final(fields: &[Field]) -> bool
    ensures { result ≡ list_all (λ (f : CoreField). not f.is_static && f.is_final)
        (filter the_is_hidden (map field_view fields.now)) }
{
    for field in fields {
        if is_hidden(field) && (field.is_static || !field.is_final) {
            return false;
        }
    }
    true
}

/// Whether the hidden fields of a program's own class are those that it has to have.
pub fn hidden_fit(alloc: Global, class: &Class) -> Result<bool, Memory>
    ensures { IfOk result (λ fit. fit ≡ is_hidden_fit (class_view class.now)) }
{
    let handed = handed_count(class);
    let hidden = hidden_types(alloc, &class.fields)?;
    let of_enum = enum_types(alloc, class.kind.sort)?;
    if hidden.len() < handed || hidden.len() - handed != of_enum.len() {
        return Ok(false);
    }
    if !begin_hidden(&class.fields, handed) || !outer_fits(class) {
        return Ok(false);
    }
    if !same_types(&hidden[handed..], &of_enum) {
        return Ok(false);
    }
    Ok(are_own_and_final(&class.fields))
}
