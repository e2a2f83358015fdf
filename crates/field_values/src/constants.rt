// Constant variables of the library, and constants by class (JLS 4.12.4).

ghost use Rattle.std.specs.Prelude.{◌≡◌, ◌↔◌, ◌++◌, None, IfOk, IsTrue, OnOk, map, option_map, replicate};
ghost use Rattle.body_places.specs.Tables.{constant_at, constant_seen};
ghost use Rattle.class_typing.specs.ConstantFields.{constant_in as the_constant_in, constants_shifted};
ghost use Rattle.class_typing.specs.ConstantFields.{library_constants as the_library_constants};
ghost use Rattle.je_core.specs.View.{class_view, field_view, form_view};
ghost use Rattle.je_scopes.specs.Headers.{site_at};
ghost use Rattle.library_classes.specs.Library.{all_due};
ghost use Rattle.library_classes.specs.Numbers.{number_in};
ghost use Rattle.name_sites.specs.View.{source_of};
ghost use Rattle.field_values.specs.Values.{count_at};
ghost use Rattle.field_values.specs.way.Library.{constant_kept, constants_due};

use crate::counts::count_of;
use body_places::Constant;
use je_base::Memory;
use je_core::{Class, ClassId, Field, Form};
use name_sites::Sites;
use name_walk::Written;
use std::alloc::Global;
use text_members::{copied, is_same_text};

/// Whether two constants are the same.
pub fn is_same_constant(one: &Constant, other: &Constant) -> bool
    ensures { IsTrue result ↔ (constant_seen one.now ≡ constant_seen other.now) }
{
    match (one, other) {
        (Constant::Value(value), Constant::Value(other)) => value == other,
        (Constant::Text(units), Constant::Text(other)) => {
            is_same_text(units.as_slice(), other.as_slice())
        }
        (Constant::Value(_), Constant::Text(_)) | (Constant::Text(_), Constant::Value(_)) => false,
    }
}

// The constant of a node that is one.
fn constant_in(alloc: Global, form: &Form) -> Result<Option<Constant>, Memory>
    ensures { IfOk result (λ constant. option_map constant_seen constant ≡
        the_constant_in (form_view form.now)) }
{
    match form {
        Form::Const { value, .. } => Ok(Some(Constant::Value(*value))),
        Form::Text { units, .. } => {
            let units = copied(alloc, units.as_slice())?;
            Ok(Some(Constant::Text(units)))
        }
        _ => Ok(None),
    }
}

#[tactic(auto, using(je_core::proofs::Views::form_of_view))]
fn constant_of(alloc: Global, field: &Field) -> Result<Option<Constant>, Memory>
    ensures { IfOk result (λ constant. option_map constant_seen constant ≡
        constant_kept (field_view field.now)) }
{
    match &field.constant {
        Some(node) => constant_in(alloc, &node.form),
        None => Ok(None),
    }
}

fn constants_of(alloc: Global, fields: &[Field]) -> Result<Vec<Option<Constant>>, Memory>
    ensures { IfOk result (λ constants. map (option_map constant_seen) constants.items ≡
        map constant_kept (map field_view fields.now)) }
{
    let mut constants = Vec::new(alloc);
    for field in fields {
        constants.push(constant_of(alloc, field)?)?;
    }
    Ok(constants)
}

// Those of a class of the library; none of a class of the program.
fn library_constants_of(
    alloc: Global,
    sites: &Sites,
    class: ClassId,
    fields: &[Field],
) -> Result<Vec<Option<Constant>>, Memory>
    ensures { IfOk result (λ constants. map (option_map constant_seen) constants.items ≡
        constants_due (site_at (source_of sites.now).sites class.0).written
        (map field_view fields.now)) }
{
    match sites.written(class) {
        Written::Library => constants_of(alloc, fields),
        Written::Declared { .. } | Written::Anonymous { .. } => Ok(Vec::new(alloc)),
    }
}

/// The constants among the fields of the library, by its classes; fields of a program's classes are none of them.
#[tactic(auto, using(crate::proofs::Library::few_classes))]
pub fn library_constants(
    alloc: Global,
    library: &[Class],
    sites: &Sites,
) -> Result<Vec<Vec<Option<Constant>>>, Memory>
    requires { map class_view library.now ≡ all_due (number_in (source_of sites.now).texts) }
    ensures { IfOk result (λ all. constant_at all.items ≡
        the_library_constants (source_of sites.now)) }
{
    let mut all = Vec::new(alloc);
    for (at, class) in library.iter().enumerate() {
        let number = ClassId(at as u32);
        all.push(library_constants_of(alloc, sites, number, &class.fields)?)?;
    }
    Ok(all)
}

// So many fields more in front, none of which is a constant.
fn put_before(count: usize, constants: &mut Vec<Option<Constant>>) -> Result<(), Memory>
    ensures { OnOk result (constants.new.items ≡ replicate count None ++ constants.old.items) }
{
    for _ in 0..count {
        constants.push(None)?;
    }
    constants.rotate_right(count);
    Ok(())
}

/// Constants where each class has so many fields more in front.
pub fn shifted(
    more: &[usize],
    mut constants: Vec<Vec<Option<Constant>>>,
) -> Result<Vec<Vec<Option<Constant>>>, Memory>
    ensures { IfOk result (λ all. constant_at all.items ≡
        constants_shifted (count_at more.now) (constant_at constants.items)) }
{
    for at in 0..constants.len() {
        put_before(count_of(more, at), &mut constants[at])?;
    }
    Ok(constants)
}
