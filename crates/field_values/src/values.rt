// The values that are written of fields.

ghost use Rattle.std.specs.Prelude.{◌≡◌, ◌++◌, IfOk, List, OnOk, map, replicate};
ghost use Rattle.class_typing.specs.ConstantFields.{FieldValue as TheValue, field_value, member_values, unwritten};
ghost use Rattle.class_typing.specs.ConstantFields.{value_of as the_value_of, values_before, variable_values};
ghost use Rattle.class_typing.specs.ConstantFields.{written_values};
ghost use Rattle.je_ast.specs.View.{member_node_view, member_view, member_views_of, variable_view, variable_views_of};
ghost use Rattle.name_sites.specs.View.{source_of};
ghost use Rattle.name_typing.specs.Program.{Program};
ghost use Rattle.name_walk.specs.View.{written_view};
ghost use Rattle.field_values.specs.Values.{count_at, value_at, value_seen};

use crate::counts::count_of;
use je_ast::{Expr, Member, Var};
use je_base::Memory;
use je_core::ClassId;
use member_faults::{constants_of, members_of};
use name_sites::Sites;
use name_walk::Written;
use std::alloc::Global;

/// What a source writes as the value of a field.
#[derive(Clone, Copy)]
pub enum FieldValue<'a> {
    /// The source doesn't write the field: it is a hidden one, or a constant of an enum.
    Unwritten,
    /// The field has no initializer.
    NoValue,
    /// Its initializer.
    By(&'a Expr),
}

// So many fields that the source doesn't write.
fn add_unwritten(count: usize, values: &mut Vec<FieldValue>) -> Result<(), Memory>
    ensures { OnOk result (map value_seen values.new.items ≡
        map value_seen values.old.items ++ replicate count unwritten) }
{
    for _ in 0..count {
        values.push(FieldValue::Unwritten)?;
    }
    Ok(())
}

fn value_of(var: &Var) -> FieldValue<'_>
    ensures { value_seen result ≡ the_value_of (variable_view var.now).init }
{
    match &var.init {
        Some(expr) => FieldValue::By(expr),
        None => FieldValue::NoValue,
    }
}

// Fields that are declared together.
fn add_variables<'a>(vars: &'a [Var], values: &mut Vec<FieldValue<'a>>) -> Result<(), Memory>
    ensures { OnOk result (map value_seen values.new.items ≡
        map value_seen values.old.items ++ variable_values (variable_views_of vars.now)) }
{
    for var in vars {
        values.push(value_of(var))?;
    }
    Ok(())
}

#[tactic(auto, using(je_ast::proofs::Views::member_is))]
fn add_member<'a>(member: &'a Member, values: &mut Vec<FieldValue<'a>>) -> Result<(), Memory>
    ensures { OnOk result ((further : List TheValue) →
        map value_seen values.new.items ++ further ≡
        map value_seen values.old.items ++ values_before (member_view member.now) further) }
{
    add_member_here(member, values)
}

fn add_member_here<'a>(member: &'a Member, values: &mut Vec<FieldValue<'a>>) -> Result<(), Memory>
    ensures { OnOk result ((further : List TheValue) →
        map value_seen values.new.items ++ further ≡
        map value_seen values.old.items ++ values_before (member_node_view member.now) further) }
{
    match member {
        Member::Field { vars, .. } => add_variables(vars, values),
        Member::Type { .. }
        | Member::Method { .. }
        | Member::Constructor { .. }
        | Member::Initializer { .. } => Ok(()),
    }
}

fn add_members<'a>(members: &'a [Member], values: &mut Vec<FieldValue<'a>>) -> Result<(), Memory>
    ensures { OnOk result (map value_seen values.new.items ≡
        map value_seen values.old.items ++ member_values (member_views_of members.now)) }
{
    for member in members {
        add_member(member, values)?;
    }
    Ok(())
}

// Those of a class with so many hidden fields, which stand first.
fn field_values<'a>(
    alloc: Global,
    written: Written<'a>,
    hidden: usize,
) -> Result<Vec<FieldValue<'a>>, Memory>
    ensures { IfOk result (λ values. map value_seen values.items ≡
        replicate hidden unwritten ++ written_values (written_view written.entry)) }
{
    let mut values = Vec::new(alloc);
    add_unwritten(hidden, &mut values)?;
    add_unwritten(constants_of(written).len(), &mut values)?;
    add_members(members_of(written), &mut values)?;
    Ok(values)
}

/// The values that are written of the fields of each class, of which so many are hidden: these stand first, and behind
/// them an enum's constants.
pub fn all_field_values<'a>(
    alloc: Global,
    sites: &Sites<'a>,
    hidden: &[usize],
) -> Result<Vec<Vec<FieldValue<'a>>>, Memory>
    ensures { IfOk result (λ all. (p : Program) → p.source ≡ source_of sites.now →
        value_at all.items ≡ field_value p (count_at hidden.now)) }
{
    let mut all = Vec::new(alloc);
    for at in 0..sites.len() {
        let written = sites.written(ClassId(at as u32));
        all.push(field_values(alloc, written, count_of(hidden, at))?)?;
    }
    Ok(all)
}
