// The faults of fields.

ghost use Rattle.std.specs.Prelude.{◌≡◌, ◌||◌, ℕ, [], ◌++◌, List, OnOk, map};
ghost use Rattle.je_base.specs.declared.span.NameId.{NameId};
ghost use Rattle.je_ast.specs.Types.{type_view};
ghost use Rattle.je_ast.specs.View.{member_view, member_node_view, member_views_of, variable_views_of};
ghost use Rattle.je_scopes.specs.Headers.{is_interface_sort, same_name, site_at};
ghost use Rattle.je_scopes.specs.Sites.{has_static as has_static_word};
ghost use Rattle.je_scopes.specs.Source.{Source};
ghost use Rattle.je_scopes.specs.Members.{FieldSite, constant_site, field_sites, fields_before, fields_of, part_of, variable_sites};
ghost use Rattle.je_scopes.specs.Faults.{Fault, of_fields, twice, where_so};
ghost use Rattle.name_lookup.specs.View.{part_view};
ghost use Rattle.name_faults.specs.declared.faults.Faults.{Faults as TheFaults};
ghost use Rattle.name_faults.specs.View.{Adds};
ghost use Rattle.type_faults.specs.Program.{source_in};
ghost use Rattle.name_faults.specs.Met.{is_met};
ghost use Rattle.member_faults.specs.Progress.{FieldsLeft};

use crate::written::{constants_of, members_of};
use je_ast::{Identifier, Member, Modifier, TyName, Var};
use je_base::Memory;
use je_core::{ClassId, Sort};
use name_faults::{FaultKind, Faults, Met};
use name_lookup::{Part, Place};
use name_walk::has_static;
use type_faults::Program;

/// Finds the faults of the fields of a class, an enum's constants among them: an earlier one has the name, or the type has a
/// fault (JLS 8.3, 8.9, 9.3).
pub fn judge_fields(program: &Program, class: ClassId, faults: &mut Faults) -> Result<(), Memory>
    ensures { OnOk result (Adds faults.old faults.new
        (of_fields (source_in program.now) class.0 []
        (fields_of (source_in program.now) class.0))) }
{
    let written = program.sites.written(class);
    let mut met = Met::none(program.alloc);
    judge_constants(constants_of(written), &mut met, faults)?;
    judge_members(program, class, members_of(written), &mut met, faults)
}

// Meets the name of a field, and finds its fault, if an earlier one has it.
fn judge_name(name: Identifier, met: &mut Met, faults: &mut Faults) -> Result<(), Memory>
    ensures met { OnOk result
        ((x : NameId) → is_met met.new x ≡ (is_met met.old x || same_name name.name x)) }
    ensures faults { OnOk result
        (Adds faults.old faults.new (where_so (is_met met.old name.name) (twice name.span))) }
{
    let before = met.meet(name.name)?;
    faults.add_where(before, FaultKind::Twice, name.span);
    Ok(())
}

// Finds the faults of an enum's constants.
fn judge_constants(
    constants: &[Identifier],
    met: &mut Met,
    faults: &mut Faults,
) -> Result<(), Memory>
    ensures { OnOk result
        ((p : Source) (c : ℕ) (rest : List FieldSite) (start : TheFaults) (whole : List Fault) →
        FieldsLeft p c start faults.old met.old (map constant_site constants.now ++ rest) whole →
        FieldsLeft p c start faults.new met.new rest whole) }
{
    for constant in constants {
        judge_name(*constant, met, faults)?;
    }
    Ok(())
}

// Finds the faults of the fields among members.
fn judge_members(
    program: &Program,
    class: ClassId,
    members: &[Member],
    met: &mut Met,
    faults: &mut Faults,
) -> Result<(), Memory>
    ensures { OnOk result ((start : TheFaults) (whole : List Fault) →
        FieldsLeft (source_in program.now) class.0 start faults.old met.old
        (field_sites (member_views_of members.now)) whole →
        FieldsLeft (source_in program.now) class.0 start faults.new met.new [] whole) }
{
    for member in members {
        judge_member(program, class, member, met, faults)?;
    }
    Ok(())
}

#[tactic(auto, using(je_ast::proofs::Views::member_is))]
fn judge_member(
    program: &Program,
    class: ClassId,
    member: &Member,
    met: &mut Met,
    faults: &mut Faults,
) -> Result<(), Memory>
    ensures { OnOk result ((rest : List FieldSite) (start : TheFaults) (whole : List Fault) →
        FieldsLeft (source_in program.now) class.0 start faults.old met.old
        (fields_before (member_view member.now) rest) whole →
        FieldsLeft (source_in program.now) class.0 start faults.new met.new rest whole) }
{
    judge_member_here(program, class, member, met, faults)
}

fn judge_member_here(
    program: &Program,
    class: ClassId,
    member: &Member,
    met: &mut Met,
    faults: &mut Faults,
) -> Result<(), Memory>
    ensures { OnOk result ((rest : List FieldSite) (start : TheFaults) (whole : List Fault) →
        FieldsLeft (source_in program.now) class.0 start faults.old met.old
        (fields_before (member_node_view member.now) rest) whole →
        FieldsLeft (source_in program.now) class.0 start faults.new met.new rest whole) }
{
    match member {
        Member::Field {
            modifiers,
            ty,
            vars,
            ..
        } => judge_variables(program, class, modifiers, ty, vars, met, faults),
        Member::Type { .. }
        | Member::Method { .. }
        | Member::Constructor { .. }
        | Member::Initializer { .. } => Ok(()),
    }
}

// Finds the faults of fields that are declared together. Their type is judged once.
fn judge_variables(
    program: &Program,
    class: ClassId,
    modifiers: &[Modifier],
    ty: &TyName,
    vars: &[Var],
    met: &mut Met,
    faults: &mut Faults,
) -> Result<(), Memory>
    ensures { OnOk result ((rest : List FieldSite) (start : TheFaults) (whole : List Fault) →
        FieldsLeft (source_in program.now) class.0 start faults.old met.old
        (variable_sites modifiers.now (type_view ty.now) (variable_views_of vars.now)
        ++ rest) whole →
        FieldsLeft (source_in program.now) class.0 start faults.new met.new rest whole) }
{
    if vars.is_empty() {
        return Ok(());
    }
    let part = field_part(program, class, modifiers);
    program.judge_type(Place { class, part }, ty, faults)?;
    for var in vars {
        judge_name(var.name, met, faults)?;
    }
    Ok(())
}

// The part of a class that a field with these modifiers is; a field of an interface is static (JLS 9.3).
fn field_part(program: &Program, class: ClassId, modifiers: &[Modifier]) -> Part
    ensures { part_view result ≡
        part_of (is_interface_sort (site_at (source_in program.now).sites class.0).sort
        || has_static_word modifiers.now) }
{
    let is_interface = matches!(program.sites.sort(class), Sort::Interface);
    if is_interface || has_static(modifiers) {
        Part::StaticMember
    } else {
        Part::Member
    }
}
