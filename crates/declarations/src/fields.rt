// The fields that a class declares.

ghost use Rattle.std.specs.Prelude.{◌≡◌, ◌++◌, IfOk, List, OnOk, Some, map};
ghost use Rattle.je_ast.specs.Types.{type_view};
ghost use Rattle.je_ast.specs.View.{member_view, member_node_view, member_views_of, variable_views_of};
ghost use Rattle.je_scopes.specs.Members.{FieldSite, constant_site, field_sites, fields_before, fields_of as the_fields_of, variable_sites};
ghost use Rattle.je_scopes.specs.Source.{Source};
ghost use Rattle.je_scopes.specs.Settled.{settled};
ghost use Rattle.je_scopes.specs.SourceTypes.{source_type as the_source_type, with_dims};
ghost use Rattle.name_lookup.specs.View.{part_view};
ghost use Rattle.name_types.specs.View.{in_limit, shown};
ghost use Rattle.type_faults.specs.Program.{source_in};
ghost use Rattle.declarations.specs.Declarations.{declared_field, is_in_interface as is_of_interface};
ghost use Rattle.declarations.specs.View.{field_shown};

use crate::class::FieldDecl;
use crate::words::{access_of, has_final};
use je_ast::{Identifier, Member, Modifier, TyName, Var};
use je_base::Memory;
use je_core::{Access, Base, ClassId, Sort};
use member_faults::{constants_of, members_of};
use name_lookup::{Part, Place};
use name_types::{SrcBase, SrcTy, source_type};
use name_walk::has_static;
use type_faults::Program;

/// The fields of a class in order, an enum's constants among them (JLS 8.3, 8.9, 9.3).
pub fn fields_of(program: &Program, class: ClassId) -> Result<Vec<FieldDecl>, Memory>
    ensures { IfOk result (λ fs. map field_shown fs.items ≡
        map (declared_field (source_in program.now) class.0)
        (the_fields_of (source_in program.now) class.0)) }
{
    let written = program.sites.written(class);
    let mut fields = Vec::new(program.alloc);
    push_constants(class, constants_of(written), &mut fields)?;
    push_fields(program, class, members_of(written), &mut fields)?;
    Ok(fields)
}

// An enum's constants are of the enum, public, static and final (JLS 8.9).
fn push_constants(
    class: ClassId,
    constants: &[Identifier],
    fields: &mut Vec<FieldDecl>,
) -> Result<(), Memory>
    ensures { OnOk result ((p : Source) → map field_shown fields.new.items ≡
        map field_shown fields.old.items
        ++ map (declared_field p class.0) (map constant_site constants.now)) }
{
    for constant in constants {
        fields.push(constant_decl(class, *constant))?;
    }
    Ok(())
}

fn constant_decl(class: ClassId, name: Identifier) -> FieldDecl
    ensures { (p : Source) → field_shown result ≡ declared_field p class.0 (constant_site name) }
{
    FieldDecl {
        name,
        ty: SrcTy {
            base: SrcBase::Plain(Base::Class(class)),
            dims: 0,
        },
        is_static: true,
        is_final: true,
        access: Access::Public,
    }
}

fn push_fields(
    program: &Program,
    class: ClassId,
    members: &[Member],
    fields: &mut Vec<FieldDecl>,
) -> Result<(), Memory>
    ensures { OnOk result (map field_shown fields.new.items ≡ map field_shown fields.old.items
        ++ map (declared_field (source_in program.now) class.0)
        (field_sites (member_views_of members.now))) }
{
    for member in members {
        push_member(program, class, member, fields)?;
    }
    Ok(())
}

#[tactic(auto, using(je_ast::proofs::Views::member_is))]
fn push_member(
    program: &Program,
    class: ClassId,
    member: &Member,
    fields: &mut Vec<FieldDecl>,
) -> Result<(), Memory>
    ensures { OnOk result ((rest : List FieldSite) →
        map field_shown fields.new.items
        ++ map (declared_field (source_in program.now) class.0) rest ≡
        map field_shown fields.old.items
        ++ map (declared_field (source_in program.now) class.0)
        (fields_before (member_view member.now) rest)) }
{
    push_member_here(program, class, member, fields)
}

fn push_member_here(
    program: &Program,
    class: ClassId,
    member: &Member,
    fields: &mut Vec<FieldDecl>,
) -> Result<(), Memory>
    ensures { OnOk result ((rest : List FieldSite) →
        map field_shown fields.new.items
        ++ map (declared_field (source_in program.now) class.0) rest ≡
        map field_shown fields.old.items
        ++ map (declared_field (source_in program.now) class.0)
        (fields_before (member_node_view member.now) rest)) }
{
    match member {
        Member::Field {
            modifiers,
            ty,
            vars,
            ..
        } => push_variables(program, class, modifiers, ty, vars, fields),
        Member::Type { .. }
        | Member::Method { .. }
        | Member::Constructor { .. }
        | Member::Initializer { .. } => Ok(()),
    }
}

// Fields that are declared together.
fn push_variables(
    program: &Program,
    class: ClassId,
    modifiers: &[Modifier],
    ty: &TyName,
    vars: &[Var],
    fields: &mut Vec<FieldDecl>,
) -> Result<(), Memory>
    ensures { OnOk result (map field_shown fields.new.items ≡ map field_shown fields.old.items
        ++ map (declared_field (source_in program.now) class.0)
        (variable_sites modifiers.now (type_view ty.now) (variable_views_of vars.now))) }
{
    for var in vars {
        fields.push(field_decl(program, class, modifiers, ty, var)?)?;
    }
    Ok(())
}

fn field_decl(
    program: &Program,
    class: ClassId,
    modifiers: &[Modifier],
    ty: &TyName,
    var: &Var,
) -> Result<FieldDecl, Memory>
    ensures { IfOk result
        (λ f. field_shown f ≡ declared_field (source_in program.now) class.0 (record {
          name = var.now.name;
          modifiers = modifiers.now;
          written = Some (type_view ty.now);
          dims = var.now.dims;
        })) }
{
    let in_interface = is_in_interface(program, class);
    let is_static = in_interface || has_static(modifiers);
    let part = if is_static {
        Part::StaticMember
    } else {
        Part::Member
    };
    Ok(FieldDecl {
        name: var.name,
        ty: field_type(program, Place { class, part }, ty, var.dims)?,
        is_static,
        is_final: in_interface || has_final(modifiers),
        access: access_of(in_interface, modifiers),
    })
}

// A type at a place, and so many dimensions behind a name, 255 in all at most.
fn field_type(program: &Program, place: Place, ty: &TyName, dims: usize) -> Result<SrcTy, Memory>
    ensures { IfOk result (λ t. shown t ≡ in_limit (with_dims
        (the_source_type (source_in program.now) (settled (source_in program.now)) place.class.0
        (part_view place.part)
        (type_view ty.now)) dims)) }
{
    let declared = source_type(program.headers, program.alloc, program.sites, place, ty)?;
    Ok(SrcTy {
        base: declared.base,
        dims: (declared.dims as usize).saturating_add(dims).min(255) as u8,
    })
}

/// Whether a class is an interface.
pub fn is_in_interface(program: &Program, class: ClassId) -> bool
    ensures { result ≡ is_of_interface (source_in program.now) class.0 }
{
    matches!(program.sites.sort(class), Sort::Interface)
}
