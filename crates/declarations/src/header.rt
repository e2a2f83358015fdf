// What a class itself declares.

ghost use Rattle.std.specs.Prelude.{◌≡◌, IfOk, map};
ghost use Rattle.je_ast.specs.Types.{type_view};
ghost use Rattle.je_scopes.specs.Headers.{is_interface_sort, parameters_in, site_at, within};
ghost use Rattle.je_scopes.specs.Scope.{header};
ghost use Rattle.je_scopes.specs.Settled.{heads_of};
ghost use Rattle.name_types.specs.View.{shown};
ghost use Rattle.type_faults.specs.Program.{source_in};
ghost use Rattle.declarations.specs.Declarations as declared;
ghost use Rattle.declarations.specs.View.{class_shown, parameter_shown};

use crate::class::{ClassDecl, ParameterDecl};
use crate::fields::fields_of;
use crate::methods::methods_of;
use crate::words::{access_of, has_abstract, has_final};
use je_ast::TyName;
use je_base::Memory;
use je_core::{Access, ClassId, Kind, Sort};
use name_lookup::{Part, Place};
use name_sites::is_local;
use name_types::{SrcTy, source_type};
use name_walk::Context;
use type_faults::Program;

/// What the class of a number declares; nothing, for a class of the library (JLS 8, 9).
#[tactic(auto, unfolding(crate::specs::Declarations::declared_class))]
pub fn declaration(program: &Program, class: ClassId) -> Result<ClassDecl, Memory>
    ensures { IfOk result
        (λ d. class_shown d ≡ declared.declared_class (source_in program.now) class.0) }
{
    Ok(ClassDecl {
        kind: kind_of(program, class),
        access: class_access(program, class),
        parameters: parameters_of(program, class)?,
        heads: heads_of(program, class)?,
        fields: fields_of(program, class)?,
        methods: methods_of(program, class)?,
    })
}

// JLS 8.1.1, 8.9, 9.1.1
fn kind_of(program: &Program, class: ClassId) -> Kind
    ensures { result ≡ declared.kind_of (site_at (source_in program.now).sites class.0) }
{
    let sort = program.sites.sort(class);
    let modifiers = program.sites.modifiers(class);
    Kind {
        sort,
        is_abstract: is_interface(sort) || has_abstract(modifiers),
        is_final: is_enum(sort) || has_final(modifiers),
        is_static: is_enum(sort) || is_static_member(program, class),
    }
}

fn is_interface(sort: Sort) -> bool
    ensures { result ≡ is_interface_sort sort }
{
    matches!(sort, Sort::Interface)
}

fn is_enum(sort: Sort) -> bool
    ensures { result ≡ declared.is_enum_sort sort }
{
    matches!(sort, Sort::Enum)
}

// Whether it is a member class without an enclosing instance.
fn is_static_member(program: &Program, class: ClassId) -> bool
    ensures { result ≡ declared.is_static_member (site_at (source_in program.now).sites class.0) }
{
    let outside = program.sites.outside(class);
    outside.within.is_some()
        && !is_local(program.sites.sort(class))
        && matches!(outside.context, Context::Static)
}

// Whether the class directly round a class, if there is one, is an interface.
fn is_in_interface(program: &Program, class: ClassId) -> bool
    ensures { result ≡ declared.in_interface (source_in program.now)
        (within (site_at (source_in program.now).sites class.0)) }
{
    match program.sites.outside(class).within {
        Some(within) => is_interface(program.sites.sort(within)),
        None => false,
    }
}

fn class_access(program: &Program, class: ClassId) -> Access
    ensures { result ≡ declared.class_access (source_in program.now)
        (site_at (source_in program.now).sites class.0) }
{
    let modifiers = program.sites.modifiers(class);
    let is_member = !is_local(program.sites.sort(class));
    access_of(is_member && is_in_interface(program, class), modifiers)
}

// A type in the header of a class.
fn header_type(program: &Program, class: ClassId, ty: &TyName) -> Result<SrcTy, Memory>
    ensures { IfOk result
        (λ t. shown t ≡ declared.type_at (source_in program.now) class.0 header
        (type_view ty.now)) }
{
    let place = Place {
        class,
        part: Part::Header,
    };
    source_type(program.headers, program.alloc, program.sites, place, ty)
}

fn parameters_of(program: &Program, class: ClassId) -> Result<Vec<ParameterDecl>, Memory>
    ensures { IfOk result (λ qs. map parameter_shown qs.items ≡
        map (declared.declared_parameter (source_in program.now) class.0)
        (parameters_in (site_at (source_in program.now).sites class.0).written)) }
{
    let mut parameters = Vec::new(program.alloc);
    for parameter in program.sites.parameters(class) {
        let bound = match &parameter.bound {
            Some(ty) => Some(header_type(program, class, ty)?),
            None => None,
        };
        parameters.push(ParameterDecl {
            name: parameter.name,
            bound,
        })?;
    }
    Ok(parameters)
}

fn heads_of(program: &Program, class: ClassId) -> Result<Vec<SrcTy>, Memory>
    ensures { IfOk result (λ ts. map shown ts.items ≡
        map (declared.type_at (source_in program.now) class.0 header)
        (heads_of (source_in program.now) class.0)) }
{
    let mut heads = Vec::new(program.alloc);
    let mut at = 0;
    while let Some(head) = program.sites.head(class, at) {
        heads.push(header_type(program, class, head)?)?;
        at += 1;
    }
    Ok(heads)
}
