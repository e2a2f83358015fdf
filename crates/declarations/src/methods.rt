// The methods and constructors that a class declares.

ghost use Rattle.std.specs.Prelude.{◌≡◌, ◌++◌, IfOk, List, OnOk, map, option_map};
ghost use Rattle.je_ast.specs.Types.{formal_view, name_view, type_view};
ghost use Rattle.je_ast.specs.View.{member_view, member_node_view, member_views_of};
ghost use Rattle.je_scopes.specs.Members.{MethodSite, method_part, methods_before, methods_of as the_methods_of};
ghost use Rattle.je_scopes.specs.Looks.{a_class};
ghost use Rattle.je_scopes.specs.SourceTypes.{no_source_types, type_for};
ghost use Rattle.name_lookup.specs.View.{look_view, part_view};
ghost use Rattle.name_types.specs.View.{base_shown, shown};
ghost use Rattle.type_faults.specs.Program.{source_in};
ghost use Rattle.declarations.specs.Declarations as declared;
ghost use Rattle.declarations.specs.View.{method_shown};
ghost use Rattle.declarations.specs.way.Trees.{site_of};

use crate::class::MethodDecl;
use crate::fields::is_in_interface;
use crate::words::{access_of, has_abstract, has_final, has_native};
use je_ast::{Formal, Identifier, Member, Modifier, Name, TyName};
use je_base::Memory;
use je_core::{Base, ClassId, Flags};
use member_faults::members_of;
use name_lookup::{Look, Part, Place};
use name_types::{SrcBase, SrcTy, arity, parameter_types, source_type};
use name_walk::has_static;
use type_faults::Program;

/// The head of a method or constructor, as it is written.
#[derive(Clone, Copy)]
struct MethodTree<'a> {
    is_constructor: bool,
    modifiers: &'a [Modifier],
    name: Identifier,
    result: Option<&'a TyName>,
    formals: &'a [Formal],
    throws: &'a [Name],
}

/// The methods and constructors of a class in order (JLS 8.4, 8.8, 9.4).
pub fn methods_of(program: &Program, class: ClassId) -> Result<Vec<MethodDecl>, Memory>
    ensures { IfOk result (λ ms. map method_shown ms.items ≡
        map (declared.declared_method (source_in program.now) class.0)
        (the_methods_of (source_in program.now) class.0)) }
{
    let mut methods = Vec::new(program.alloc);
    for member in members_of(program.sites.written(class)) {
        push_member(program, class, member, &mut methods)?;
    }
    Ok(methods)
}

#[tactic(auto, using(je_ast::proofs::Views::member_is))]
fn push_member(
    program: &Program,
    class: ClassId,
    member: &Member,
    methods: &mut Vec<MethodDecl>,
) -> Result<(), Memory>
    ensures { OnOk result ((rest : List MethodSite) →
        map method_shown methods.new.items
        ++ map (declared.declared_method (source_in program.now) class.0) rest ≡
        map method_shown methods.old.items
        ++ map (declared.declared_method (source_in program.now) class.0)
        (methods_before (member_view member.now) rest)) }
{
    push_member_here(program, class, member, methods)
}

fn push_member_here(
    program: &Program,
    class: ClassId,
    member: &Member,
    methods: &mut Vec<MethodDecl>,
) -> Result<(), Memory>
    ensures { OnOk result ((rest : List MethodSite) →
        map method_shown methods.new.items
        ++ map (declared.declared_method (source_in program.now) class.0) rest ≡
        map method_shown methods.old.items
        ++ map (declared.declared_method (source_in program.now) class.0)
        (methods_before (member_node_view member.now) rest)) }
{
    match member {
        Member::Method {
            modifiers,
            result,
            name,
            formals,
            throws,
            ..
        } => {
            let tree = MethodTree {
                is_constructor: false,
                modifiers,
                name: *name,
                result: result.as_ref(),
                formals,
                throws,
            };
            methods.push(method_decl(program, class, tree)?)?;
            Ok(())
        }
        Member::Constructor {
            modifiers,
            name,
            formals,
            throws,
            ..
        } => {
            let tree = MethodTree {
                is_constructor: true,
                modifiers,
                name: *name,
                result: None,
                formals,
                throws,
            };
            methods.push(method_decl(program, class, tree)?)?;
            Ok(())
        }
        Member::Type { .. } | Member::Field { .. } | Member::Initializer { .. } => Ok(()),
    }
}

fn method_decl(program: &Program, class: ClassId, tree: MethodTree) -> Result<MethodDecl, Memory>
    ensures { IfOk result (λ m. method_shown m ≡
        declared.declared_method (source_in program.now) class.0 (site_of tree.entry)) }
{
    let place = Place {
        class,
        part: part_of(tree),
    };
    Ok(MethodDecl {
        name: tree.name,
        is_constructor: tree.is_constructor,
        parameters: parameters_at(program, place, tree.formals)?,
        result: result_type(program, place, tree.result)?,
        throws: thrown_types(program, place, tree.throws)?,
        flags: flags_of(program, class, tree),
    })
}

// The types of parameters.
fn parameters_at(program: &Program, place: Place, formals: &[Formal]) -> Result<Vec<SrcTy>, Memory>
    ensures { IfOk result (λ ts. map shown ts.items ≡
        map (declared.parameter_type (source_in program.now) place.class.0 (part_view place.part))
        (map formal_view formals.now)) }
{
    parameter_types(
        program.headers,
        program.alloc,
        program.sites,
        place,
        formals,
    )
}

// The part of a class that a method or constructor is.
fn part_of(tree: MethodTree) -> Part
    ensures { part_view result ≡ method_part (site_of tree.entry) }
{
    if !tree.is_constructor && has_static(tree.modifiers) {
        Part::StaticMember
    } else {
        Part::Member
    }
}

// `void`, where no type is written.
fn result_type(program: &Program, place: Place, written: Option<&TyName>) -> Result<SrcTy, Memory>
    ensures { IfOk result (λ t. shown t ≡ declared.result_at (source_in program.now) place.class.0
        (part_view place.part) (option_map (λ w. type_view w.now) written.entry)) }
{
    match written {
        None => Ok(SrcTy {
            base: SrcBase::Plain(Base::Void),
            dims: 0,
        }),
        Some(ty) => source_type(program.headers, program.alloc, program.sites, place, ty),
    }
}

fn thrown_types(program: &Program, place: Place, names: &[Name]) -> Result<Vec<SrcTy>, Memory>
    ensures { IfOk result (λ ts. map shown ts.items ≡
        map (declared.thrown_type (source_in program.now) place.class.0 (part_view place.part))
        (map name_view names.now)) }
{
    let mut types = Vec::new(program.alloc);
    for name in names {
        types.push(thrown_type(program, place, name)?)?;
    }
    Ok(types)
}

// The type of a name that stands behind `throws`: the null type, where it means no class without type parameters and no
// variable.
fn thrown_type(program: &Program, place: Place, name: &Name) -> Result<SrcTy, Memory>
    ensures { IfOk result (λ t. shown t ≡ declared.thrown_type (source_in program.now) place.class.0
        (part_view place.part) (name_view name.now)) }
{
    let parts = name.parts.as_slice();
    let meant = program
        .headers
        .meaning(program.alloc, program.sites, place, parts)?;
    Ok(SrcTy {
        base: named(program, meant.look),
        dims: 0,
    })
}

// What a name without type arguments is a type of, by what it means.
fn named(program: &Program, look: Look) -> SrcBase
    ensures { base_shown result 0 ≡
        type_for (source_in program.now) (look_view look) 0 no_source_types 0 }
{
    match look {
        Look::Class(class) => class_named(program, class),
        Look::Variable(class, at) => SrcBase::Var(class, at),
        Look::Waits(_) => SrcBase::Plain(Base::Null),
        Look::Nothing => SrcBase::Plain(Base::Null),
        Look::Unclear => SrcBase::Plain(Base::Null),
    }
}

fn class_named(program: &Program, class: ClassId) -> SrcBase
    ensures { base_shown result 0 ≡
        type_for (source_in program.now) (a_class class.0) 0 no_source_types 0 }
{
    if arity(program.sites, class) == 0 {
        SrcBase::Plain(Base::Class(class))
    } else {
        SrcBase::Plain(Base::Null)
    }
}

fn flags_of(program: &Program, class: ClassId, tree: MethodTree) -> Flags
    ensures { result ≡ declared.flags_of (source_in program.now) class.0 (site_of tree.entry) }
{
    let in_interface = is_in_interface(program, class);
    Flags {
        is_static: has_static(tree.modifiers),
        is_final: has_final(tree.modifiers),
        is_abstract: !tree.is_constructor && (in_interface || has_abstract(tree.modifiers)),
        is_native: has_native(tree.modifiers),
        is_finalizer: is_finalizer(program, tree),
        access: access_of(in_interface, tree.modifiers),
    }
}

// Whether it is named `finalize` and has no parameters (JLS 12.6).
fn is_finalizer(program: &Program, tree: MethodTree) -> bool
    ensures { result ≡ declared.is_finalizer (source_in program.now) (site_of tree.entry) }
{
    !tree.is_constructor
        && tree.formals.is_empty()
        && program.sites.text(tree.name.name) == "finalize"
}
