// The faults of methods and constructors.

ghost use Rattle.std.specs.Prelude.{◌≡◌, [], ◌∷◌, List, OnOk, map, option_map};
ghost use Rattle.std.specs.List.{flat_map};
ghost use Rattle.je_ast.specs.Types.{formal_view, name_view, type_view};
ghost use Rattle.je_ast.specs.View.{member_view, member_node_view, member_views_of};
ghost use Rattle.je_scopes.specs.Sites.{has_static as has_static_word};
ghost use Rattle.je_scopes.specs.Members.{MethodSite, method_sites, methods_before, methods_of, part_of};
ghost use Rattle.je_scopes.specs.Faults.{Fault, of_formal, of_methods, of_optional_type, of_thrown};
ghost use Rattle.name_lookup.specs.View.{part_view};
ghost use Rattle.name_faults.specs.declared.faults.Faults.{Faults as TheFaults};
ghost use Rattle.name_faults.specs.View.{Adds};
ghost use Rattle.type_faults.specs.Program.{source_in};
ghost use Rattle.name_judge.specs.way.Progress.{IsMethod, MethodsLeft};

use crate::met::{MethodHead, Signatures};
use je_ast::{Formal, Member, Modifier, Name, TyName};
use je_base::{Memory, Span};
use je_core::ClassId;
use member_faults::members_of;
use name_faults::{FaultKind, Faults};
use name_lookup::{Part, Place};
use name_walk::has_static;
use type_faults::Program;

/// A method or constructor without its body.
#[derive(Clone, Copy)]
pub(crate) struct Method<'a> {
    /// What its signature is made of.
    pub head: MethodHead<'a>,
    /// Where its name is written.
    pub span: Span,
    /// None for `void`, and for a constructor.
    pub result: Option<&'a TyName>,
    pub throws: &'a [Name],
}

/// Finds the faults of the methods and constructors of a class: an earlier one has the signature, or the result, a parameter's
/// type or what is thrown has a fault (JLS 8.4, 8.8, 9.4).
pub fn judge_methods(program: &Program, class: ClassId, faults: &mut Faults) -> Result<(), Memory>
    ensures { OnOk result (Adds faults.old faults.new
        (of_methods (source_in program.now) class.0 []
        (methods_of (source_in program.now) class.0))) }
{
    let mut met = Signatures::new(program.alloc);
    let members = members_of(program.sites.written(class));
    judge_members(program, class, members, &mut met, faults)
}

// Finds the faults of the methods and constructors among members.
fn judge_members(
    program: &Program,
    class: ClassId,
    members: &[Member],
    met: &mut Signatures,
    faults: &mut Faults,
) -> Result<(), Memory>
    ensures { OnOk result ((start : TheFaults) (whole : List Fault) →
        MethodsLeft (source_in program.now) class.0 start faults.old met.old
        (method_sites (member_views_of members.now)) whole →
        MethodsLeft (source_in program.now) class.0 start faults.new met.new [] whole) }
{
    for member in members {
        judge_member(program, class, member, met, faults)?;
    }
    Ok(())
}

#[tactic(auto, using(je_ast::proofs::Views::member_is))]
fn judge_member(
    program: &Program,
    class: ClassId,
    member: &Member,
    met: &mut Signatures,
    faults: &mut Faults,
) -> Result<(), Memory>
    ensures { OnOk result ((rest : List MethodSite) (start : TheFaults) (whole : List Fault) →
        MethodsLeft (source_in program.now) class.0 start faults.old met.old
        (methods_before (member_view member.now) rest) whole →
        MethodsLeft (source_in program.now) class.0 start faults.new met.new rest whole) }
{
    judge_member_here(program, class, member, met, faults)
}

fn judge_member_here(
    program: &Program,
    class: ClassId,
    member: &Member,
    met: &mut Signatures,
    faults: &mut Faults,
) -> Result<(), Memory>
    ensures { OnOk result ((rest : List MethodSite) (start : TheFaults) (whole : List Fault) →
        MethodsLeft (source_in program.now) class.0 start faults.old met.old
        (methods_before (member_node_view member.now) rest) whole →
        MethodsLeft (source_in program.now) class.0 start faults.new met.new rest whole) }
{
    match member {
        Member::Method {
            modifiers,
            result,
            name,
            formals,
            throws,
            ..
        } => {
            let place = Place {
                class,
                part: method_part(modifiers),
            };
            let head = MethodHead {
                place,
                is_constructor: false,
                name: name.name,
                formals,
            };
            let method = Method {
                head,
                span: name.span,
                result: result.as_ref(),
                throws,
            };
            judge_method(program, &method, met, faults)
        }
        Member::Constructor {
            name,
            formals,
            throws,
            ..
        } => {
            let place = Place {
                class,
                part: Part::Member,
            };
            let head = MethodHead {
                place,
                is_constructor: true,
                name: name.name,
                formals,
            };
            let method = Method {
                head,
                span: name.span,
                result: None,
                throws,
            };
            judge_method(program, &method, met, faults)
        }
        Member::Type { .. } | Member::Field { .. } | Member::Initializer { .. } => Ok(()),
    }
}

// The part of a class that a method with these modifiers is.
fn method_part(modifiers: &[Modifier]) -> Part
    ensures { part_view result ≡ part_of (has_static_word modifiers.now) }
{
    if has_static(modifiers) {
        Part::StaticMember
    } else {
        Part::Member
    }
}

// Meets the signature of a method or constructor, and finds its faults.
fn judge_method(
    program: &Program,
    method: &Method,
    met: &mut Signatures,
    faults: &mut Faults,
) -> Result<(), Memory>
    ensures { OnOk result ((m : MethodSite) (rest : List MethodSite) (start : TheFaults)
        (whole : List Fault) → IsMethod method.now m →
        MethodsLeft (source_in program.now) method.now.head.place.class.0 start faults.old met.old
        (m ∷ rest) whole →
        MethodsLeft (source_in program.now) method.now.head.place.class.0 start faults.new met.new
        rest whole) }
{
    let repeats = met.add(program.alloc, program.headers, program.sites, method.head)?;
    faults.add_where(repeats, FaultKind::Twice, method.span);
    judge_result(program, method.head.place, method.result, faults)?;
    judge_formals(program, method.head.place, method.head.formals, faults)?;
    judge_throws(program, method.head.place, method.throws, faults)
}

fn judge_result(
    program: &Program,
    place: Place,
    result_type: Option<&TyName>,
    faults: &mut Faults,
) -> Result<(), Memory>
    ensures { OnOk result (Adds faults.old faults.new
        (of_optional_type (source_in program.now) place.class.0 (part_view place.part)
        (option_map (λ t. type_view t.now) result_type.entry))) }
{
    match result_type {
        Some(ty) => program.judge_type(place, ty, faults),
        None => Ok(()),
    }
}

// Finds the faults of the types of parameters.
fn judge_formals(
    program: &Program,
    place: Place,
    formals: &[Formal],
    faults: &mut Faults,
) -> Result<(), Memory>
    ensures { OnOk result (Adds faults.old faults.new
        (flat_map (of_formal (source_in program.now) place.class.0 (part_view place.part))
        (map formal_view formals.now))) }
{
    for formal in formals {
        program.judge_type(place, &formal.ty, faults)?;
    }
    Ok(())
}

// Finds the faults of the names of exceptions.
fn judge_throws(
    program: &Program,
    place: Place,
    throws: &[Name],
    faults: &mut Faults,
) -> Result<(), Memory>
    ensures { OnOk result (Adds faults.old faults.new
        (flat_map (of_thrown (source_in program.now) place.class.0 (part_view place.part))
        (map name_view throws.now))) }
{
    for name in throws {
        program.judge_name(place, name, 0, faults)?;
    }
    Ok(())
}
