// The type variables to which bounds lead.

ghost use Rattle.std.specs.Prelude.{◌≡◌, ℕ, IfOk, length, map};
ghost use Rattle.je_ast.specs.Types.{type_view, type_node_view, type_view_of_option, parameter_view};
ghost use Rattle.je_scopes.specs.Scope.{header};
ghost use Rattle.je_scopes.specs.Settled.{settled};
ghost use Rattle.je_scopes.specs.Source.{Source};
ghost use Rattle.je_scopes.specs.SourceTypes.{SourceTypes, source_type, type_for};
ghost use Rattle.je_scopes.specs.Faults.{variable_in as the_variable_in, variable_of_bound};
ghost use Rattle.name_lookup.specs.View.{look_view};
ghost use Rattle.type_faults.specs.Program.{source_in};
ghost use Rattle.name_judge.specs.way.Bounds.{bound_variables as the_bound_variables, leads, next_of as the_next_of};

use je_ast::{TyName, TypeParam};
use je_base::Memory;
use je_core::ClassId;
use name_lookup::{Look, Part, Place};
use type_faults::Program;

/// Of each type parameter of a class the variable of the class that its bound is, by its place; none, where it is another type
/// or there is no bound (JLS 4.4).
pub(crate) fn bound_variables(
    program: &Program,
    class: ClassId,
    parameters: &[TypeParam],
) -> Result<Vec<Option<usize>>, Memory>
    ensures { IfOk result (λ next. next.items ≡
        the_bound_variables (source_in program.now) class.0 (map parameter_view parameters.now)) }
{
    let mut next = Vec::new(program.alloc);
    for parameter in parameters {
        next.push(bound_variable(program, class, &parameter.bound)?)?;
    }
    Ok(next)
}

fn bound_variable(
    program: &Program,
    class: ClassId,
    bound: &Option<TyName>,
) -> Result<Option<usize>, Memory>
    ensures { IfOk result (λ at. at ≡
        variable_of_bound (source_in program.now) class.0 (type_view_of_option bound.now)) }
{
    match bound {
        Some(ty) => variable(program, class, ty),
        None => Ok(None),
    }
}

#[tactic(auto, using(je_ast::proofs::Views::type_is))]
fn variable(program: &Program, class: ClassId, ty: &TyName) -> Result<Option<usize>, Memory>
    ensures { IfOk result (λ at. at ≡ the_variable_in class.0
        (source_type (source_in program.now) (settled (source_in program.now)) class.0 header
        (type_view ty.now))) }
{
    variable_here(program, class, ty)
}

fn variable_here(program: &Program, class: ClassId, ty: &TyName) -> Result<Option<usize>, Memory>
    ensures { IfOk result (λ at. at ≡ the_variable_in class.0
        (source_type (source_in program.now) (settled (source_in program.now)) class.0 header
        (type_node_view ty.now))) }
{
    match ty {
        TyName::Primitive { .. } => Ok(None),
        TyName::Class { name, .. } => {
            let part = Part::Header;
            let meant = program.headers.meaning(
                program.alloc,
                program.sites,
                Place { class, part },
                name.parts.as_slice(),
            )?;
            Ok(variable_in(class, meant.look))
        }
    }
}

// The variable of a class that a name means, by its place.
fn variable_in(class: ClassId, look: Look) -> Option<usize>
    ensures { (p : Source) (arguments : ℕ) (ts : SourceTypes) (dims : ℕ) →
        result ≡ the_variable_in class.0 (type_for p (look_view look) arguments ts dims) }
{
    match look {
        Look::Variable(declared_in, at) => {
            if class.0 == declared_in.0 {
                Some(at)
            } else {
                None
            }
        }
        Look::Class(_) | Look::Waits(_) | Look::Nothing | Look::Unclear => None,
    }
}

/// Whether bounds lead from a variable back to it.
pub(crate) fn leads_back(next: &[Option<usize>], at: usize) -> bool
    ensures { result ≡ leads next.now (length next.now) (the_next_of next.now at) at }
{
    let mut steps = next.len();
    let mut further = next_of(next, at);
    while let Some(place) = further {
        if place == at {
            return true;
        }
        if steps == 0 {
            return false;
        }
        steps -= 1;
        further = next_of(next, place);
    }
    false
}

fn next_of(next: &[Option<usize>], at: usize) -> Option<usize>
    ensures { result ≡ the_next_of next.now at }
{
    match next.get(at) {
        Some(next) => *next,
        None => None,
    }
}
