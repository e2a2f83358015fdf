// The faults of type parameters.

ghost use Rattle.std.specs.Prelude.{◌≡◌, ◌||◌, ◌++◌, OnOk};
ghost use Rattle.je_base.specs.declared.span.NameId.{NameId};
ghost use Rattle.je_ast.specs.Types.{type_view_of_option};
ghost use Rattle.je_scopes.specs.Headers.{same_name};
ghost use Rattle.je_scopes.specs.Scope.{header};
ghost use Rattle.je_scopes.specs.Faults.{cycle_in_bound, of_optional_type, of_parameters, twice, where_so};
ghost use Rattle.name_faults.specs.Met.{is_met};
ghost use Rattle.name_faults.specs.View.{Adds};
ghost use Rattle.type_faults.specs.Program.{source_in};

use crate::bounds::{bound_variables, leads_back};
use je_ast::{TyName, TypeParam};
use je_base::Memory;
use je_core::ClassId;
use name_faults::{FaultKind, Faults, Met};
use name_lookup::{Part, Place};
use name_types::name_span;
use type_faults::Program;

/// Finds the faults of the type parameters of a class: an earlier one has the name, or the bound has a fault or leads back to
/// the variable (JLS 4.4, 8.1.2).
pub fn judge_parameters(
    program: &Program,
    class: ClassId,
    faults: &mut Faults,
) -> Result<(), Memory>
    ensures { OnOk result
        (Adds faults.old faults.new (of_parameters (source_in program.now) class.0)) }
{
    let parameters = program.sites.parameters(class);
    let next = bound_variables(program, class, parameters)?;
    let mut met = Met::none(program.alloc);
    for (at, parameter) in parameters.iter().enumerate() {
        let back = leads_back(next.as_slice(), at);
        judge_parameter(program, class, parameter, back, &mut met, faults)?;
    }
    Ok(())
}

// Meets the name of a type parameter, and finds its faults. `back` says whether its bound leads back to it.
fn judge_parameter(
    program: &Program,
    class: ClassId,
    parameter: &TypeParam,
    back: bool,
    met: &mut Met,
    faults: &mut Faults,
) -> Result<(), Memory>
    ensures met { OnOk result
        ((x : NameId) → is_met met.new x ≡
        (is_met met.old x || same_name parameter.now.name.name x)) }
    ensures faults { OnOk result (Adds faults.old faults.new
        (where_so (is_met met.old parameter.now.name.name) (twice parameter.now.name.span)
        ++ of_optional_type (source_in program.now) class.0 header
        (type_view_of_option parameter.now.bound)
        ++ cycle_in_bound back (type_view_of_option parameter.now.bound))) }
{
    let before = met.meet(parameter.name.name)?;
    faults.add_where(before, FaultKind::Twice, parameter.name.span);
    let part = Part::Header;
    program.judge_optional_type(Place { class, part }, &parameter.bound, faults)?;
    judge_cycle(back, &parameter.bound, faults);
    Ok(())
}

// Finds the fault of a bound that leads back.
fn judge_cycle(back: bool, bound: &Option<TyName>, faults: &mut Faults)
    ensures { Adds faults.old faults.new (cycle_in_bound back (type_view_of_option bound.now)) }
{
    if let Some(ty) = bound {
        faults.add_where(back, FaultKind::Cycle, name_span(ty));
    }
}
