// Units in memory: names, types and flow.

ghost use Rattle.std.specs.Prelude.{◌≡◌, ◌<◌, ◌≤◌, ◌^◌, IfErr, IfOk, OnOk, length, map};
ghost use Rattle.class_typing.specs.Elaboration.{elaborated};
ghost use Rattle.je_ast.specs.View.{unit_view};
ghost use Rattle.je_core.specs.View.{program_view};
ghost use Rattle.je_flow.specs.Flow.{Flows};
ghost use Rattle.je_names.specs.Scopes.{AreScopesOf};
ghost use Rattle.je_scopes.specs.Source.{source};
ghost use Rattle.je_typing.specs.Judged.{gives};
ghost use Rattle.name_walk.specs.Sizes.{units_size};
ghost use Rattle.source_units.specs.Faults.{IsRefusal};
ghost use Rattle.source_programs.specs.Findings.{IsFirstFinding, IsFlowFinding, IsNameFinding, IsProgramOf};
ghost use Rattle.source_programs.specs.Findings.{IsTypeFinding, from_types};

use host_text::{Finding, Rule};
use je_ast::Unit;
use je_base::{Memory, Names};
use je_core::Program;
use je_flow::flow;
use je_names::{Scopes, declare};
use source_units::Refusal;
use std::alloc::Global;
use type_decl::elab;

// What the units declare, or the first fault of a name.
fn scopes_of<'a>(alloc: Global, units: &'a [Unit], names: &'a Names) -> Result<Scopes<'a>, Refusal>
    requires small { units_size (map unit_view units.now) ≤ 2 ^ 26 }
    requires few_names { length names.now < 2 ^ 32 }
    ensures ok { IfOk result (AreScopesOf (source names.now (map unit_view units.now))) }
    ensures err { IfErr result (IsRefusal (IsNameFinding
        (source names.now (map unit_view units.now)))) }
{
    match declare(alloc, units, names) {
        Ok(scopes) => Ok(scopes),
        Err(je_names::Refusal::Memory) => Err(Refusal::Memory),
        Err(je_names::Refusal::Fault(fault)) => Err(Refusal::Fault(Finding {
            rule: Rule::Name(fault.kind),
            span: fault.span,
        })),
    }
}

// A fault of a type as a finding.
fn told(refusal: je_typing::Refusal) -> Refusal
    ensures { result ≡ from_types refusal }
{
    match refusal {
        je_typing::Refusal::Memory => Refusal::Memory,
        je_typing::Refusal::Fault(fault) => Refusal::Fault(Finding {
            rule: Rule::Typing(fault.rule),
            span: fault.span,
        }),
    }
}

// The core program of units that have these scopes, or the first fault of a type.
#[tactic(auto, using(crate::proofs::Phases::types_told))]
fn program_of(
    alloc: Global,
    names: &Names,
    units: &[Unit],
    scopes: Scopes,
) -> Result<Program, Refusal>
    requires { AreScopesOf (source names.now (map unit_view units.now)) scopes }
    ensures ok { IfOk result (λ p. elaborated (source names.now (map unit_view units.now)) ≡
        gives (program_view p)) }
    ensures err { IfErr result (IsRefusal (IsTypeFinding
        (source names.now (map unit_view units.now)))) }
{
    match elab(alloc, names, units, scopes) {
        Ok(program) => Ok(program),
        Err(refusal) => Err(told(refusal)),
    }
}

// Nothing where a program keeps the rules of flow, else the first fault of flow. No memory holds 2^31 classes.
#[tactic(auto, unfolding(je_core::specs::View::program_view))]
fn judge_flow(alloc: Global, program: &Program) -> Result<(), Refusal>
    ensures ok { OnOk result (Flows (program_view program.now)) }
    ensures err { IfErr result (IsRefusal (IsFlowFinding (program_view program.now))) }
{
    if program.classes.len() >= 2_147_483_648 {
        return Err(Refusal::Memory);
    }
    match flow(alloc, program) {
        Ok(()) => Ok(()),
        Err(je_flow::Refusal::Memory) => Err(Refusal::Memory),
        Err(je_flow::Refusal::Fault(fault)) => Err(Refusal::Fault(Finding {
            rule: Rule::Flow(fault.kind),
            span: fault.span,
        })),
    }
}

/// The core program of units, or their first finding.
#[tactic(auto, using(crate::proofs::Phases::in_names, crate::proofs::Phases::in_types, crate::proofs::Phases::in_flow))]
pub fn judged(alloc: Global, names: &Names, units: &[Unit]) -> Result<Program, Refusal>
    requires small { units_size (map unit_view units.now) ≤ 2 ^ 26 }
    requires few_names { length names.now < 2 ^ 32 }
    ensures ok { IfOk result (λ p. IsProgramOf (source names.now (map unit_view units.now))
        (program_view p)) }
    ensures err { IfErr result (IsRefusal (IsFirstFinding
        (source names.now (map unit_view units.now)))) }
{
    let scopes = scopes_of(alloc, units, names)?;
    let program = program_of(alloc, names, units, scopes)?;
    judge_flow(alloc, &program)?;
    Ok(program)
}
