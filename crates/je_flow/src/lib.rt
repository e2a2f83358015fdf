//! The rules of flow over a whole program.
//!
//! `flow` answers the first fault of flow in reading order, by file, first byte, number and last byte, or accepts the program
//! exactly where no rule is broken (`specs/Flow.antt`). The rules are those of reachability, of definite assignment and
//! unassignment and of exceptions; each is defined in a crate of its own.
#![tactic(auto)]

mod refusal;

ghost use Rattle.std.specs.Prelude.{◌≡◌, ◌<◌, ◌^◌, length, None, IfOk, IfErr, OnOk};
ghost use Rattle.je_core.specs.View.{program_view};
ghost use Rattle.flow_base.specs.way.Kept.{first_of};
ghost use Rattle.je_flow.specs.Flow.{flow_faults, Flows, IsRefused};

use assignment_rules::Rule;
use definite_assignment::judge_program as judge_assignment;
use flow_base::{FirstFault, FlowFault};
use je_core::{Memory, Program};
use reachability::judge_program as judge_reachability;
pub use refusal::Refusal;
use reported_exceptions::judge_program as judge_exceptions;
use std::alloc::Global;

/// Whether a program keeps the rules of flow (JLS 11.2, 14.21, 16); or the first fault in reading order.
#[tactic(auto, using(flow_base::proofs::First::kept_is_first))]
pub fn flow(alloc: Global, program: &Program) -> Result<(), Refusal>
    requires { length (program_view program.now).classes < 2 ^ 31 }
    ensures ok { OnOk result (Flows (program_view program.now)) }
    ensures err { IfErr result (IsRefused (program_view program.now)) }
{
    match first_fault(alloc, program)? {
        None => Ok(()),
        Some(fault) => Err(Refusal::Fault(fault)),
    }
}

// The fault that is kept of all.
#[tactic(auto, unfolding(crate::specs::Flow::flow_faults))]
fn first_fault(alloc: Global, program: &Program) -> Result<Option<FlowFault>, Memory>
    requires { length (program_view program.now).classes < 2 ^ 31 }
    ensures { IfOk result (λ first. first ≡
        first_of None (flow_faults (program_view program.now))) }
{
    let mut found = FirstFault::none();
    judge_reachability(alloc, program, &mut found)?;
    judge_assignment(alloc, Rule::Assigned, program, &mut found)?;
    judge_assignment(alloc, Rule::Unassigned, program, &mut found)?;
    judge_exceptions(alloc, program, &mut found)?;
    Ok(found.get())
}
