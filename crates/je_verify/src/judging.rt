// Whether a program keeps the rules of Joe-E.

ghost use Rattle.std.specs.Prelude.{◌≡◌, IfErr, IfOk, OnOk};
ghost use Rattle.je_types.specs.Views.{program_of};
ghost use Rattle.plain_programs.specs.Plain.{IsPlain};
ghost use Rattle.taming_db.specs.View.{rows};
ghost use Rattle.rule_breaks.specs.Breaks.{IsListOf};
ghost use Rattle.je_verify.specs.Broken.{broken as the_broken, IsRefused, IsUnbroken};
ghost use Rattle.je_verify.specs.Views.{typed_of, taming_of};

use crate::accepted::Accepted;
use crate::fault::VerifyFault;
use je_core::Memory;
use je_types::Typed;
use rule_breaks::{Break, merged};
use std::alloc::Global;
use taming_db::Taming;

/// A program that keeps the rules under a taming text. It is plain.
///
/// # Errors
///
/// `Refused` exactly where a rule is broken, with all breaks, and `Memory` for want of memory; the program and the text come back.
#[tactic(auto, using(crate::proofs::Unbroken::verdicts))]
pub fn verify(
    alloc: Global,
    typed: Typed,
    taming: Taming,
) -> Result<Accepted, (VerifyFault, Typed, Taming)>
    ensures program { IfOk result (λ a. typed_of a ≡ typed) }
    ensures text { IfOk result (λ a. taming_of a ≡ taming) }
    ensures accepted { OnOk result (IsUnbroken (program_of typed) (rows taming)) }
    ensures plain { OnOk result (IsPlain (program_of typed)) }
    ensures refused { IfErr result (λ e. IsRefused (program_of typed) (rows taming) e.0) }
    ensures program_back { IfErr result (λ e. e.1 ≡ typed) }
    ensures text_back { IfErr result (λ e. e.2 ≡ taming) }
{
    match broken(alloc, &typed, &taming) {
        Err(Memory) => Err((VerifyFault::Memory, typed, taming)),
        Ok(list) => {
            if list.is_empty() {
                Ok(Accepted { typed, taming })
            } else {
                Err((VerifyFault::Refused(list), typed, taming))
            }
        }
    }
}

// Where a program breaks any of the rules.
#[tactic(auto, unfolding(crate::specs::Broken::broken))]
fn broken(alloc: Global, typed: &Typed, taming: &Taming) -> Result<Vec<Break>, Memory>
    ensures { IfOk result (λ list. IsListOf
        (the_broken (program_of typed.now) (rows taming.now)) list.items) }
{
    let statics = static_rules::broken(alloc, typed, taming)?;
    let fields = field_rules::broken(alloc, typed, taming)?;
    let selfless = selfless_rules::broken(alloc, typed, taming)?;
    let inner = inner_capture::broken(alloc, typed, taming)?;
    let escapes = ctor_escape::broken(alloc, typed, taming)?;
    let uses = use_rules::broken(alloc, typed, taming)?;
    merged(
        statics,
        merged(
            fields,
            merged(selfless, merged(inner, merged(escapes, uses)?)?)?,
        )?,
    )
}
