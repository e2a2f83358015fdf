// What headers and signatures are judged by.

ghost use Rattle.std.specs.Prelude.{◌≡◌, IfErr, IfOk};
ghost use Rattle.je_typing.specs.Answers.{IsFault};
ghost use Rattle.je_typing.specs.Judged.{gives};
ghost use Rattle.signature_typing.specs.Signatures.{refused as the_refused};

use class_heads::AllClasses;
use je_base::{NameId, Span};
use je_core::ClassId;
use je_typing::{Refusal, TypeFault, TypeRule};
use written_types::Surroundings;

/// A field that is a constant variable (JLS 4.12.4), by its class and its name.
#[derive(Clone, Copy)]
pub struct ConstantField {
    pub class: ClassId,
    pub name: NameId,
}

/// What headers and signatures are judged by: a program and the headers of its classes, what these declare, and which fields
/// are constants.
#[derive(Clone, Copy)]
pub struct Setting<'a> {
    pub around: Surroundings<'a>,
    pub classes: AllClasses<'a>,
    pub constants: &'a [ConstantField],
}

/// The fault at a place that offends, if there is one.
#[tactic(auto, using(je_typing::proofs::Walks::walks))]
pub fn refused(rule: TypeRule, place: Option<Span>) -> Result<(), Refusal>
    ensures ok { IfOk result (λ done. the_refused rule place ≡ gives done) }
    ensures err { IfErr result (IsFault (the_refused rule place)) }
{
    match place {
        None => Ok(()),
        Some(span) => Err(Refusal::Fault(TypeFault { rule, span })),
    }
}
