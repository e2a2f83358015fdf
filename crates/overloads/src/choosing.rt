// The choice of a call.

ghost use Rattle.std.specs.Prelude.{◌≡◌, IfErr, IfOk, map};
ghost use Rattle.call_typing.specs.Overloads as words;
ghost use Rattle.je_typing.specs.Answers.{IsFault};
ghost use Rattle.je_typing.specs.Judged.{gives};
ghost use Rattle.name_sites.specs.View.{source_of};
ghost use Rattle.name_types.specs.View.{shown};
ghost use Rattle.overloads.specs.Choosing.{choice_seen};
ghost use Rattle.overloads.specs.View.{candidate_seen};
ghost use Rattle.source_subtypes.specs.View.{heads_of};

use crate::accepting::{accepting, accessible};
use crate::candidate::Candidate;
use crate::preferring::{most_specific, preferred};
use je_base::{Memory, Span};
use je_core::ClassId;
use je_typing::{Refusal, TypeFault, TypeRule};
use name_sites::Sites;
use name_types::SrcTy;
use source_subtypes::ClassHeads;
use std::alloc::Global;

/// What the candidates of a call come to.
#[derive(Clone, Copy)]
pub enum Choice<'c> {
    /// None accepts the arguments.
    NoneAccepts,
    /// None that accepts them may be named.
    NoneAccessible,
    /// Several accept them and may be named, and none of these is chosen.
    Unclear,
    /// The one that is chosen.
    One(&'c Candidate),
}

// Of those that accept the arguments and may be named.
fn choose_among<'c>(
    alloc: Global,
    heads: &ClassHeads,
    candidates: &[&'c Candidate],
) -> Result<Choice<'c>, Memory>
    ensures { IfOk result (λ c. choice_seen c ≡ words.choice_among (heads_of heads.now)
        (map (λ c. candidate_seen c.now) candidates.now)) }
{
    if candidates.is_empty() {
        return Ok(Choice::NoneAccessible);
    }
    let best = most_specific(alloc, heads, candidates)?;
    match preferred(alloc, heads, &best)? {
        Some(candidate) => Ok(Choice::One(candidate)),
        None => Ok(Choice::Unclear),
    }
}

// Of those that accept the arguments.
fn choose_for<'c>(
    alloc: Global,
    heads: &ClassHeads,
    sites: &Sites,
    class: ClassId,
    candidates: &[&'c Candidate],
) -> Result<Choice<'c>, Memory>
    ensures { IfOk result (λ c. choice_seen c ≡ words.choice_for (heads_of heads.now)
        (source_of sites.now).sites class.0 (map (λ c. candidate_seen c.now) candidates.now)) }
{
    if candidates.is_empty() {
        return Ok(Choice::NoneAccepts);
    }
    let accessible = accessible(alloc, sites, class, candidates)?;
    let choice = choose_among(alloc, heads, &accessible)?;
    Ok(choice)
}

/// What candidates come to, for arguments of these types in a class.
#[tactic(auto, unfolding(call_typing::specs::Overloads::choice))]
pub fn choose<'c>(
    alloc: Global,
    heads: &ClassHeads,
    sites: &Sites,
    class: ClassId,
    candidates: &'c [Candidate],
    types: &[SrcTy],
) -> Result<Choice<'c>, Memory>
    ensures { IfOk result (λ c. choice_seen c ≡ words.choice (heads_of heads.now)
        (source_of sites.now).sites class.0 (map candidate_seen candidates.now)
        (map shown types.now)) }
{
    let accepting = accepting(alloc, heads, types, candidates)?;
    let choice = choose_for(alloc, heads, sites, class, &accepting)?;
    Ok(choice)
}

/// The chosen one, or the fault; `rule` is that for calls which none accepts.
#[tactic(auto, unfolding(call_typing::specs::Overloads::chosen), using(je_typing::proofs::Walks::walks))]
pub fn chosen(rule: TypeRule, span: Span, choice: Choice<'_>) -> Result<&Candidate, Refusal>
    ensures ok { IfOk result (λ c. words.chosen rule span (choice_seen choice.entry) ≡
        gives (candidate_seen c.now)) }
    ensures err { IfErr result (IsFault (words.chosen rule span (choice_seen choice.entry))) }
{
    let rule = match choice {
        Choice::NoneAccepts => rule,
        Choice::NoneAccessible => TypeRule::NotAccessible,
        Choice::Unclear => TypeRule::AmbiguousMethod,
        Choice::One(candidate) => return Ok(candidate),
    };
    Err(Refusal::Fault(TypeFault { rule, span }))
}
