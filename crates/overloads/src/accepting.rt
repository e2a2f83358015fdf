// Which candidates accept arguments, and which may be named.

ghost use Rattle.std.specs.Prelude.{◌≡◌, IfOk, filter, map};
ghost use Rattle.call_typing.specs.Overloads as words;
ghost use Rattle.name_sites.specs.View.{source_of};
ghost use Rattle.name_types.specs.View.{shown};
ghost use Rattle.overloads.specs.View.{candidate_seen};
ghost use Rattle.overriding.specs.Methods.{is_private as the_is_private};
ghost use Rattle.source_subtypes.specs.View.{heads_of};

use crate::candidate::Candidate;
use conversion_steps::passes;
use je_base::Memory;
use je_core::{Access, ClassId};
use name_sites::Sites;
use name_types::SrcTy;
use source_subtypes::ClassHeads;
use std::alloc::Global;

/// Whether values of these types go to as many parameters of those, each as in a call (JLS 5.3).
pub fn all_pass(
    alloc: Global,
    heads: &ClassHeads,
    types: &[SrcTy],
    parameters: &[SrcTy],
) -> Result<bool, Memory>
    ensures { IfOk result (λ p. p ≡
        words.all_pass (heads_of heads.now) (map shown types.now) (map shown parameters.now)) }
{
    let mut left = parameters;
    for ty in types {
        let Some((first, rest)) = left.split_first() else {
            return Ok(false);
        };
        if !passes(alloc, heads, ty, first)? {
            return Ok(false);
        }
        left = rest;
    }
    Ok(left.is_empty())
}

/// Whether a candidate accepts arguments of these types.
pub fn accepts(
    alloc: Global,
    heads: &ClassHeads,
    types: &[SrcTy],
    candidate: &Candidate,
) -> Result<bool, Memory>
    ensures { IfOk result (λ a. a ≡
        words.accepts (heads_of heads.now) (map shown types.now) (candidate_seen candidate.now)) }
{
    all_pass(alloc, heads, types, &candidate.parameters)
}

/// Those that accept arguments of these types.
pub fn accepting<'c>(
    alloc: Global,
    heads: &ClassHeads,
    types: &[SrcTy],
    candidates: &'c [Candidate],
) -> Result<Vec<&'c Candidate>, Memory>
    ensures { IfOk result (λ cs. map (λ c. candidate_seen c.now) cs.items ≡ filter
        (words.accepts (heads_of heads.now) (map shown types.now)) (map candidate_seen candidates.now)) }
{
    let mut accepting = Vec::new(alloc);
    for at in 0..candidates.len() {
        let candidate = &candidates[at];
        if accepts(alloc, heads, types, candidate)? {
            accepting.push(candidate)?;
        }
    }
    Ok(accepting)
}

/// Whether it is `private`.
pub fn is_private(access: Access) -> bool
    ensures { result ≡ the_is_private access }
{
    matches!(access, Access::Private)
}

/// Whether a candidate may be named in a class: a private one in the top-level class alone that it stands in (JLS
/// 6.6.1).
pub fn is_accessible(sites: &Sites, class: ClassId, candidate: &Candidate) -> bool
    ensures { result ≡
        words.is_accessible (source_of sites.now).sites class.0 (candidate_seen candidate.now) }
{
    !is_private(candidate.flags.access) || sites.top_of(class).0 == sites.top_of(candidate.class).0
}

/// Those of these that may be named in a class.
pub fn accessible<'c>(
    alloc: Global,
    sites: &Sites,
    class: ClassId,
    candidates: &[&'c Candidate],
) -> Result<Vec<&'c Candidate>, Memory>
    ensures { IfOk result (λ cs. map (λ c. candidate_seen c.now) cs.items ≡ filter
        (words.is_accessible (source_of sites.now).sites class.0)
        (map (λ c. candidate_seen c.now) candidates.now)) }
{
    let mut accessible = Vec::new(alloc);
    for at in 0..candidates.len() {
        let candidate = candidates[at];
        if is_accessible(sites, class, candidate) {
            accessible.push(candidate)?;
        }
    }
    Ok(accessible)
}
