// The most specific candidates, and the preferred one among them.

ghost use Rattle.std.specs.Prelude.{◌≡◌, IfOk, filter, map, option_map};
ghost use Rattle.std.specs.List.{list_all};
ghost use Rattle.call_typing.specs.Overloads as words;
ghost use Rattle.name_types.specs.View.{shown};
ghost use Rattle.overloads.specs.View.{candidate_seen};
ghost use Rattle.overriding.specs.Overrides.{is_result_for as the_is_result_for};
ghost use Rattle.source_subtypes.specs.View.{heads_of};

use crate::accepting::all_pass;
use crate::candidate::Candidate;
use je_base::Memory;
use name_types::SrcTy;
use source_subtypes::{ClassHeads, is_same, is_subtype};
use std::alloc::Global;

// Whether each of these accepts what a candidate accepts (JLS 15.12.2.5).
fn is_most_specific(
    alloc: Global,
    heads: &ClassHeads,
    candidates: &[&Candidate],
    candidate: &Candidate,
) -> Result<bool, Memory>
    ensures { IfOk result (λ is_so. is_so ≡ words.is_most_specific (heads_of heads.now)
        (map (λ c. candidate_seen c.now) candidates.now) (candidate_seen candidate.now)) }
{
    for at in 0..candidates.len() {
        if !all_pass(
            alloc,
            heads,
            &candidate.parameters,
            &candidates[at].parameters,
        )? {
            return Ok(false);
        }
    }
    Ok(true)
}

/// Those of these that are more specific than each other one (JLS 15.12.2.5).
pub fn most_specific<'c>(
    alloc: Global,
    heads: &ClassHeads,
    candidates: &[&'c Candidate],
) -> Result<Vec<&'c Candidate>, Memory>
    ensures { IfOk result (λ cs. map (λ c. candidate_seen c.now) cs.items ≡ words.most_specific
        (heads_of heads.now) (map (λ c. candidate_seen c.now) candidates.now)) }
{
    let mut best = Vec::new(alloc);
    for at in 0..candidates.len() {
        let candidate = candidates[at];
        if is_most_specific(alloc, heads, candidates, candidate)? {
            best.push(candidate)?;
        }
    }
    Ok(best)
}

// Those of these that have a body.
fn with_body<'c>(alloc: Global, candidates: &[&'c Candidate]) -> Result<Vec<&'c Candidate>, Memory>
    ensures { IfOk result (λ cs. map (λ c. candidate_seen c.now) cs.items ≡
        filter words.has_body (map (λ c. candidate_seen c.now) candidates.now)) }
{
    let mut with_body = Vec::new(alloc);
    for at in 0..candidates.len() {
        let candidate = candidates[at];
        if !candidate.is_abstract {
            with_body.push(candidate)?;
        }
    }
    Ok(with_body)
}

// Whether a result is the other one, or below it (JLS 8.4.5).
fn is_result_for(
    alloc: Global,
    heads: &ClassHeads,
    ty: &SrcTy,
    other: &SrcTy,
) -> Result<bool, Memory>
    ensures { IfOk result (λ is_so. is_so ≡
        the_is_result_for (heads_of heads.now) (shown ty.now) (shown other.now)) }
{
    if is_same(ty, other) {
        return Ok(true);
    }
    is_subtype(alloc, heads, ty, other)
}

// Whether a candidate's result is that of each of these, or below it.
fn has_least_result(
    alloc: Global,
    heads: &ClassHeads,
    candidates: &[&Candidate],
    candidate: &Candidate,
) -> Result<bool, Memory>
    ensures { IfOk result (λ is_so. is_so ≡ words.has_least_result (heads_of heads.now)
        (map (λ c. candidate_seen c.now) candidates.now) (candidate_seen candidate.now)) }
{
    for at in 0..candidates.len() {
        if !is_result_for(alloc, heads, &candidate.result, &candidates[at].result)? {
            return Ok(false);
        }
    }
    Ok(true)
}

// Those of these whose result is that of each other one, or below it.
fn with_least_result<'c>(
    alloc: Global,
    heads: &ClassHeads,
    candidates: &[&'c Candidate],
) -> Result<Vec<&'c Candidate>, Memory>
    ensures { IfOk result (λ cs. map (λ c. candidate_seen c.now) cs.items ≡ filter
        (words.has_least_result (heads_of heads.now) (map (λ c. candidate_seen c.now) candidates.now))
        (map (λ c. candidate_seen c.now) candidates.now)) }
{
    let mut least = Vec::new(alloc);
    for at in 0..candidates.len() {
        let candidate = candidates[at];
        if has_least_result(alloc, heads, candidates, candidate)? {
            least.push(candidate)?;
        }
    }
    Ok(least)
}

// Whether a candidate stands before another one, by class and then by place.
fn stands_before(candidate: &Candidate, other: &Candidate) -> bool
    ensures { result ≡
        words.stands_before (candidate_seen candidate.now) (candidate_seen other.now) }
{
    candidate.class.0 < other.class.0
        || candidate.class.0 == other.class.0 && candidate.place < other.place
}

// Whether none of these stands before a candidate.
fn is_first(candidates: &[&Candidate], candidate: &Candidate) -> bool
    ensures { result ≡ words.is_first (map (λ c. candidate_seen c.now) candidates.now)
        (candidate_seen candidate.now) }
{
    for at in 0..candidates.len() {
        if stands_before(candidates[at], candidate) {
            return false;
        }
    }
    true
}

// The first of these, by class and then by place.
fn first_of<'c>(candidates: &[&'c Candidate]) -> Option<&'c Candidate>
    ensures { option_map (λ c. candidate_seen c.now) result ≡
        words.first_of (map (λ c. candidate_seen c.now) candidates.now) }
{
    for at in 0..candidates.len() {
        let candidate = candidates[at];
        if is_first(candidates, candidate) {
            return Some(candidate);
        }
    }
    None
}

/// The only one of these that has a body; where none has one, the first, by class and then by place, of those whose
/// result is that of each other one, or below it.
pub fn preferred<'c>(
    alloc: Global,
    heads: &ClassHeads,
    candidates: &[&'c Candidate],
) -> Result<Option<&'c Candidate>, Memory>
    ensures { IfOk result (λ c. option_map (λ m. candidate_seen m.now) c ≡
        words.preferred (heads_of heads.now) (map (λ c. candidate_seen c.now) candidates.now)) }
{
    let with_body = with_body(alloc, candidates)?;
    match with_body.as_slice() {
        [] => {
            let least = with_least_result(alloc, heads, candidates)?;
            let first = first_of(&least);
            Ok(first)
        }
        [only] => Ok(Some(only)),
        _ => Ok(None),
    }
}
