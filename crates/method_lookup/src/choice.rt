// The choice among candidates (JLS 15.12.2.5).

ghost use Rattle.std.specs.Prelude.{◌≡◌, [], ◌∷◌, ◌++◌, IfOk, OnOk, map, filter, if◌then◌else◌};
ghost use Rattle.std.specs.List.{list_all};
ghost use Rattle.je_core.specs.View.{method_view, program_view};
ghost use Rattle.je_classes.specs.Members.{method_of, found_in};
ghost use Rattle.je_classes.specs.Methods.{all_pass as the_all_pass, params_of, is_best as the_is_best, is_concrete as the_is_concrete, has_result_of as the_has_result_of, counts as the_counts, stands_before as the_stands_before, earlier as the_earlier, first_of as the_first_of, chosen as the_chosen, chosen_of};
ghost use Rattle.class_members.specs.Places.{member_of};
ghost use Rattle.member_lookup.specs.Founds.{found_seen};

use crate::passing::{all_pass, params};
use class_members::{method_at, same_class, same_type};
use je_classes::is_subtype;
use je_core::{ClassId, Memory, Program, Ty};
use member_lookup::{Found, joined};
use std::alloc::Global;

// Whether a method's parameters go to those of each candidate.
fn is_best(
    alloc: Global,
    program: &Program,
    candidates: &[(ClassId, usize)],
    params_of_one: &[Ty],
) -> Result<bool, Memory>
    ensures { IfOk result (λ best. best ≡ list_all
        (λ n. the_all_pass (program_view program.now) params_of_one.now
        (params_of (program_view program.now) n))
        (map member_of candidates.now)) }
{
    for other in candidates {
        if !all_pass(
            alloc,
            program,
            params_of_one,
            params(program, other.0, other.1),
        )? {
            return Ok(false);
        }
    }
    Ok(true)
}

// One more member, if it is kept.
fn keep_if(
    members: &mut Vec<(ClassId, usize)>,
    kept: bool,
    one: (ClassId, usize),
) -> Result<(), Memory>
    ensures { OnOk result (members.new.items ≡
        (if kept then members.old.items ++ one ∷ [] else members.old.items)) }
{
    if kept {
        members.push(one)?;
    }
    Ok(())
}

// The candidates that are more specific than all.
fn best_of(
    alloc: Global,
    program: &Program,
    candidates: &[(ClassId, usize)],
) -> Result<Vec<(ClassId, usize)>, Memory>
    ensures { IfOk result (λ best. map member_of best.items ≡ filter
        (the_is_best (program_view program.now) (map member_of candidates.now))
        (map member_of candidates.now)) }
{
    let mut best = Vec::new(alloc);
    for one in candidates {
        let is_best = is_best(alloc, program, candidates, params(program, one.0, one.1))?;
        keep_if(&mut best, is_best, *one)?;
    }
    Ok(best)
}

// Whether a method is there and not abstract.
fn is_concrete(program: &Program, class: ClassId, at: usize) -> bool
    ensures { result ≡ the_is_concrete (program_view program.now)
        (record { class = class; at = at }) }
{
    match method_at(program, class, at) {
        None => false,
        Some(method) => !method.flags.is_abstract,
    }
}

// What those that aren't abstract are.
fn concrete_among(program: &Program, best: &[(ClassId, usize)]) -> Found
    ensures { found_seen result ≡
        found_in (filter (the_is_concrete (program_view program.now)) (map member_of best.now)) }
{
    let mut found = Found::Nothing;
    let mut left = best.len();
    while left > 0 {
        left -= 1;
        let (class, at) = best[left];
        if is_concrete(program, class, at) {
            found = joined(Found::One(class, at), found);
        }
    }
    found
}

// Whether the result of one method is that of another one, or a subtype of it.
fn has_result_of(
    alloc: Global,
    program: &Program,
    one: (ClassId, usize),
    other: (ClassId, usize),
) -> Result<bool, Memory>
    ensures { IfOk result (λ has. has ≡
        the_has_result_of (program_view program.now) (member_of one) (member_of other)) }
{
    let Some(method) = method_at(program, one.0, one.1) else {
        return Ok(false);
    };
    let Some(second) = method_at(program, other.0, other.1) else {
        return Ok(false);
    };
    if same_type(method.returns, second.returns) {
        return Ok(true);
    }
    is_subtype(alloc, program, method.returns, second.returns)
}

// Whether a method's result agrees with that of each of the best.
fn counts(
    alloc: Global,
    program: &Program,
    best: &[(ClassId, usize)],
    one: (ClassId, usize),
) -> Result<bool, Memory>
    ensures { IfOk result (λ counts. counts ≡
        the_counts (program_view program.now) (map member_of best.now) (member_of one)) }
{
    for other in best {
        if !has_result_of(alloc, program, one, *other)? {
            return Ok(false);
        }
    }
    Ok(true)
}

// Whether one member stands before another: by class, then by place.
fn stands_before(one: (ClassId, usize), other: (ClassId, usize)) -> bool
    ensures { result ≡ the_stands_before (member_of one) (member_of other) }
{
    one.0.0 < other.0.0 || (same_class(one.0, other.0) && one.1 < other.1)
}

// The earlier one of a member and what was found.
fn earlier(one: (ClassId, usize), found: Found) -> Found
    ensures { found_seen result ≡ the_earlier (member_of one) (found_seen found) }
{
    match found {
        Found::One(class, at) => {
            if stands_before((class, at), one) {
                Found::One(class, at)
            } else {
                Found::One(one.0, one.1)
            }
        }
        _ => Found::One(one.0, one.1),
    }
}

// The first of the best whose result agrees with that of each.
fn first_counting(
    alloc: Global,
    program: &Program,
    best: &[(ClassId, usize)],
) -> Result<Found, Memory>
    ensures { IfOk result (λ first. found_seen first ≡ the_first_of
        (filter (the_counts (program_view program.now) (map member_of best.now))
        (map member_of best.now))) }
{
    let mut first = Found::Several;
    let mut left = best.len();
    while left > 0 {
        left -= 1;
        if counts(alloc, program, best, best[left])? {
            first = earlier(best[left], first);
        }
    }
    Ok(first)
}

/// What is chosen among candidates.
#[tactic(auto, using(crate::proofs::Lists::choosing))]
pub fn chosen(
    alloc: Global,
    program: &Program,
    candidates: &[(ClassId, usize)],
) -> Result<Found, Memory>
    ensures { IfOk result (λ found. found_seen found ≡
        the_chosen (program_view program.now) (map member_of candidates.now)) }
{
    if candidates.is_empty() {
        return Ok(Found::Nothing);
    }
    let best = best_of(alloc, program, candidates)?;
    if best.is_empty() {
        return Ok(Found::Several);
    }
    match concrete_among(program, &best) {
        Found::Nothing => first_counting(alloc, program, &best),
        found => Ok(found),
    }
}
