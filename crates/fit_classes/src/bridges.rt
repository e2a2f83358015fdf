// Bridges: the methods that are reached through ones of other erased parameter types (JLS 8.4.8.3, 15.12.4.5).

ghost use Rattle.std.specs.Prelude.{◌≡◌, ◌&&◌, Some, IfOk, length, nat_eq, slice_get};
ghost use Rattle.std.specs.List.{list_all};
ghost use Rattle.je_core.specs.View.{class_view, method_view, program_view};
ghost use Rattle.je_classes.specs.Hierarchy.{is_below as the_is_below};
ghost use Rattle.je_fitting.specs.Classes.{same_place as the_same_place, same_places as the_same_places};
ghost use Rattle.je_fitting.specs.Expressions.{places_up_to};
ghost use Rattle.je_fitting.specs.way.DecidingClasses.{begin_alike, begin_apart as the_begin_apart, is_bridge_between, is_bridge_fit, are_bridges_fit};
ghost use Rattle.je_fitting.specs.way.Quantifying.{implies};

use class_members::{method_at, same_class, same_name, same_type};
use fit_members::results_agree;
use fit_parts::{is_primitive, is_reference};
use je_classes::is_below;
use je_core::{Bridge, Class, ClassId, Memory, Method, Program, Ty};
use std::alloc::Global;

fn same_place(a: Ty, b: Ty) -> bool
    ensures { result ≡ the_same_place a b }
{
    (is_primitive(a) && same_type(a, b)) || (is_reference(a) && is_reference(b))
}

#[tactic(auto, using(crate::proofs::Steps::none_left))]
fn same_places(a: &[Ty], b: &[Ty]) -> bool
    ensures { result ≡ the_same_places a.now b.now }
{
    let mut left = b;
    for ty in a {
        let Some((other, rest)) = left.split_first() else {
            return false;
        };
        if !same_place(*ty, *other) {
            return false;
        }
        left = rest;
    }
    left.is_empty()
}

// Whether both methods of a bridge stand in its class or above it.
fn stand_above(
    alloc: Global,
    program: &Program,
    id: ClassId,
    bridge: &Bridge,
) -> Result<bool, Memory>
    ensures { IfOk result
        (λ above. above ≡ (the_is_below (program_view program.now) id bridge.now.method.0 &&
        the_is_below (program_view program.now) id bridge.now.by.0)) }
{
    if !is_below(alloc, program, id, bridge.method.0)? {
        return Ok(false);
    }
    is_below(alloc, program, id, bridge.by.0)
}

// Whether a bridge of a class between two methods fits.
fn fits_between(
    alloc: Global,
    program: &Program,
    id: ClassId,
    bridge: &Bridge,
    from: &Method,
    to: &Method,
) -> Result<bool, Memory>
    ensures { IfOk result (λ fits. fits ≡ is_bridge_between (program_view program.now) id bridge.now
        (Some (method_view from.now)) (Some (method_view to.now))) }
{
    if !stand_above(alloc, program, id, bridge)? {
        return Ok(false);
    }
    if from.flags.is_static || to.flags.is_static || to.flags.is_abstract {
        return Ok(false);
    }
    if !same_name(from.name, to.name) || !same_places(&from.params, &to.params) {
        return Ok(false);
    }
    results_agree(alloc, program, to.returns, from.returns)
}

// Whether a bridge of a class fits.
fn bridge_fits(
    alloc: Global,
    program: &Program,
    id: ClassId,
    bridge: &Bridge,
) -> Result<bool, Memory>
    ensures { IfOk result (λ fits. fits ≡ is_bridge_fit (program_view program.now) id bridge.now) }
{
    let Some(from) = method_at(program, bridge.method.0, bridge.method.1 as usize) else {
        return Ok(false);
    };
    let Some(to) = method_at(program, bridge.by.0, bridge.by.1 as usize) else {
        return Ok(false);
    };
    fits_between(alloc, program, id, bridge, from, to)
}

fn each_fits(
    alloc: Global,
    program: &Program,
    id: ClassId,
    bridges: &[Bridge],
) -> Result<bool, Memory>
    ensures { IfOk result (λ fit. fit ≡
        list_all (is_bridge_fit (program_view program.now) id) bridges.now) }
{
    for bridge in bridges {
        if !bridge_fits(alloc, program, id, bridge)? {
            return Ok(false);
        }
    }
    Ok(true)
}

// Whether two bridges begin with one method.
fn same_method(a: &Bridge, b: &Bridge) -> bool
    ensures { result ≡ begin_alike (Some a.now) (Some b.now) }
{
    same_class(a.method.0, b.method.0) && a.method.1 == b.method.1
}

// Whether the bridges at two places are one, or begin with two methods.
fn apart_at(bridges: &[Bridge], i: usize, j: usize) -> bool
    ensures { result ≡ implies (begin_alike (slice_get bridges.now i) (slice_get bridges.now j))
        (nat_eq i j) }
{
    match bridges.get(i) {
        None => true,
        Some(a) => match bridges.get(j) {
            None => true,
            Some(b) => !same_method(a, b) || i == j,
        },
    }
}

// Whether no other bridge begins with the method of the one at a place.
#[tactic(auto, using(crate::proofs::Places::all_places, crate::proofs::Places::one_more_place))]
fn apart_from(bridges: &[Bridge], i: usize) -> bool
    ensures { result ≡ list_all
        (λ j. implies (begin_alike (slice_get bridges.now i) (slice_get bridges.now j))
        (nat_eq i j))
        (places_up_to (length bridges.now)) }
{
    for j in 0..bridges.len() {
        if !apart_at(bridges, i, j) {
            return false;
        }
    }
    true
}

// Whether no two bridges begin with one method.
#[tactic(auto, using(crate::proofs::Places::all_places, crate::proofs::Places::one_more_place))]
fn begin_apart(bridges: &[Bridge]) -> bool
    ensures { result ≡ the_begin_apart bridges.now }
{
    for i in 0..bridges.len() {
        if !apart_from(bridges, i) {
            return false;
        }
    }
    true
}

/// Whether the bridges of a class fit.
pub fn bridges_fit(
    alloc: Global,
    program: &Program,
    id: ClassId,
    class: &Class,
) -> Result<bool, Memory>
    ensures { IfOk result (λ fit. fit ≡
        are_bridges_fit (program_view program.now) id (class_view class.now)) }
{
    if !each_fits(alloc, program, id, &class.bridges)? {
        return Ok(false);
    }
    Ok(begin_apart(&class.bridges))
}
