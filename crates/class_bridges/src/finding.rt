// What runs for the methods above a class.

ghost use Rattle.std.specs.Prelude.{◌≡◌, ◌&&◌, ℕ, IfOk, OnOk, Some, map, unwrap_or, if◌then◌else◌};
ghost use Rattle.std.specs.BTreeMap.{get};
ghost use Rattle.std.specs.Ordering.{is_eq};
ghost use Rattle.class_heads.specs.View.{classes_of};
ghost use Rattle.class_methods.specs.View.{method_seen};
ghost use Rattle.class_typing.specs.Bridges as words;
ghost use Rattle.source_subtypes.specs.View.{heads_of};
ghost use Rattle.class_bridges.specs.way.Found.{by_at, else_by, has_body_beside_instance, place_order};
ghost use Rattle.class_bridges.specs.way.Found.{is_run_for as the_is_run_for, runs_at};

use class_heads::AllClasses;
use class_methods::{Method, have_one_name};
use je_base::Memory;
use override_steps::{are_same_erased, is_override};
use source_subtypes::ClassHeads;
use std::alloc::Global;
use std::collections::BTreeMap;

/// Where a method is declared: the class, and the place there.
pub type Place = (u32, usize);

fn place_of(method: &Method) -> Place
    ensures { result ≡ words.place_of (method_seen method.now) }
{
    (method.holder.0, method.place)
}

// Whether one method has a body, and its name and other erased parameter types beside another one, which isn't static.
fn has_body_beside(heads: &ClassHeads, other: &Method, method: &Method) -> bool
    ensures { result ≡ has_body_beside_instance (heads_of heads.now) (method_seen other.now)
        (method_seen method.now) }
{
    !other.declared.flags.is_static
        && !(method.is_abstract || method.declared.flags.is_static)
        && have_one_name(method, other)
        && !are_same_erased(
            heads,
            &method.declared.parameters,
            &other.declared.parameters,
        )
}

// Whether one method runs for another one, which isn't static. What stands above its class is looked up only where all
// else is so.
fn is_run_for(
    alloc: Global,
    heads: &ClassHeads,
    classes: AllClasses,
    other: &Method,
    method: &Method,
) -> Result<bool, Memory>
    ensures { IfOk result (λ runs. runs ≡ the_is_run_for (heads_of heads.now)
        (classes_of classes.entry) (method_seen other.now) (method_seen method.now)) }
{
    if !has_body_beside(heads, other, method) {
        return Ok(false);
    }
    is_override(alloc, heads, classes, method, other)
}

// Adds what runs for the method at a place, unless something does already.
fn add(found: &mut BTreeMap<Place, Place>, at: Place, by: Place) -> Result<(), Memory>
    ensures { OnOk result ((q : ℕ × ℕ) → get place_order found.new q ≡
        (if is_eq (place_order at q) then Some (unwrap_or (get place_order found.old at) by)
        else get place_order found.old q)) }
{
    found.entry(at)?.or_insert(by);
    Ok(())
}

fn add_one(
    alloc: Global,
    heads: &ClassHeads,
    classes: AllClasses,
    method: &Method,
    other: &Method,
    found: &mut BTreeMap<Place, Place>,
) -> Result<(), Memory>
    ensures { OnOk result ((at : ℕ × ℕ) → get place_order found.new at ≡
        else_by (get place_order found.old at)
        (words.is_same_place at (words.place_of (method_seen other.now))
        && the_is_run_for (heads_of heads.now) (classes_of classes.entry) (method_seen other.now)
        (method_seen method.now)) (method_seen method.now)) }
{
    if is_run_for(alloc, heads, classes, other, method)? {
        add(found, place_of(other), place_of(method))?;
    }
    Ok(())
}

// A method runs for all of these that it can run for and that nothing runs for yet.
fn add_all(
    alloc: Global,
    heads: &ClassHeads,
    classes: AllClasses,
    method: &Method,
    above: &[Method],
    found: &mut BTreeMap<Place, Place>,
) -> Result<(), Memory>
    ensures { OnOk result ((at : ℕ × ℕ) → get place_order found.new at ≡
        else_by (get place_order found.old at)
        (runs_at (heads_of heads.now) (classes_of classes.entry) (map method_seen above.now) at
        (method_seen method.now)) (method_seen method.now)) }
{
    for other in above {
        add_one(alloc, heads, classes, method, other, found)?;
    }
    Ok(())
}

/// The first of some methods that runs for a method above, by the places where these are declared.
pub fn found(
    alloc: Global,
    heads: &ClassHeads,
    classes: AllClasses,
    methods: &[Method],
    above: &[Method],
) -> Result<BTreeMap<Place, Place>, Memory>
    ensures { IfOk result (λ found. (at : ℕ × ℕ) → get place_order found at ≡
        by_at (heads_of heads.now) (classes_of classes.entry) (map method_seen above.now)
        (map method_seen methods.now) at) }
{
    let mut found = BTreeMap::new(alloc);
    for method in methods {
        add_all(alloc, heads, classes, method, above, &mut found)?;
    }
    Ok(found)
}
