// The bridges of a class.

ghost use Rattle.std.specs.Prelude.{◌≡◌, IfOk, map};
ghost use Rattle.std.specs.BTreeMap.{IsOrdered};
ghost use Rattle.class_heads.specs.View.{classes_of};
ghost use Rattle.class_methods.specs.HierarchyView.{HasAll};
ghost use Rattle.class_methods.specs.View.{method_seen};
ghost use Rattle.class_typing.specs.Bridges.{bridges as the_bridges};
ghost use Rattle.overriding.specs.Overrides.{has_methods as the_has_methods};
ghost use Rattle.source_subtypes.specs.View.{heads_of};
ghost use Rattle.source_types.specs.Erasure.{class_numbered};
ghost use Rattle.class_bridges.specs.way.Found.{bridge_of, place_order};

use crate::finding::{Place, found};
use class_heads::AllClasses;
use class_methods::{Hierarchy, Method, methods_above, own};
use je_base::Memory;
use je_core::{Bridge, ClassId};
use source_subtypes::ClassHeads;
use std::alloc::Global;
use std::collections::BTreeMap;

// A class and a place in it. No memory holds as many methods as a number can't name.
fn numbered(at: Place) -> Result<(ClassId, u32), Memory>
    ensures { IfOk result (λ r. r ≡ (class_numbered at.0, at.1)) }
{
    match u32::try_from(at.1) {
        Ok(place) => Ok((ClassId(at.0), place)),
        Err(_) => Err(Memory),
    }
}

// In order of the places.
fn listed(alloc: Global, found: &BTreeMap<Place, Place>) -> Result<Vec<Bridge>, Memory>
    ensures bridges { IfOk result (λ bs. bs.items ≡ map bridge_of found.now.entries) }
    ensures ordered { IsOrdered place_order found.now }
{
    let mut bridges = Vec::new(alloc);
    for (method, by) in found {
        bridges.push(Bridge {
            method: numbered(*method)?,
            by: numbered(*by)?,
        })?;
    }
    Ok(bridges)
}

// What a class declares, and behind it what it inherits.
fn has_methods<'a>(
    alloc: Global,
    heads: &ClassHeads,
    classes: AllClasses<'a>,
    hierarchy: &Hierarchy<'a>,
    class: ClassId,
) -> Result<Vec<Method<'a>>, Memory>
    requires { HasAll (heads_of heads.now) (classes_of classes) hierarchy.now }
    ensures { IfOk result (λ ms. map method_seen ms.items ≡
        the_has_methods (heads_of heads.now) (classes_of classes.entry) class.0) }
{
    let mut methods = own(alloc, classes, class)?;
    let mut inherited = hierarchy.inherited(alloc, heads, classes, class)?;
    methods.append(&mut inherited)?;
    Ok(methods)
}

/// The bridges of a class, in order of the methods that they are for. Each method that the class has is looked at once
/// beside each method above it.
pub fn bridges(
    alloc: Global,
    heads: &ClassHeads,
    classes: AllClasses,
    hierarchy: &Hierarchy,
    class: ClassId,
) -> Result<Vec<Bridge>, Memory>
    requires { HasAll (heads_of heads.now) (classes_of classes) hierarchy.now }
    ensures { IfOk result (λ bs. bs.items ≡
        the_bridges (heads_of heads.now) (classes_of classes.entry) class.0) }
{
    let above = methods_above(alloc, heads, classes, class)?;
    let methods = has_methods(alloc, heads, classes, hierarchy, class)?;
    let found = found(alloc, heads, classes, &methods, &above)?;
    let bridges = listed(alloc, &found)?;
    Ok(bridges)
}
