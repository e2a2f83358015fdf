// What a field's name finds in a type.

ghost use Rattle.std.specs.Prelude.{◌≡◌, ℕ, suc, IfOk, OnOk, map};
ghost use Rattle.class_heads.specs.View.{classes_of};
ghost use Rattle.je_classes.specs.Members.{Found as Finding, joined as the_joined, one};
ghost use Rattle.member_lookup.specs.Founds.{found_seen};
ghost use Rattle.name_types.specs.View.{shown};
ghost use Rattle.name_typing.specs.Fields.{find_field as the_find_field, inheriting};
ghost use Rattle.source_subtypes.specs.View.{heads_of};
ghost use Rattle.source_types.specs.Supertypes.{has_type, most_steps};
ghost use Rattle.source_types.specs.way.Reaching.{with_type, with_types};
ghost use Rattle.body_places.specs.way.Walk.{all_within, inherited_by};

use crate::above::directly_above;
use crate::declared::{can_inherit, own_field};
use class_heads::AllClasses;
use je_base::{Memory, NameId};
use je_core::ClassId;
use member_lookup::{Found, joined};
use name_types::SrcTy;
use source_subtypes::{ClassHeads, is_same};
use std::alloc::Global;

// Types of which each may have fields of a name, behind what is found so far.
#[derive(Drop)]
struct Level {
    found: Found,
    types: Vec<SrcTy>,
}

// Whether a type is one of these.
fn is_among(types: &[SrcTy], ty: &SrcTy) -> bool
    ensures { result ≡ has_type (map shown types.now) (shown ty.now) }
{
    for other in types {
        if is_same(other, ty) {
            return true;
        }
    }
    false
}

// One type more, unless it is there.
fn push_type(types: &mut Vec<SrcTy>, ty: SrcTy) -> Result<(), Memory>
    ensures { OnOk result (map shown types.new.items ≡
        with_type (map shown types.old.items) (shown ty)) }
{
    if !is_among(types, &ty) {
        types.push(ty)?;
    }
    Ok(())
}

fn push_all(types: &mut Vec<SrcTy>, more: Vec<SrcTy>) -> Result<(), Memory>
    ensures { OnOk result (map shown types.new.items ≡
        with_types (map shown types.old.items) (map shown more.items)) }
{
    for ty in more {
        push_type(types, ty)?;
    }
    Ok(())
}

// A field that a class declares, as what is below inherits it.
fn own_inherited(classes: AllClasses, class: ClassId, at: usize) -> Found
    ensures { found_seen result ≡
        inheriting (classes_of classes.entry) (one (record { class = class; at = at })) }
{
    if can_inherit(classes, class, at) {
        Found::One(class, at)
    } else {
        Found::Nothing
    }
}

// What the class of a type declares is found, or else the types directly above it are next.
#[tactic(auto, using(crate::proofs::Levels::visits))]
fn visit(
    alloc: Global,
    heads: &ClassHeads,
    classes: AllClasses,
    name: NameId,
    level: &mut Level,
    ty: &SrcTy,
) -> Result<(), Memory>
    ensures { OnOk result ((n : ℕ) (rest : Finding) →
        the_joined (found_seen level.new.found) (the_joined (all_within (heads_of heads.now)
        (classes_of classes.entry) n name (map shown level.new.types.items)) rest) ≡
        the_joined (found_seen level.old.found) (the_joined (all_within (heads_of heads.now)
        (classes_of classes.entry) n name (map shown level.old.types.items))
        (the_joined (inherited_by (heads_of heads.now) (classes_of classes.entry) (suc n) name
        (shown ty.now)) rest))) }
{
    match own_field(classes, ty, name) {
        Some((class, at)) => {
            level.found = joined(level.found, own_inherited(classes, class, at));
            Ok(())
        }
        None => {
            let above = directly_above(alloc, heads, ty)?;
            push_all(&mut level.types, above)?;
            Ok(())
        }
    }
}

// One step up from these types, behind what is found so far.
#[tactic(auto, using(crate::proofs::Levels::all_visited))]
fn go_up(
    alloc: Global,
    heads: &ClassHeads,
    classes: AllClasses,
    name: NameId,
    found: Found,
    types: &[SrcTy],
) -> Result<Level, Memory>
    ensures { IfOk result (λ level. (n : ℕ) → the_joined (found_seen level.found)
        (all_within (heads_of heads.now) (classes_of classes.entry) n name
        (map shown level.types.items)) ≡
        the_joined (found_seen found) (all_within (heads_of heads.now) (classes_of classes.entry)
        (suc n) name (map shown types.now))) }
{
    let mut level = Level {
        found,
        types: Vec::new(alloc),
    };
    for ty in types {
        visit(alloc, heads, classes, name, &mut level, ty)?;
    }
    Ok(level)
}

// What is inherited from these types.
#[tactic(auto, using(crate::proofs::Levels::no_more))]
fn inherited(
    alloc: Global,
    heads: &ClassHeads,
    classes: AllClasses,
    name: NameId,
    types: Vec<SrcTy>,
) -> Result<Found, Memory>
    ensures { IfOk result (λ found. found_seen found ≡ all_within (heads_of heads.now)
        (classes_of classes.entry) (most_steps (heads_of heads.now)) name (map shown types.items)) }
{
    let mut level = Level {
        found: Found::Nothing,
        types,
    };
    for _ in 0..heads.most_steps() {
        if level.types.is_empty() {
            return Ok(level.found);
        }
        level = go_up(alloc, heads, classes, name, level.found, &level.types)?;
    }
    Ok(level.found)
}

/// What a name finds among the fields of a type: the field that its class declares, or else those that it inherits
/// (JLS 8.3, 8.3.3.3).
#[tactic(auto, using(crate::proofs::Levels::found_fields))]
pub fn find_field(
    alloc: Global,
    heads: &ClassHeads,
    classes: AllClasses,
    ty: &SrcTy,
    name: NameId,
) -> Result<Found, Memory>
    ensures { IfOk result (λ found. found_seen found ≡ the_find_field (heads_of heads.now)
        (classes_of classes.entry) (shown ty.now) name) }
{
    match own_field(classes, ty, name) {
        Some((class, at)) => Ok(Found::One(class, at)),
        None => {
            let above = directly_above(alloc, heads, ty)?;
            inherited(alloc, heads, classes, name, above)
        }
    }
}
