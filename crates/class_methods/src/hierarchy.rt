// What all classes have, from the top down.

ghost use Rattle.std.specs.Prelude.{◌≡◌, ◌≤◌, ◌^◌, IfOk, length, map};
ghost use Rattle.std.specs.List.{list_all};
ghost use Rattle.class_heads.specs.View.{classes_of};
ghost use Rattle.name_types.specs.View.{shown};
ghost use Rattle.class_methods.specs.View.{table_seen};
ghost use Rattle.class_methods.specs.way.Rounds.{AfterAll, in_bools as the_in_bools, is_settled as the_is_settled, list_to, next_methods as the_next_methods, next_settled as the_next_settled};
ghost use Rattle.source_subtypes.specs.View.{heads_of};

use crate::inheriting::{inherited_by, inherited_from, next_methods};
use crate::method::Method;
use crate::seen::parts_of;
use class_heads::AllClasses;
use je_base::Memory;
use je_core::ClassId;
use name_types::SrcTy;
use source_subtypes::ClassHeads;
use std::alloc::Global;

// One step further up, of so many classes.
fn next_table<'a>(
    alloc: Global,
    heads: &ClassHeads,
    classes: AllClasses<'a>,
    table: &[Vec<Method<'a>>],
    count: usize,
) -> Result<Vec<Vec<Method<'a>>>, Memory>
    requires { count ≤ 2 ^ 32 }
    ensures { IfOk result (λ next. table_seen next.items ≡ list_to
        (the_next_methods (heads_of heads.now) (classes_of classes.entry) (table_seen table.now))
        count) }
{
    let mut next = Vec::new(alloc);
    for at in 0..count {
        next.push(next_methods(alloc, heads, classes, table, ClassId(at as u32))?)?;
    }
    Ok(next)
}

fn in_bools(bools: &[bool], class: ClassId) -> bool
    ensures { result ≡ the_in_bools bools.now class.0 }
{
    match bools.get(class.0 as usize) {
        Some(is_so) => *is_so,
        None => false,
    }
}

// Whether the class of a type has all that it will have.
fn is_settled(settled: &[bool], ty: &SrcTy) -> bool
    ensures { result ≡ the_is_settled settled.now (shown ty.now) }
{
    match parts_of(ty) {
        Some(arguments) => in_bools(settled, arguments.class),
        None => true,
    }
}

fn are_settled(settled: &[bool], types: &[SrcTy]) -> bool
    ensures { result ≡ list_all (the_is_settled settled.now) (map shown types.now) }
{
    for at in 0..types.len() {
        if !is_settled(settled, &types[at]) {
            return false;
        }
    }
    true
}

// Of so many classes, one step further up.
fn next_settled(
    alloc: Global,
    heads: &ClassHeads,
    settled: &[bool],
    count: usize,
) -> Result<Vec<bool>, Memory>
    requires { count ≤ 2 ^ 32 }
    ensures { IfOk result (λ next. next.items ≡
        list_to (the_next_settled (heads_of heads.now) settled.now) count) }
{
    let mut next = Vec::new(alloc);
    for at in 0..count {
        let types = inherited_from(alloc, heads, ClassId(at as u32))?;
        next.push(are_settled(settled, &types))?;
    }
    Ok(next)
}

fn all_true(bools: &[bool]) -> bool
    ensures { result ≡ list_all (λ b. b) bools.now }
{
    bools.iter().all(|is_so| *is_so)
}

// What all classes have, of which there are no more than `count`: as far up as they have anything.
fn all_methods<'a>(
    alloc: Global,
    heads: &ClassHeads,
    classes: AllClasses<'a>,
    count: usize,
) -> Result<Vec<Vec<Method<'a>>>, Memory>
    requires few { count ≤ 2 ^ 32 }
    requires heads { length (heads_of heads.now) ≤ count }
    requires classes { length (classes_of classes) ≤ count }
    ensures { IfOk result (λ table. AfterAll (heads_of heads.now) (classes_of classes.entry)
        (table_seen table.items)) }
{
    let mut table = Vec::new(alloc);
    let mut settled = Vec::new(alloc);
    for _ in 0..classes.len() {
        if settled.len() == count && all_true(&settled) {
            return Ok(table);
        }
        table = next_table(alloc, heads, classes, &table, count)?;
        settled = next_settled(alloc, heads, &settled, count)?;
    }
    Ok(table)
}

/// What all classes have.
#[derive(Drop)]
pub struct Hierarchy<'a> {
    pub(crate) table: Vec<Vec<Method<'a>>>,
}

impl<'a> Hierarchy<'a> {
    ghost use Rattle.std.specs.Prelude.{◌≡◌, ◌≤◌, ◌^◌, IfOk, length, map};
    ghost use Rattle.class_heads.specs.View.{classes_of};
    ghost use Rattle.overriding.specs.Methods as words;
    ghost use Rattle.class_methods.specs.HierarchyView.{HasAll};
    ghost use Rattle.class_methods.specs.View.{method_seen};
    ghost use Rattle.source_subtypes.specs.View.{heads_of};

    /// What classes with these headers have.
    #[tactic(auto, using(crate::proofs::Rounds::has_all))]
    pub fn new(
        alloc: Global,
        heads: &ClassHeads,
        classes: AllClasses<'a>,
    ) -> Result<Hierarchy<'a>, Memory>
        requires heads { length (heads_of heads.now) ≤ 2 ^ 32 }
        requires classes { length (classes_of classes) ≤ 2 ^ 32 }
        ensures { IfOk result (λ h. HasAll (heads_of heads.now) (classes_of classes.entry) h) }
    {
        let count = heads.len().max(classes.len());
        let table = all_methods(alloc, heads, classes, count)?;
        Ok(Hierarchy { table })
    }

    /// What a class inherits.
    #[tactic(auto, using(crate::proofs::Rounds::inherits), unfolding(overriding::specs::Methods::inherited))]
    pub fn inherited(
        &self,
        alloc: Global,
        heads: &ClassHeads,
        classes: AllClasses<'a>,
        class: ClassId,
    ) -> Result<Vec<Method<'a>>, Memory>
        requires { HasAll (heads_of heads.now) (classes_of classes) self.now }
        ensures { IfOk result (λ ms. map method_seen ms.items ≡
            words.inherited (heads_of heads.now) (classes_of classes.entry) class.0) }
    {
        inherited_by(alloc, heads, classes, &self.table, class)
    }
}
