// The maps over all classes.

ghost use Rattle.std.specs.Prelude.{◌≡◌, ◌<◌, ◌^◌, ℕ, Option, IfOk, OnOk, length, slice_index, None};
ghost use Rattle.std.specs.Option.{ForSome};
ghost use Rattle.je_base.specs.declared.span.NameId.{NameId};
ghost use Rattle.je_scopes.specs.Headers.{top_of};
ghost use Rattle.je_scopes.specs.Scope.{first_declared};
ghost use Rattle.name_walk.specs.View.{NameEarlier, sites_of};
ghost use Rattle.name_sites.specs.ByName.{kept, or_else};
ghost use Rattle.name_sites.specs.First.{name_declared, at_name, first_keyed};
ghost use Rattle.name_sites.specs.Tops.{top_beside as the_top_beside};

use crate::by_name::ByName;
use crate::header::{is_local, name_of};
use je_base::{Memory, NameId};
use name_walk::ClassSite;
use std::alloc::Global;

/// The first class that is declared under each name in each class, and at the top.
#[tactic(auto, using(crate::proofs::Firsts::firsts))]
pub fn declared_by_name(alloc: Global, classes: &[ClassSite]) -> Result<ByName, Memory>
    requires { length classes.now < 2 ^ 27 }
    ensures { IfOk result (λ m. (p : Option ℕ) (x : NameId) → kept m p x ≡
        first_declared 0 (sites_of classes.now) p x) }
{
    let mut declared = ByName::new(alloc);
    for (at, class) in classes.iter().enumerate() {
        keep_class(&mut declared, class, at as u32)?;
    }
    Ok(declared)
}

fn keep_class(declared: &mut ByName, class: &ClassSite, at: u32) -> Result<(), Memory>
    ensures { OnOk result ((p : Option ℕ) (x : NameId) → kept declared.new p x ≡
        or_else (kept declared.old p x)
        (at_name (name_declared class.now) class.now.spot.within at p x)) }
{
    match declared_name(class) {
        Some(name) => {
            declared.keep(class.spot.within, name, at)?;
            Ok(())
        }
        None => Ok(()),
    }
}

// The name under which a class is found in the class round it, or at the top.
fn declared_name(class: &ClassSite) -> Option<NameId>
    ensures { result ≡ name_declared class.now }
{
    if is_local(class.sort) {
        None
    } else {
        name_of(class.written)
    }
}

/// Of each class the top-level class that it stands in.
pub fn tops(alloc: Global, classes: &[ClassSite]) -> Result<Vec<u32>, Memory>
    requires earlier { NameEarlier classes.now }
    requires few { length classes.now < 2 ^ 27 }
    ensures count { IfOk result (λ tops. length tops.items ≡ length classes.now) }
    ensures tops { IfOk result
        (λ tops. (c : ℕ) → c < length classes.now → slice_index tops.items c ≡
        top_of (sites_of classes.now) c) }
{
    let mut tops = Vec::new(alloc);
    for (at, class) in classes.iter().enumerate() {
        let top = top_beside(tops.as_slice(), class.spot.within, at as u32);
        tops.push(top)?;
    }
    Ok(tops)
}

// The top-level class of the class of a number, by those of the classes before it.
fn top_beside(tops: &[u32], round: Option<usize>, at: u32) -> u32
    requires { ForSome round (λ w. w < length tops.now) }
    ensures { result ≡ the_top_beside tops.now round at }
{
    match round {
        Some(round) => tops[round],
        None => at,
    }
}
