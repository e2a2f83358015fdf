// What the units of a program declare.

ghost use Rattle.std.specs.Prelude.{◌≡◌, ◌<◌, ◌≤◌, ◌^◌, IfErr, IfOk, length, map};
ghost use Rattle.je_ast.specs.View.{unit_view};
ghost use Rattle.je_scopes.specs.Settled.{settled};
ghost use Rattle.je_scopes.specs.Source.{source};
ghost use Rattle.name_walk.specs.Sizes.{units_size};
ghost use Rattle.name_sites.specs.View.{source_of};
ghost use Rattle.name_lookup.specs.View.{known_of};
ghost use Rattle.name_lookup.specs.Table.{AreHeadersOf};
ghost use Rattle.declarations.specs.View.{class_shown};
ghost use Rattle.name_judge.specs.Refused.{IsRefused};
ghost use Rattle.je_names.specs.Scopes.{AreScopesOf, declared_classes};

use crate::program::Scopes;
use declarations::{ClassDecl, declaration};
use je_ast::Unit;
use je_base::{Memory, Names};
use je_core::ClassId;
use je_scopes::dependence_is_decided;
use name_judge::{Refusal, judge};
use name_lookup::{Headers, settle};
use name_sites::{Sites, collect};
use std::alloc::Global;
use type_faults::Program;

/// What the units of a program declare, whose names have their texts in `names`; or the first fault of a name in reading order
/// (JLS 6, 7, 8, 9).
pub fn declare<'a>(
    alloc: Global,
    units: &'a [Unit],
    names: &'a Names,
) -> Result<Scopes<'a>, Refusal>
    requires small { units_size (map unit_view units.now) ≤ 2 ^ 26 }
    requires few_names { length names.now < 2 ^ 32 }
    ensures ok { IfOk result (AreScopesOf (source names.now (map unit_view units.now))) }
    ensures err { IfErr result (IsRefused (source names.now (map unit_view units.now))) }
{
    dependence_is_decided();
    let sites = collect(alloc, units, names)?;
    let headers = settle(alloc, &sites)?;
    judge(alloc, &sites, &headers, units)?;
    let classes = declarations(alloc, &sites, &headers)?;
    Ok(Scopes {
        sites,
        headers,
        classes,
    })
}

// What all classes declare, by number.
#[tactic(auto, unfolding(crate::specs::Scopes::declared_classes))]
fn declarations(alloc: Global, sites: &Sites, headers: &Headers) -> Result<Vec<ClassDecl>, Memory>
    requires fits { AreHeadersOf (source_of sites.now) headers.now }
    requires settled { settled (source_of sites.now) ≡ known_of headers.now }
    ensures { IfOk result
        (λ ds. map class_shown ds.items ≡ declared_classes (source_of sites.now)) }
{
    let program = Program::new(alloc, sites, headers);
    let mut classes = Vec::new(alloc);
    for at in 0..sites.len() {
        classes.push(declaration(&program, ClassId(at as u32))?)?;
    }
    Ok(classes)
}
