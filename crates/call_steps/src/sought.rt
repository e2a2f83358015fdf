// The methods of one name that a type has.

ghost use Rattle.std.specs.Prelude.{◌≡◌, IfOk, List, map};
ghost use Rattle.call_typing.specs.Methods.{candidate_of, candidates as the_candidates};
ghost use Rattle.declarations.specs.Declarations.{DeclaredClass};
ghost use Rattle.je_typing.specs.Castable.{bounded as the_bounded};
ghost use Rattle.call_steps.specs.TableView.{HasMethods, methods_at};
ghost use Rattle.name_types.specs.View.{shown};
ghost use Rattle.overloads.specs.View.{candidate_seen};
ghost use Rattle.overriding.specs.Methods.{seen_in};
ghost use Rattle.source_subtypes.specs.View.{heads_of};
ghost use Rattle.call_steps.specs.way.Sought.{methods_by, named_by, own_in};

use crate::seeking::{class_candidates, inherited_candidates};
use crate::table::MethodTable;
use crate::type_arguments::arguments_of;
use je_base::{Memory, NameId};
use name_types::{SrcBase, SrcTy};
use overloads::Candidate;
use reference_tests::bounded;
use source_subtypes::{ClassHeads, object};
use std::alloc::Global;

// Those that the class of a type has; none of what is no class.
#[tactic(auto, using(crate::proofs::SoughtMethods::own_by_parts))]
fn own(
    alloc: Global,
    table: &MethodTable,
    name: NameId,
    ty: &SrcTy,
) -> Result<Vec<Candidate>, Memory>
    ensures { IfOk result (λ cs. map candidate_seen cs.items ≡
        map candidate_of (own_in (named_by (methods_at table.now) name) (shown ty.now))) }
{
    match arguments_of(ty) {
        Some(arguments) => class_candidates(alloc, table, name, arguments),
        None => Ok(Vec::new(alloc)),
    }
}

// Those that what is below a type has from it.
#[tactic(auto, using(class_methods::proofs::Types::seen_by_parts))]
fn inherited(
    alloc: Global,
    table: &MethodTable,
    name: NameId,
    ty: &SrcTy,
) -> Result<Vec<Candidate>, Memory>
    ensures { IfOk result (λ cs. map candidate_seen cs.items ≡
        map candidate_of (seen_in (named_by (methods_at table.now) name) (shown ty.now))) }
{
    match arguments_of(ty) {
        Some(arguments) => inherited_candidates(alloc, table, name, arguments),
        None => Ok(Vec::new(alloc)),
    }
}

// Those of the bound of a type variable.
fn of_bound(
    alloc: Global,
    heads: &ClassHeads,
    table: &MethodTable,
    name: NameId,
    ty: &SrcTy,
) -> Result<Vec<Candidate>, Memory>
    ensures { IfOk result (λ cs. map candidate_seen cs.items ≡ map candidate_of
        (seen_in (named_by (methods_at table.now) name)
        (the_bounded (heads_of heads.now) (shown ty.now)))) }
{
    let bound = bounded(alloc, heads, ty)?;
    let candidates = inherited(alloc, table, name, &bound)?;
    Ok(candidates)
}

// By what the table has of each class.
#[tactic(auto, using(crate::proofs::SoughtMethods::sought))]
fn candidates_by(
    alloc: Global,
    heads: &ClassHeads,
    table: &MethodTable,
    name: NameId,
    ty: &SrcTy,
) -> Result<Vec<Candidate>, Memory>
    ensures { IfOk result (λ cs. map candidate_seen cs.items ≡ map candidate_of
        (methods_by (heads_of heads.now) (named_by (methods_at table.now) name) (shown ty.now))) }
{
    if ty.dims != 0 {
        return inherited(alloc, table, name, &object());
    }
    match &ty.base {
        SrcBase::Plain(_) => own(alloc, table, name, ty),
        SrcBase::Made(_, _) => own(alloc, table, name, ty),
        SrcBase::Var(_, _) => of_bound(alloc, heads, table, name, ty),
    }
}

/// The methods of a name that a call on a value of a type may choose, for any classes of which the table has the
/// methods.
pub fn candidates(
    alloc: Global,
    heads: &ClassHeads,
    table: &MethodTable,
    name: NameId,
    ty: &SrcTy,
) -> Result<Vec<Candidate>, Memory>
    ensures { IfOk result (λ cs. (classes : List DeclaredClass) →
        HasMethods (heads_of heads.now) classes table.now → map candidate_seen cs.items ≡
        the_candidates (heads_of heads.now) classes name (shown ty.now)) }
{
    let candidates = candidates_by(alloc, heads, table, name, ty)?;
    Ok(candidates)
}
