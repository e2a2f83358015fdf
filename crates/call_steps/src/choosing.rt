// The method, or the constructor, that arguments choose (JLS 15.9.3, 15.12.2).

ghost use Rattle.std.specs.Prelude.{◌≡◌, IfErr, IfOk, map};
ghost use Rattle.call_typing.specs.Calls.{type_of};
ghost use Rattle.call_typing.specs.Constructors.{constructors_in as the_constructors_in};
ghost use Rattle.call_typing.specs.Methods.{candidates as the_candidates};
ghost use Rattle.call_typing.specs.Overloads.{choice, chosen as the_chosen};
ghost use Rattle.class_heads.specs.View.{classes_of};
ghost use Rattle.je_typing.specs.Answers.{IsFault};
ghost use Rattle.je_typing.specs.declared.fault.TypeRule.TheVariants as rule;
ghost use Rattle.je_typing.specs.Judged.{gives};
ghost use Rattle.call_steps.specs.TableView.{HasMethods};
ghost use Rattle.name_sites.specs.View.{source_of};
ghost use Rattle.name_types.specs.View.{shown};
ghost use Rattle.overloads.specs.View.{candidate_seen};
ghost use Rattle.source_subtypes.specs.View.{heads_of};
ghost use Rattle.typed_nodes.specs.Seen.{seen};

use crate::arguments::types_of;
use crate::caller::Caller;
use crate::constructors::constructors_in;
use crate::sought::candidates;
use crate::type_arguments::arguments_of;
use je_ast::Identifier;
use je_base::{Memory, NameId, Span};
use je_typing::{Refusal, TypeRule};
use name_types::SrcTy;
use overloads::{Candidate, choose, chosen};
use source_subtypes::{all_copied, copied};
use std::alloc::Global;
use typed_nodes::TypedExpr;

// The same candidate once more.
fn copied_candidate(alloc: Global, candidate: &Candidate) -> Result<Candidate, Memory>
    ensures { IfOk result (λ c. candidate_seen c ≡ candidate_seen candidate.now) }
{
    Ok(Candidate {
        class: candidate.class,
        place: candidate.place,
        flags: candidate.flags,
        parameters: all_copied(alloc, &candidate.parameters)?,
        result: copied(alloc, &candidate.result)?,
        declared: copied(alloc, &candidate.declared)?,
        is_abstract: candidate.is_abstract,
    })
}

// The one of these that arguments choose, else the fault; `rule` is that where none accepts them.
#[tactic(auto, using(je_typing::proofs::Walks::walks))]
fn chosen_among(
    alloc: Global,
    caller: Caller,
    rule: TypeRule,
    at: Span,
    candidates: &[Candidate],
    arguments: &[TypedExpr],
) -> Result<Candidate, Refusal>
    ensures ok { IfOk result (λ c. the_chosen rule at (choice (heads_of caller.entry.heads.now)
        (source_of caller.entry.sites.now).sites caller.entry.class.0
        (map candidate_seen candidates.now) (map type_of (map seen arguments.now)))
        ≡ gives (candidate_seen c)) }
    ensures err { IfErr result (IsFault (the_chosen rule at (choice (heads_of caller.entry.heads.now)
        (source_of caller.entry.sites.now).sites caller.entry.class.0
        (map candidate_seen candidates.now) (map type_of (map seen arguments.now))))) }
{
    let types = types_of(alloc, arguments)?;
    let choice = choose(
        alloc,
        caller.heads,
        caller.sites,
        caller.class,
        candidates,
        &types,
    )?;
    let one = chosen(rule, at, choice)?;
    let one = copied_candidate(alloc, one)?;
    Ok(one)
}

// The methods of a name that a call on a value of a type may choose.
fn methods_of(
    alloc: Global,
    caller: Caller,
    name: NameId,
    ty: &SrcTy,
) -> Result<Vec<Candidate>, Memory>
    requires { HasMethods (heads_of caller.heads.now) (classes_of caller.classes)
        caller.methods.now }
    ensures { IfOk result (λ cs. map candidate_seen cs.items ≡
        the_candidates (heads_of caller.entry.heads.now) (classes_of caller.entry.classes) name
        (shown ty.now)) }
{
    let methods = candidates(alloc, caller.heads, caller.methods, name, ty)?;
    Ok(methods)
}

/// The method of a type that a name and arguments choose.
#[tactic(auto, using(je_typing::proofs::Walks::walks))]
pub fn method_for(
    alloc: Global,
    caller: Caller,
    ty: &SrcTy,
    id: Identifier,
    arguments: &[TypedExpr],
) -> Result<Candidate, Refusal>
    requires { HasMethods (heads_of caller.heads.now) (classes_of caller.classes)
        caller.methods.now }
    ensures ok { IfOk result (λ m. the_chosen rule.NoMethod id.span
        (choice (heads_of caller.entry.heads.now) (source_of caller.entry.sites.now).sites
        caller.entry.class.0 (the_candidates (heads_of caller.entry.heads.now)
        (classes_of caller.entry.classes) id.name (shown ty.now))
        (map type_of (map seen arguments.now))) ≡ gives (candidate_seen m)) }
    ensures err { IfErr result (IsFault (the_chosen rule.NoMethod id.span
        (choice (heads_of caller.entry.heads.now) (source_of caller.entry.sites.now).sites
        caller.entry.class.0 (the_candidates (heads_of caller.entry.heads.now)
        (classes_of caller.entry.classes) id.name (shown ty.now))
        (map type_of (map seen arguments.now))))) }
{
    let methods = methods_of(alloc, caller, id.name, ty)?;
    let method = chosen_among(
        alloc,
        caller,
        TypeRule::NoMethod,
        id.span,
        &methods,
        arguments,
    )?;
    Ok(method)
}

// The constructors of a type that a creation may choose.
#[tactic(auto, using(crate::proofs::Parts::constructors_by_parts))]
fn constructors_of(alloc: Global, caller: Caller, ty: &SrcTy) -> Result<Vec<Candidate>, Memory>
    ensures { IfOk result (λ cs. map candidate_seen cs.items ≡ the_constructors_in
        (source_of caller.entry.sites.now).sites (classes_of caller.entry.classes) (shown ty.now)) }
{
    match arguments_of(ty) {
        Some(arguments) => constructors_in(alloc, caller.sites, caller.classes, arguments),
        None => Ok(Vec::new(alloc)),
    }
}

/// The constructor of a type that arguments choose; `at` is where a fault stands.
#[tactic(auto, using(je_typing::proofs::Walks::walks))]
pub fn constructor_for(
    alloc: Global,
    caller: Caller,
    ty: &SrcTy,
    at: Span,
    arguments: &[TypedExpr],
) -> Result<Candidate, Refusal>
    ensures ok { IfOk result (λ m. the_chosen rule.NoConstructor at
        (choice (heads_of caller.entry.heads.now) (source_of caller.entry.sites.now).sites
        caller.entry.class.0 (the_constructors_in (source_of caller.entry.sites.now).sites
        (classes_of caller.entry.classes) (shown ty.now))
        (map type_of (map seen arguments.now))) ≡ gives (candidate_seen m)) }
    ensures err { IfErr result (IsFault (the_chosen rule.NoConstructor at
        (choice (heads_of caller.entry.heads.now) (source_of caller.entry.sites.now).sites
        caller.entry.class.0 (the_constructors_in (source_of caller.entry.sites.now).sites
        (classes_of caller.entry.classes) (shown ty.now))
        (map type_of (map seen arguments.now))))) }
{
    let constructors = constructors_of(alloc, caller, ty)?;
    let constructor = chosen_among(
        alloc,
        caller,
        TypeRule::NoConstructor,
        at,
        &constructors,
        arguments,
    )?;
    Ok(constructor)
}
