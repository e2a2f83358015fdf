// The methods of one name.

ghost use Rattle.std.specs.Prelude.{◌≡◌, ◌++◌, ◌∷◌, ◌&&◌, IfOk, List, OnOk, filter, map, if◌then◌else◌};
ghost use Rattle.call_typing.specs.Methods.{candidate_of, named};
ghost use Rattle.je_scopes.specs.Headers.{same_name};
ghost use Rattle.overriding.specs.Methods as words;
ghost use Rattle.class_methods.specs.View.{arguments_seen, method_seen};
ghost use Rattle.class_methods.specs.way.Parts.{put_arguments};
ghost use Rattle.call_steps.specs.TableView.{methods_at};
ghost use Rattle.overloads.specs.View.{candidate_seen};

use crate::table::MethodTable;
use class_methods::Method;
use je_base::{Memory, NameId};
use overloads::{Candidate, is_private};
use source_subtypes::{Arguments, all_substituted, copied, substituted};
use std::alloc::Global;

/// A method as a candidate of a call, with type arguments put in.
pub fn candidate(alloc: Global, arguments: Arguments, method: &Method) -> Result<Candidate, Memory>
    ensures { IfOk result (λ c. candidate_seen c ≡
        candidate_of (put_arguments (arguments_seen arguments.entry) (method_seen method.now))) }
{
    Ok(Candidate {
        class: method.holder,
        place: method.place,
        flags: method.declared.flags,
        parameters: all_substituted(alloc, arguments, &method.parameters)?,
        result: substituted(alloc, arguments, &method.result)?,
        declared: copied(alloc, &method.declared.result)?,
        is_abstract: method.is_abstract,
    })
}

fn has_name(method: &Method, name: NameId) -> bool
    ensures { result ≡ same_name (words.name_of (method_seen method.now)) name }
{
    method.declared.name.name.0 == name.0
}

// A method more, if it has the name.
fn push_named(
    alloc: Global,
    candidates: &mut Vec<Candidate>,
    name: NameId,
    arguments: Arguments,
    method: &Method,
) -> Result<(), Memory>
    ensures { OnOk result ((rest : List words.Method) → map candidate_seen candidates.new.items
        ++ map candidate_of (map (put_arguments (arguments_seen arguments.entry)) rest) ≡
        map candidate_seen candidates.old.items
        ++ map candidate_of (map (put_arguments (arguments_seen arguments.entry))
        (if same_name (words.name_of (method_seen method.now)) name
        then method_seen method.now ∷ rest else rest))) }
{
    if has_name(method, name) {
        candidates.push(candidate(alloc, arguments, method)?)?;
    }
    Ok(())
}

// Those of a name among these.
fn named_among(
    alloc: Global,
    name: NameId,
    arguments: Arguments,
    methods: &[Method],
) -> Result<Vec<Candidate>, Memory>
    ensures { IfOk result (λ cs. map candidate_seen cs.items ≡
        map candidate_of (map (put_arguments (arguments_seen arguments.entry))
        (named name (map method_seen methods.now)))) }
{
    let mut candidates = Vec::new(alloc);
    for at in 0..methods.len() {
        push_named(alloc, &mut candidates, name, arguments, &methods[at])?;
    }
    Ok(candidates)
}

/// Those of a name that a class has, with type arguments put in.
#[tactic(auto, unfolding(crate::specs::TableView::methods_at))]
pub fn class_candidates(
    alloc: Global,
    table: &MethodTable,
    name: NameId,
    arguments: Arguments,
) -> Result<Vec<Candidate>, Memory>
    ensures { IfOk result (λ cs. map candidate_seen cs.items ≡
        map candidate_of (map (put_arguments (arguments_seen arguments.entry))
        (named name (methods_at table.now arguments.entry.class.0)))) }
{
    match table.row(arguments.class) {
        Some(methods) => named_among(alloc, name, arguments, methods),
        None => Ok(Vec::new(alloc)),
    }
}

// A method more, if classes below inherit it and it has the name.
fn push_inherited(
    alloc: Global,
    candidates: &mut Vec<Candidate>,
    name: NameId,
    arguments: Arguments,
    method: &Method,
) -> Result<(), Memory>
    ensures { OnOk result ((rest : List words.Method) → map candidate_seen candidates.new.items
        ++ map candidate_of (map (put_arguments (arguments_seen arguments.entry))
        (filter words.is_inheritable (named name rest))) ≡
        map candidate_seen candidates.old.items
        ++ map candidate_of (map (put_arguments (arguments_seen arguments.entry))
        (filter words.is_inheritable (named name (method_seen method.now ∷ rest))))) }
{
    if has_name(method, name) && !is_private(method.declared.flags.access) {
        candidates.push(candidate(alloc, arguments, method)?)?;
    }
    Ok(())
}

// Those of a name among these, private ones aside.
fn inheritable_among(
    alloc: Global,
    name: NameId,
    arguments: Arguments,
    methods: &[Method],
) -> Result<Vec<Candidate>, Memory>
    ensures { IfOk result (λ cs. map candidate_seen cs.items ≡
        map candidate_of (map (put_arguments (arguments_seen arguments.entry))
        (filter words.is_inheritable (named name (map method_seen methods.now))))) }
{
    let mut candidates = Vec::new(alloc);
    for at in 0..methods.len() {
        push_inherited(alloc, &mut candidates, name, arguments, &methods[at])?;
    }
    Ok(candidates)
}

/// Those of a name that classes below a class inherit, with type arguments put in.
#[tactic(auto, unfolding(crate::specs::TableView::methods_at))]
pub fn inherited_candidates(
    alloc: Global,
    table: &MethodTable,
    name: NameId,
    arguments: Arguments,
) -> Result<Vec<Candidate>, Memory>
    ensures { IfOk result (λ cs. map candidate_seen cs.items ≡
        map candidate_of (map (put_arguments (arguments_seen arguments.entry))
        (filter words.is_inheritable (named name (methods_at table.now arguments.entry.class.0))))) }
{
    match table.row(arguments.class) {
        Some(methods) => inheritable_among(alloc, name, arguments, methods),
        None => Ok(Vec::new(alloc)),
    }
}
