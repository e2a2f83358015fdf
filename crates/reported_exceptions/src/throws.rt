// The checked exceptions that a place can throw, and those that catches take.

ghost use Rattle.std.specs.Prelude.{◌≡◌, ◌++◌, IfOk, OnOk, if◌then◌else◌, [], map};
ghost use Rattle.je_core.specs.Core.{core_catches};
ghost use Rattle.je_core.specs.View.{catch_view, program_view};
ghost use Rattle.reported_exceptions.specs.Expressions.{call_throws};
ghost use Rattle.reported_exceptions.specs.Throws.{runtime_exception as the_runtime_exception, error as the_error, is_checked as the_is_checked, thrown as the_thrown, each_thrown, is_taken as the_is_taken, untaken, out_behind};
ghost use Rattle.reported_exceptions.specs.way.Parts.{class_of as the_class_of};

use class_members::method_at;
use je_classes::is_below;
use je_core::{Catch, ClassId, Memory, Program, Span};
use je_table::LibraryClass;
use std::alloc::Global;

/// A checked exception of this class, or of one below it, may be thrown at a token.
#[derive(Clone, Copy, PartialEq, Eq)]
pub struct Throw {
    pub class: ClassId,
    pub at: Span,
}

#[tactic(auto, unfolding(je_classes::specs::Hierarchy::library_class, crate::specs::Throws::runtime_exception))]
fn runtime_exception() -> ClassId
    ensures { result ≡ the_runtime_exception }
{
    ClassId(LibraryClass::RuntimeException.number())
}

#[tactic(auto, unfolding(je_classes::specs::Hierarchy::library_class, crate::specs::Throws::error))]
fn error() -> ClassId
    ensures { result ≡ the_error }
{
    ClassId(LibraryClass::Error.number())
}

/// Whether a class of exceptions is checked (JLS 11.2).
pub fn is_checked(alloc: Global, program: &Program, class: ClassId) -> Result<bool, Memory>
    ensures { IfOk result (λ is. is ≡ the_is_checked (program_view program.now) class) }
{
    if is_below(alloc, program, class, runtime_exception())? {
        return Ok(false);
    }
    Ok(!is_below(alloc, program, class, error())?)
}

/// Adds what a token throws that throws this class: nothing where that is unchecked.
pub fn throw_class(
    alloc: Global,
    program: &Program,
    class: ClassId,
    at: Span,
    thrown: &mut Vec<Throw>,
) -> Result<(), Memory>
    ensures { OnOk result (thrown.new.items ≡ out_behind (program_view program.now)
        thrown.old.items (the_thrown (program_view program.now) class at)) }
{
    if is_checked(alloc, program, class)? {
        thrown.push(Throw { class, at })?;
    }
    Ok(())
}

/// Adds what a token throws that throws each of these classes.
pub fn throw_each(
    alloc: Global,
    program: &Program,
    classes: &[ClassId],
    at: Span,
    thrown: &mut Vec<Throw>,
) -> Result<(), Memory>
    ensures { OnOk result (thrown.new.items ≡ out_behind (program_view program.now)
        thrown.old.items (each_thrown (program_view program.now) classes.now at)) }
{
    for class in classes {
        throw_class(alloc, program, *class, at, thrown)?;
    }
    Ok(())
}

/// Adds what a call of a method throws: the classes that the method declares.
pub fn throw_call(
    alloc: Global,
    program: &Program,
    class: ClassId,
    method: u32,
    at: Span,
    thrown: &mut Vec<Throw>,
) -> Result<(), Memory>
    ensures { OnOk result (thrown.new.items ≡ out_behind (program_view program.now)
        thrown.old.items (call_throws (program_view program.now) class method at)) }
{
    throw_member(alloc, program, class, method as usize, at, thrown)
}

/// The same, by the method's place.
pub fn throw_member(
    alloc: Global,
    program: &Program,
    class: ClassId,
    place: usize,
    at: Span,
    thrown: &mut Vec<Throw>,
) -> Result<(), Memory>
    ensures { OnOk result (thrown.new.items ≡ out_behind (program_view program.now)
        thrown.old.items (call_throws (program_view program.now) class place at)) }
{
    match method_at(program, class, place) {
        None => Ok(()),
        Some(method) => throw_each(alloc, program, &method.throws, at, thrown),
    }
}

// Whether one of some catches takes a class.
#[tactic(auto, using(crate::proofs::Parts::taken_step))]
fn is_taken(
    alloc: Global,
    program: &Program,
    catches: &[Catch],
    class: ClassId,
) -> Result<bool, Memory>
    ensures { IfOk result (λ is. is ≡ the_is_taken (program_view program.now)
        (core_catches (map catch_view catches.now)) class) }
{
    for catch in catches {
        if is_below(alloc, program, class, class_of(catch))? {
            return Ok(true);
        }
    }
    Ok(false)
}

/// The class that a catch takes.
#[tactic(auto, using(je_core::proofs::Views::parts_seen))]
pub fn class_of(catch: &Catch) -> ClassId
    ensures { result ≡ the_class_of (catch_view catch.now) }
{
    catch.class
}

/// Adds those that no catch takes.
pub fn throw_untaken(
    alloc: Global,
    program: &Program,
    catches: &[Catch],
    tried: &[Throw],
    thrown: &mut Vec<Throw>,
) -> Result<(), Memory>
    ensures { OnOk result (thrown.new.items ≡ thrown.old.items ++
        untaken (program_view program.now) (core_catches (map catch_view catches.now)) tried.now) }
{
    for one in tried {
        if !is_taken(alloc, program, catches, one.class)? {
            thrown.push(*one)?;
        }
    }
    Ok(())
}

/// Adds what is thrown before a `finally`, where that can complete normally.
pub fn throw_past(completes: bool, before: &[Throw], thrown: &mut Vec<Throw>) -> Result<(), Memory>
    ensures { OnOk result (thrown.new.items ≡
        thrown.old.items ++ (if completes then before.now else [])) }
{
    if completes {
        thrown.extend_from_slice(before)?;
    }
    Ok(())
}
