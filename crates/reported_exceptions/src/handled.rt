// The faults of what is neither caught nor declared, and of catches that take nothing.

ghost use Rattle.std.specs.Prelude.{◌≡◌, [], IfOk, OnOk, map};
ghost use Rattle.je_core.specs.Core.{core_catches};
ghost use Rattle.je_core.specs.View.{catch_view, program_view};
ghost use Rattle.flow_base.specs.way.Kept.{first_of};
ghost use Rattle.reported_exceptions.specs.Handled.{throwable as the_throwable, exception as the_exception, is_below_one as the_is_below_one, unreported, may_come as the_may_come, is_any as the_is_any, is_never_thrown as the_is_never_thrown, takes_nothing as the_takes_nothing, catch_fault, catch_faults};
ghost use Rattle.reported_exceptions.specs.Programs.{all_unreported};
ghost use Rattle.reported_exceptions.specs.way.Parts.{span_of as the_span_of};

use crate::throws::{Throw, class_of, is_checked};
use class_members::same_class;
use flow_base::{FaultKind, FirstFault};
use je_classes::is_below;
use je_core::{Catch, ClassId, Memory, Program, Span};
use je_table::LibraryClass;
use std::alloc::Global;

#[tactic(auto, unfolding(je_classes::specs::Hierarchy::library_class, crate::specs::Handled::throwable))]
fn throwable() -> ClassId
    ensures { result ≡ the_throwable }
{
    ClassId(LibraryClass::Throwable.number())
}

#[tactic(auto, unfolding(je_classes::specs::Hierarchy::library_class, crate::specs::Handled::exception))]
fn exception() -> ClassId
    ensures { result ≡ the_exception }
{
    ClassId(LibraryClass::Exception.number())
}

// Whether a class is at or below one of these.
fn is_below_one(
    alloc: Global,
    program: &Program,
    classes: &[ClassId],
    class: ClassId,
) -> Result<bool, Memory>
    ensures { IfOk result (λ is. is ≡
        the_is_below_one (program_view program.now) classes.now class) }
{
    for one in classes {
        if is_below(alloc, program, class, *one)? {
            return Ok(true);
        }
    }
    Ok(false)
}

// Adds a fault where what is thrown isn't declared.
fn report_one(
    alloc: Global,
    program: &Program,
    declared: &[ClassId],
    thrown: &Throw,
    found: &mut FirstFault,
) -> Result<(), Memory>
    ensures { OnOk result (found.new ≡ first_of found.old
        (unreported (program_view program.now) declared.now thrown.now)) }
{
    let is_declared = is_below_one(alloc, program, declared, thrown.class)?;
    found.add_where(!is_declared, FaultKind::Unreported, thrown.at);
    Ok(())
}

/// Adds a fault for each that is thrown and isn't declared.
pub fn report(
    alloc: Global,
    program: &Program,
    declared: &[ClassId],
    thrown: &[Throw],
    found: &mut FirstFault,
) -> Result<(), Memory>
    ensures { OnOk result (found.new ≡ first_of found.old
        (all_unreported (program_view program.now) declared.now thrown.now)) }
{
    for one in thrown {
        report_one(alloc, program, declared, one, found)?;
    }
    Ok(())
}

// Whether an exception of a class may be among those that are thrown.
fn may_come(
    alloc: Global,
    program: &Program,
    thrown: &[Throw],
    class: ClassId,
) -> Result<bool, Memory>
    ensures { IfOk result (λ may. may ≡
        the_may_come (program_view program.now) thrown.now class) }
{
    for one in thrown {
        if is_below(alloc, program, one.class, class)? {
            return Ok(true);
        }
        if is_below(alloc, program, class, one.class)? {
            return Ok(true);
        }
    }
    Ok(false)
}

fn is_any(class: ClassId) -> bool
    ensures { result ≡ the_is_any class }
{
    same_class(class, exception()) || same_class(class, throwable())
}

// Whether a class is a checked one that no such block throws.
fn is_never_thrown(
    alloc: Global,
    program: &Program,
    thrown: &[Throw],
    class: ClassId,
) -> Result<bool, Memory>
    ensures { IfOk result (λ is. is ≡
        the_is_never_thrown (program_view program.now) thrown.now class) }
{
    if !is_checked(alloc, program, class)? {
        return Ok(false);
    }
    if is_any(class) {
        return Ok(false);
    }
    Ok(!may_come(alloc, program, thrown, class)?)
}

// Adds a fault where a catch takes nothing, behind those of some classes.
fn judge_catch(
    alloc: Global,
    program: &Program,
    thrown: &[Throw],
    earlier: &[ClassId],
    class: ClassId,
    span: Span,
    found: &mut FirstFault,
) -> Result<(), Memory>
    ensures { OnOk result (found.new ≡ first_of found.old
        (catch_fault (program_view program.now) thrown.now earlier.now class span)) }
{
    let is_idle = takes_nothing(alloc, program, thrown, earlier, class)?;
    found.add_where(is_idle, FaultKind::Unreachable, span);
    Ok(())
}

// Whether a catch takes nothing, behind those of some classes.
fn takes_nothing(
    alloc: Global,
    program: &Program,
    thrown: &[Throw],
    earlier: &[ClassId],
    class: ClassId,
) -> Result<bool, Memory>
    ensures { IfOk result (λ is. is ≡
        the_takes_nothing (program_view program.now) thrown.now earlier.now class) }
{
    if is_below_one(alloc, program, earlier, class)? {
        return Ok(true);
    }
    is_never_thrown(alloc, program, thrown, class)
}

/// Adds a fault for each catch of a `try` that takes nothing, of what the block throws.
#[tactic(auto, using(crate::proofs::Parts::catch_faults_step))]
pub fn judge_catches(
    alloc: Global,
    program: &Program,
    thrown: &[Throw],
    catches: &[Catch],
    found: &mut FirstFault,
) -> Result<(), Memory>
    ensures { OnOk result (found.new ≡ first_of found.old (catch_faults
        (program_view program.now) thrown.now [] (core_catches (map catch_view catches.now)))) }
{
    let mut earlier = Vec::new(alloc);
    for catch in catches {
        let class = class_of(catch);
        judge_catch(
            alloc,
            program,
            thrown,
            &earlier,
            class,
            span_of(catch),
            found,
        )?;
        earlier.push(class)?;
    }
    Ok(())
}

#[tactic(auto, using(je_core::proofs::Views::parts_seen))]
fn span_of(catch: &Catch) -> Span
    ensures { result ≡ the_span_of (catch_view catch.now) }
{
    catch.span
}
