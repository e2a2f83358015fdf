// Which class is below which.

ghost use Rattle.std.specs.Prelude.{◌≡◌, IfOk, OnOk, List, length, slice_get};
ghost use Rattle.je_core.specs.declared.types.ClassId.{ClassId as TheClassId};
ghost use Rattle.je_core.specs.View.{program_view};
ghost use Rattle.je_classes.specs.Hierarchy.{supers_of, with_superclass, is_below as the_is_below};
ghost use Rattle.je_classes.specs.way.Reaching.{has as the_has, with_reached, with_all, found};

use je_core::{ClassId, Memory, Program};
use std::alloc::Global;

// Whether a class is one of some.
fn has(classes: &[ClassId], class: ClassId) -> bool
    ensures { result ≡ the_has classes.now class }
{
    for other in classes {
        if class.0 == other.0 {
            return true;
        }
    }
    false
}

// Whether a class names another one as a super.
fn names(program: &Program, class: ClassId, sought: ClassId) -> bool
    ensures { result ≡ the_has (supers_of (program_view program.now) class) sought }
{
    let Some(class) = program.class(class) else {
        return false;
    };
    match class.superclass {
        Some(superclass) if sought.0 == superclass.0 => true,
        _ => has(&class.interfaces, sought),
    }
}

/// One more class is reached, unless it was, or there is none of that number among so many.
pub fn reach_one(reached: &mut Vec<ClassId>, count: usize, class: ClassId) -> Result<(), Memory>
    ensures { OnOk result (reached.new.items ≡ with_reached count reached.old.items class) }
{
    if (class.0 as usize) < count && !has(reached, class) {
        reached.push(class)?;
    }
    Ok(())
}

fn reach_all(reached: &mut Vec<ClassId>, count: usize, classes: &[ClassId]) -> Result<(), Memory>
    ensures { OnOk result (reached.new.items ≡ with_all count reached.old.items classes.now) }
{
    for class in classes {
        reach_one(reached, count, *class)?;
    }
    Ok(())
}

// A superclass is reached, if there is one.
fn reach_superclass(
    reached: &mut Vec<ClassId>,
    count: usize,
    superclass: Option<ClassId>,
) -> Result<(), Memory>
    ensures { OnOk result ((interfaces : List TheClassId) →
        with_all count reached.new.items interfaces ≡
        with_all count reached.old.items (with_superclass superclass interfaces)) }
{
    match superclass {
        Some(superclass) => reach_one(reached, count, superclass),
        None => Ok(()),
    }
}

/// How many classes a program has.
#[tactic(auto, unfolding(je_core::specs::View::program_view))]
pub fn class_count(program: &Program) -> usize
    ensures { result ≡ length (program_view program.now).classes }
{
    program.classes.len()
}

/// The supers of a class are reached, each unless it was.
pub fn reach_supers(
    reached: &mut Vec<ClassId>,
    program: &Program,
    class: ClassId,
) -> Result<(), Memory>
    ensures { OnOk result (reached.new.items ≡
        with_all (length (program_view program.now).classes) reached.old.items
        (supers_of (program_view program.now) class)) }
{
    let count = class_count(program);
    let Some(class) = program.class(class) else {
        return Ok(());
    };
    reach_superclass(reached, count, class.superclass)?;
    reach_all(reached, count, &class.interfaces)
}

/// The class at a place of some.
pub fn class_in(classes: &[ClassId], at: usize) -> Option<ClassId>
    ensures { result ≡ slice_get classes.now at }
{
    classes.get(at).copied()
}

// Whether a class is above another one that isn't it.
fn is_above(alloc: Global, program: &Program, own: ClassId, class: ClassId) -> Result<bool, Memory>
    ensures { IfOk result (λ above. above ≡ found (program_view program.now) own class) }
{
    let classes = class_count(program);
    let mut reached = Vec::new(alloc);
    reach_one(&mut reached, classes, own)?;
    for at in 0..classes {
        let Some(next) = class_in(&reached, at) else {
            return Ok(false);
        };
        if names(program, next, class) {
            return Ok(true);
        }
        reach_supers(&mut reached, program, next)?;
    }
    Ok(false)
}

/// Whether the first class is the second, or below it.
#[tactic(auto, using(crate::proofs::Reaching::below_itself, crate::proofs::Reaching::below_another))]
pub fn is_below(
    alloc: Global,
    program: &Program,
    own: ClassId,
    class: ClassId,
) -> Result<bool, Memory>
    ensures { IfOk result (λ below. below ≡
        the_is_below (program_view program.now) own class) }
{
    if own.0 == class.0 {
        return Ok(true);
    }
    is_above(alloc, program, own, class)
}
