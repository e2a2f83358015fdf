// An order in which each class comes behind the first of those above it.

ghost use Rattle.std.specs.Prelude.{◌≡◌, ◌⊎◌, ◌<◌, ◌^◌, ◌++◌, ◌∷◌, [], ℕ, IfOk, OnOk, length, slice_get, Some, true};
ghost use Rattle.je_core.specs.declared.types.ClassId.{ClassId as TheClassId};
ghost use Rattle.je_core.specs.View.{program_view};
ghost use Rattle.je_classes.specs.Hierarchy.{IsAcyclic};
ghost use Rattle.je_classes.specs.Members.{In};
ghost use Rattle.class_tables.specs.way.Order.{first_super as the_first_super, IsThere, IsPath, IsOrder, IsWhole};

use je_classes::class_count;
use je_core::{ClassId, Memory, Program};
use std::alloc::Global;

/// Classes in an order, and which of a program's classes are among them.
#[derive(Drop)]
pub(crate) struct Order {
    classes: Vec<ClassId>,
    placed: Vec<bool>,
}

/// The superclass of a class, or its first interface where it has none.
pub(crate) fn first_super(program: &Program, class: ClassId) -> Option<ClassId>
    ensures { result ≡ the_first_super (program_view program.now) class }
{
    let Some(class) = program.class(class) else {
        return None;
    };
    match class.superclass {
        Some(superclass) => Some(superclass),
        None => class.interfaces.first().copied(),
    }
}

// The class and those that are come by from it along first supers, as far as they aren't placed.
fn climb(
    alloc: Global,
    program: &Program,
    order: &Order,
    class: ClassId,
) -> Result<Vec<ClassId>, Memory>
    requires acyclic { IsAcyclic (program_view program.now) }
    requires order { IsOrder (program_view program.now) order.now }
    ensures { IfOk result (λ path. IsPath (program_view program.now) order.now class path.items) }
{
    let count = class_count(program);
    let mut path = Vec::new(alloc);
    let mut above = Some(class);
    for at in 0..count {
        let Some(next) = above else {
            return Ok(path);
        };
        if order.is_placed(next) {
            return Ok(path);
        }
        path.push(next)?;
        above = first_super(program, next);
    }
    Ok(path)
}

impl Order {
    ghost use Rattle.std.specs.Prelude.{◌≡◌, ◌⊎◌, ◌++◌, ◌∷◌, [], IfOk, OnOk, length, slice_get, Some, true};
    ghost use Rattle.je_core.specs.declared.types.ClassId.{ClassId as TheClassId};
    ghost use Rattle.class_tables.specs.way.Order.{is_marked};

    // Whether a class is placed, as one is that isn't there.
    fn is_placed(&self, class: ClassId) -> bool
        ensures { result ≡ is_marked (slice_get self.now.placed.items class.0) }
    {
        match self.placed.get(class.0 as usize) {
            Some(placed) => *placed,
            None => true,
        }
    }

    // Places a class behind the others.
    fn place(&mut self, class: ClassId) -> Result<(), Memory>
        ensures classes { OnOk result
            (self.new.classes.items ≡ self.old.classes.items ++ class ∷ []) }
        ensures count { length self.new.placed.items ≡ length self.old.placed.items }
        ensures placed { OnOk result
            ((c : TheClassId) → slice_get self.new.placed.items c.0 ≡ Some true →
            (slice_get self.old.placed.items c.0 ≡ Some true) ⊎ (c ≡ class)) }
    {
        let at = class.0 as usize;
        if at < self.placed.len() {
            self.placed[at] = true;
        }
        self.classes.push(class)?;
        Ok(())
    }
}

// Places the classes of a path, the last one first.
fn descend(
    program: &Program,
    order: &mut Order,
    class: ClassId,
    mut path: Vec<ClassId>,
) -> Result<(), Memory>
    requires order { IsOrder (program_view program.now) order.old }
    requires path { IsPath (program_view program.now) order.old class path.items }
    ensures order { OnOk result (IsOrder (program_view program.now) order.new) }
    ensures there { OnOk result (IsThere (program_view program.now) order.new.classes.items class) }
    ensures others { OnOk result
        ((c : TheClassId) → In order.old.classes.items c → In order.new.classes.items c) }
{
    while let Some(next) = path.pop() {
        order.place(next)?;
    }
    Ok(())
}

/// All classes of a program, each behind the first of those above it.
pub(crate) fn in_order(alloc: Global, program: &Program) -> Result<Vec<ClassId>, Memory>
    requires acyclic { IsAcyclic (program_view program.now) }
    requires few { length (program_view program.now).classes < 2 ^ 31 }
    ensures { IfOk result (λ classes. IsWhole (program_view program.now) classes.items) }
{
    let count = class_count(program);
    let mut order = Order {
        classes: Vec::new(alloc),
        placed: vec![in alloc; false; count]?,
    };
    for at in 0..count {
        let class = ClassId(at as u32);
        let path = climb(alloc, program, &order, class)?;
        descend(program, &mut order, class, path)?;
    }
    Ok(order.classes)
}
