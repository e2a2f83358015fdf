// The scope at a place of a body, and how a walk over statements changes it (JLS 6.3, 14.2 to 14.4).

ghost use Rattle.std.specs.Prelude.{◌≡◌, ◌-◌, OnOk, drop, length, map};
ghost use Rattle.std.specs.List.{list_any};
ghost use Rattle.je_scopes.specs.Headers.{same_name};
ghost use Rattle.body_typing.specs.FinalVariables.{Scope as Seen};
ghost use Rattle.name_typing.specs.Program.{LocalVariable as SeenLocal};
ghost use Rattle.body_typing.specs.Bodies.{has_local as the_has_local, with_classes_of, with_local, with_local_class};
ghost use Rattle.body_places.specs.Places.{local_seen, place_seen};
ghost use Rattle.body_scopes.specs.Extending.{Extends};
ghost use Rattle.body_scopes.specs.View.{IsDepthOf, scope_seen};

use body_places::{Frame, LocalVariable, Place};
use je_base::{Memory, NameId};
use je_core::ClassId;

/// A place in a body, and what is known of its final locals.
#[derive(Drop)]
pub struct Scope<'a> {
    pub here: Frame,
    /// The bodies that the class stands in, the innermost first.
    pub round: &'a [Frame],
    pub is_constructor: bool,
    /// The numbers of the final locals that have their value from where they are declared.
    pub given: Vec<u32>,
}

/// How much stands in a scope.
#[derive(Clone, Copy)]
pub struct Depth {
    pub(crate) locals: usize,
    pub(crate) classes: usize,
    pub(crate) given: usize,
}

// Takes away the first elements, so that so many are left.
fn keep_last<T: Drop>(list: &mut Vec<T>, kept: usize)
    ensures { list.new.items ≡ drop (length list.old.items - kept) list.old.items }
{
    let gone = list.len().saturating_sub(kept);
    drop(list.drain(..gone));
}

fn has_name(locals: &[LocalVariable], name: NameId) -> bool
    ensures { result ≡ list_any (λ (v : SeenLocal). same_name v.name name) (map local_seen locals.now) }
{
    for local in locals {
        if local.name.0 == name.0 {
            return true;
        }
    }
    false
}

impl<'a> Scope<'a> {
    ghost use Rattle.std.specs.Prelude.{◌≡◌, OnOk};
    ghost use Rattle.body_typing.specs.FinalVariables.{Scope as Seen};
    ghost use Rattle.body_typing.specs.Bodies.{has_local as the_has_local, with_classes_of, with_local, with_local_class};
    ghost use Rattle.body_places.specs.Places.{local_seen, place_seen};
    ghost use Rattle.body_scopes.specs.Extending.{Extends};
    ghost use Rattle.body_scopes.specs.View.{IsDepthOf, scope_seen};

    /// The place alone.
    pub fn place(&self) -> Place<'_>
        ensures { place_seen result ≡ (scope_seen self.now).place }
    {
        Place {
            here: &self.here,
            round: self.round,
        }
    }

    /// A local of this name is in scope in the body itself.
    pub fn has_local(&self, name: NameId) -> bool
        ensures { result ≡ the_has_local (scope_seen self.now) name }
    {
        has_name(&self.here.locals, name)
    }

    /// One local more, the nearest; `is_given` says that it is final and has its value from here on.
    pub fn add_local(&mut self, is_given: bool, local: LocalVariable) -> Result<(), Memory>
        ensures { OnOk result
            (scope_seen self.new ≡ with_local is_given (local_seen local) (scope_seen self.old)) }
    {
        if is_given {
            self.given.insert(0, local.number)?;
        }
        self.here.locals.insert(0, local)?;
        Ok(())
    }

    /// One local class more, the nearest.
    pub fn add_class(&mut self, class: ClassId) -> Result<(), Memory>
        ensures { OnOk result
            (scope_seen self.new ≡ with_local_class class.0 (scope_seen self.old)) }
    {
        self.here.local_classes.insert(0, class)?;
        Ok(())
    }

    /// How much is in scope.
    pub fn depth(&self) -> Depth
        ensures { IsDepthOf result (scope_seen self.now) }
    {
        Depth {
            locals: self.here.locals.len(),
            classes: self.here.local_classes.len(),
            given: self.given.len(),
        }
    }

    /// Takes away what has been added since the scope had that depth, but for local classes (JLS 6.3: a group of a
    /// `switch`).
    pub fn leave_locals(&mut self, depth: Depth)
        ensures { (before : Seen) → Extends before (scope_seen self.old) → IsDepthOf depth before →
            scope_seen self.new ≡ with_classes_of (scope_seen self.old) before }
    {
        keep_last(&mut self.here.locals, depth.locals);
        keep_last(&mut self.given, depth.given);
    }

    /// Takes away the local classes that have been added since the scope had that depth (JLS 6.3: behind a group of a
    /// `switch`, whose locals are in scope in those that follow).
    pub fn leave_classes(&mut self, depth: Depth)
        ensures { (before : Seen) → Extends before (scope_seen self.old) → IsDepthOf depth before →
            scope_seen self.new ≡ with_classes_of before (scope_seen self.old) }
    {
        keep_last(&mut self.here.local_classes, depth.classes);
    }

    /// Takes away what has been added since the scope had that depth.
    pub fn leave(&mut self, depth: Depth)
        ensures { (before : Seen) → Extends before (scope_seen self.old) → IsDepthOf depth before →
            scope_seen self.new ≡ before }
    {
        self.leave_locals(depth);
        keep_last(&mut self.here.local_classes, depth.classes);
    }
}
