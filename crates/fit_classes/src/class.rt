// A class itself.

ghost use Rattle.std.specs.Prelude.{◌≡◌, ◌&&◌, IfOk, map};
ghost use Rattle.std.specs.List.{list_all};
ghost use Rattle.je_core.specs.View.{class_view, initializer_view, program_view};
ghost use Rattle.je_fitting.specs.Expressions.{can_be_made as the_can_be_made};
ghost use Rattle.je_fitting.specs.Members.{is_guest as the_is_guest};
ghost use Rattle.je_fitting.specs.way.DecidingMembers.{is_initializer_fit};
ghost use Rattle.je_fitting.specs.way.DecidingClasses.{is_hidden_fit, are_inherited_fit, implements_all as the_implements_all, is_class_fit};
ghost use Rattle.je_fitting.specs.way.Quantifying.{implies};
ghost use Rattle.class_lookup.specs.Above.{AreAbove};

use crate::bridges::bridges_fit;
use crate::hidden::hidden_fit;
use crate::inherited::{implements_all, inherited_fit};
use crate::named::named_there;
use crate::supers::supers_fit;
use fit_members::{initializer_fits, is_guest};
use fit_nodes::is_concrete;
use je_core::{Class, ClassId, Initializer, Memory, Program};
use std::alloc::Global;

fn initializers_fit(
    alloc: Global,
    program: &Program,
    id: ClassId,
    initializers: &[Initializer],
) -> Result<bool, Memory>
    ensures { IfOk result (λ fit. fit ≡ list_all (is_initializer_fit (program_view program.now) id)
        (map initializer_view initializers.now)) }
{
    for initializer in initializers {
        if !initializer_fits(alloc, program, id, initializer)? {
            return Ok(false);
        }
    }
    Ok(true)
}

// Whether the hidden fields of a class fit, if it is a program's own.
fn guest_fits(alloc: Global, id: ClassId, class: &Class) -> Result<bool, Memory>
    ensures { IfOk result
        (λ fits. fits ≡ implies (the_is_guest id) (is_hidden_fit (class_view class.now))) }
{
    if !is_guest(id) {
        return Ok(true);
    }
    hidden_fit(alloc, class)
}

// Whether a class of which there are instances has each method.
fn instances_fit(program: &Program, id: ClassId, above: &[ClassId], class: &Class) -> bool
    requires { AreAbove (program_view program.now) id above.now }
    ensures { result ≡ implies (the_can_be_made (class_view class.now))
        (the_implements_all (program_view program.now) id) }
{
    if !is_concrete(class) {
        return true;
    }
    implements_all(program, id, above)
}

// Whether what a class inherits, implements and initializes fits.
fn members_fit(
    alloc: Global,
    program: &Program,
    id: ClassId,
    above: &[ClassId],
    class: &Class,
) -> Result<bool, Memory>
    requires { AreAbove (program_view program.now) id above.now }
    ensures { IfOk result (λ fit. fit ≡ (are_inherited_fit (program_view program.now) id &&
        implies (the_can_be_made (class_view class.now))
        (the_implements_all (program_view program.now) id) &&
        list_all (is_initializer_fit (program_view program.now) id)
        (class_view class.now).initializers)) }
{
    if !inherited_fit(alloc, program, id, above)? {
        return Ok(false);
    }
    if !instances_fit(program, id, above, class) {
        return Ok(false);
    }
    initializers_fit(alloc, program, id, &class.initializers)
}

/// Whether a class itself fits, over the classes above it.
pub fn class_fits(
    alloc: Global,
    program: &Program,
    id: ClassId,
    above: &[ClassId],
    class: &Class,
) -> Result<bool, Memory>
    requires { AreAbove (program_view program.now) id above.now }
    ensures { IfOk result (λ fits. fits ≡
        is_class_fit (program_view program.now) id (class_view class.now)) }
{
    if !supers_fit(alloc, program, id, class)? {
        return Ok(false);
    }
    if !named_there(program, class) {
        return Ok(false);
    }
    if !guest_fits(alloc, id, class)? {
        return Ok(false);
    }
    if !bridges_fit(alloc, program, id, class)? {
        return Ok(false);
    }
    members_fit(alloc, program, id, above, class)
}
