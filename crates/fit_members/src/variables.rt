// The types of variables and results.

ghost use Rattle.std.specs.Prelude.{◌≡◌, IfOk};
ghost use Rattle.je_core.specs.View.{program_view};
ghost use Rattle.je_fitting.specs.Members.{is_guest as the_is_guest, local_types, results_agree as the_results_agree};
ghost use Rattle.je_fitting.specs.way.DecidingMembers.{are_variables as the_are_variables};

use fit_parts::{agrees, is_variable_type, is_void};
use je_core::{ClassId, Local, Memory, Program, Ty};
use std::alloc::Global;

// How many classes the library has.
const LIBRARY_CLASSES: u32 = 39;

/// Whether a class is a program's own: the library's classes stand first.
pub fn is_guest(class: ClassId) -> bool
    ensures { result ≡ the_is_guest class }
{
    !(class.0 < LIBRARY_CLASSES)
}

/// Whether variables may have these types.
pub fn are_variables(program: &Program, types: &[Ty]) -> bool
    ensures { result ≡ the_are_variables (program_view program.now) types.now }
{
    for ty in types {
        if !is_variable_type(program, *ty) {
            return false;
        }
    }
    true
}

/// Whether the types of locals are those of variables.
pub fn locals_fit(program: &Program, locals: &[Local]) -> bool
    ensures { result ≡ the_are_variables (program_view program.now) (local_types locals.now) }
{
    for local in locals {
        if !is_variable_type(program, local.ty) {
            return false;
        }
    }
    true
}

/// Whether one result can stand for another one: the same primitive, `void` for `void`, or a subtype (JLS 8.4.5).
pub fn results_agree(alloc: Global, program: &Program, from: Ty, to: Ty) -> Result<bool, Memory>
    ensures { IfOk result (λ agree. agree ≡ the_results_agree (program_view program.now) from to) }
{
    if agrees(alloc, program, from, to)? {
        return Ok(true);
    }
    Ok(is_void(from) && is_void(to))
}
