// What a method that overrides or implements another one owes (JLS 8.4.8).

ghost use Rattle.std.specs.Prelude.{◌≡◌, IfOk, map};
ghost use Rattle.je_core.specs.View.{method_view, program_view};
ghost use Rattle.je_classes.specs.Members.{methods_of};
ghost use Rattle.je_fitting.specs.way.DecidingMembers.{is_overridden, stands_for as the_stands_for};
ghost use Rattle.je_fitting.specs.way.Quantifying.{implies, each_method};
ghost use Rattle.class_lookup.specs.Above.{AreAbove};
ghost use Rattle.fit_members.specs.way.Each.{tested_from, each_of, overrides as the_overrides, override_fits as the_override_fits};

use crate::variables::results_agree;
use class_members::{is_private, same_signature};
use fit_parts::is_constructor;
use je_core::{ClassId, Memory, Method, Program};
use std::alloc::Global;

/// Whether one method can stand for another of its signature: neither is static, and the result agrees.
pub fn stands_for(
    alloc: Global,
    program: &Program,
    method: &Method,
    above: &Method,
) -> Result<bool, Memory>
    ensures { IfOk result (λ stands. stands ≡ the_stands_for (program_view program.now)
        (method_view method.now) (method_view above.now)) }
{
    if method.flags.is_static || above.flags.is_static {
        return Ok(false);
    }
    results_agree(alloc, program, method.returns, above.returns)
}

// Whether one method overrides another, where that one stands in its class or above.
fn overrides(program: &Program, method: &Method, above: &Method) -> bool
    ensures { result ≡ the_overrides (program_view program.now) (method_view method.now)
        (method_view above.now) }
{
    if method.flags.is_static && above.flags.is_static {
        return false;
    }
    same_signature(method, above) && !is_private(above) && !is_constructor(program, above)
}

// Whether one method fits beside another that stands in its class or above.
fn override_fits(
    alloc: Global,
    program: &Program,
    method: &Method,
    above: &Method,
) -> Result<bool, Memory>
    ensures { IfOk result (λ fits. fits ≡ the_override_fits (program_view program.now)
        (method_view method.now) (method_view above.now)) }
{
    if !overrides(program, method, above) {
        return Ok(true);
    }
    stands_for(alloc, program, method, above)
}

// Whether a method fits beside each of some methods.
fn overrides_fit_among(
    alloc: Global,
    program: &Program,
    method: &Method,
    methods: &[Method],
) -> Result<bool, Memory>
    ensures { IfOk result
        (λ fit. fit ≡ tested_from (λ n k. the_override_fits (program_view program.now)
        (method_view method.now) k) 0 (map method_view methods.now)) }
{
    for above in methods {
        if !override_fits(alloc, program, method, above)? {
            return Ok(false);
        }
    }
    Ok(true)
}

// Whether a method fits beside each method of a class.
fn overrides_fit_in(
    alloc: Global,
    program: &Program,
    method: &Method,
    class: ClassId,
) -> Result<bool, Memory>
    ensures { IfOk result
        (λ fit. fit ≡ tested_from (λ n k. the_override_fits (program_view program.now)
        (method_view method.now) k) 0 (methods_of (program_view program.now) class)) }
{
    match program.class(class) {
        None => Ok(true),
        Some(class) => overrides_fit_among(alloc, program, method, &class.methods),
    }
}

// Whether a method fits beside each method of some classes.
fn overrides_fit_above(
    alloc: Global,
    program: &Program,
    method: &Method,
    above: &[ClassId],
) -> Result<bool, Memory>
    ensures { IfOk result (λ fit. fit ≡ each_of (program_view program.now)
        (λ d n k. the_override_fits (program_view program.now)
        (method_view method.now) k) above.now) }
{
    for class in above {
        if !overrides_fit_in(alloc, program, method, *class)? {
            return Ok(false);
        }
    }
    Ok(true)
}

/// Whether a method of a class fits beside each one that it overrides or implements, over the classes above its own.
pub fn overrides_fit(
    alloc: Global,
    program: &Program,
    class: ClassId,
    above: &[ClassId],
    method: &Method,
) -> Result<bool, Memory>
    requires { AreAbove (program_view program.now) class above.now }
    ensures { IfOk result (λ fit. fit ≡ each_method (program_view program.now)
        (λ d n k. implies (is_overridden (program_view program.now) class
        (method_view method.now) d k)
        (the_stands_for (program_view program.now) (method_view method.now) k))) }
{
    let fit = overrides_fit_above(alloc, program, method, above)?;
    Ok(fit)
}
