// Whether a class's bodies are plain, and what it implements.

ghost use Rattle.std.specs.Prelude.{◌≡◌, IfOk, map};
ghost use Rattle.std.specs.List.{list_all};
ghost use Rattle.je_core.specs.View.{class_view, initializer_view, method_view, program_view};
ghost use Rattle.je_classes.specs.Hierarchy.{class_at, IsAcyclic};
ghost use Rattle.je_fitting.specs.way.Quantifying.{if_there};
ghost use Rattle.plain_programs.specs.way.Deciding.{is_plain_class, is_plain_initializer, is_plain_method};

use crate::implementing::class_implements_plainly;
use crate::statements::statement_is_plain;
use je_core::{Class, ClassId, Initializer, Memory, Method, Program};
use std::alloc::Global;

fn method_is_plain(alloc: Global, program: &Program, method: &Method) -> Result<bool, Memory>
    requires { IsAcyclic (program_view program.now) }
    ensures { IfOk result (λ plain. plain ≡
        is_plain_method (program_view program.now) (method_view method.now)) }
{
    if method.flags.is_native {
        return Ok(false);
    }
    match &method.body {
        None => Ok(true),
        Some(body) => statement_is_plain(alloc, program, false, body),
    }
}

fn methods_are_plain(alloc: Global, program: &Program, methods: &[Method]) -> Result<bool, Memory>
    requires { IsAcyclic (program_view program.now) }
    ensures { IfOk result (λ plain. plain ≡
        list_all (is_plain_method (program_view program.now)) (map method_view methods.now)) }
{
    for method in methods {
        if !method_is_plain(alloc, program, method)? {
            return Ok(false);
        }
    }
    Ok(true)
}

fn initializers_are_plain(
    alloc: Global,
    program: &Program,
    initializers: &[Initializer],
) -> Result<bool, Memory>
    requires { IsAcyclic (program_view program.now) }
    ensures { IfOk result (λ plain. plain ≡
        list_all (is_plain_initializer (program_view program.now))
        (map initializer_view initializers.now)) }
{
    for initializer in initializers {
        if !statement_is_plain(alloc, program, initializer.is_static, &initializer.body)? {
            return Ok(false);
        }
    }
    Ok(true)
}

fn parts_are_plain(
    alloc: Global,
    program: &Program,
    id: ClassId,
    class: &Class,
) -> Result<bool, Memory>
    requires { IsAcyclic (program_view program.now) }
    ensures { IfOk result (λ plain. plain ≡
        is_plain_class (program_view program.now) id (class_view class.now)) }
{
    if !methods_are_plain(alloc, program, &class.methods)? {
        return Ok(false);
    }
    if !initializers_are_plain(alloc, program, &class.initializers)? {
        return Ok(false);
    }
    class_implements_plainly(alloc, program, id, class)
}

/// Whether a class is plain, if it is there: its methods and initializers, and what it implements.
pub fn class_is_plain(alloc: Global, program: &Program, id: ClassId) -> Result<bool, Memory>
    requires { IsAcyclic (program_view program.now) }
    ensures { IfOk result (λ plain. plain ≡
        if_there (is_plain_class (program_view program.now) id)
        (class_at (program_view program.now) id)) }
{
    match program.class(id) {
        None => Ok(true),
        Some(class) => parts_are_plain(alloc, program, id, class),
    }
}
