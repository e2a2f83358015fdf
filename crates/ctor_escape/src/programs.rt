// Where objects escape while they are made, in a whole program.

ghost use Rattle.std.specs.Prelude.{◌≡◌, IfOk, OnOk, map};
ghost use Rattle.je_core.specs.View.{class_view, initializer_view, method_view, program_view, stmt_view_if};
ghost use Rattle.je_types.specs.Views.{program_of};
ghost use Rattle.rule_breaks.specs.Breaks.{IsListOf, of_each};
ghost use Rattle.rule_breaks.specs.way.Found.{followed_by};
ghost use Rattle.ctor_escape.specs.Programs.{body_escapes, class_escapes, constructor_escapes, initializer_escapes, program_escapes};

use crate::statements::walk_statement;
use fit_parts::is_constructor;
use je_core::{Class, Initializer, Memory, Method, Program, Stmt};
use je_types::Typed;
use rule_breaks::{Break, Found};
use std::alloc::Global;
use std::rc::Rc;
use taming_db::Taming;

/// The breaks of the rule against objects that escape while they are made: the list of all, in order. The rule asks nothing of
/// the taming text.
///
/// # Errors
///
/// `Memory` for want of memory.
pub fn broken(alloc: Global, typed: &Typed, _taming: &Taming) -> Result<Vec<Break>, Memory>
    ensures { IfOk result (λ list. IsListOf (program_escapes (program_of typed.now)) list.items) }
{
    let mut found = Found::new(alloc);
    judge_program(typed.program(), &mut found)?;
    Ok(found.in_order())
}

#[tactic(auto, unfolding(crate::specs::Programs::program_escapes, je_core::specs::View::program_view))]
fn judge_program(program: &Program, found: &mut Found) -> Result<(), Memory>
    ensures { OnOk result (found.new ≡
        followed_by found.old (program_escapes (program_view program.now))) }
{
    judge_classes(program, &program.classes, found)
}

fn judge_classes(program: &Program, classes: &[Class], found: &mut Found) -> Result<(), Memory>
    ensures { OnOk result (found.new ≡
        followed_by found.old
        (of_each (class_escapes (program_view program.now)) (map class_view classes.now))) }
{
    for class in classes {
        judge_class(program, class, found)?;
    }
    Ok(())
}

fn judge_class(program: &Program, class: &Class, found: &mut Found) -> Result<(), Memory>
    ensures { OnOk result (found.new ≡
        followed_by found.old (class_escapes (program_view program.now) (class_view class.now))) }
{
    judge_initializers(program, &class.initializers, found)?;
    judge_methods(program, &class.methods, found)
}

fn judge_initializers(
    program: &Program,
    initializers: &[Initializer],
    found: &mut Found,
) -> Result<(), Memory>
    ensures { OnOk result (found.new ≡
        followed_by found.old
        (of_each (initializer_escapes (program_view program.now))
        (map initializer_view initializers.now))) }
{
    for initializer in initializers {
        judge_initializer(program, initializer, found)?;
    }
    Ok(())
}

fn judge_initializer(
    program: &Program,
    initializer: &Initializer,
    found: &mut Found,
) -> Result<(), Memory>
    ensures { OnOk result (found.new ≡
        followed_by found.old
        (initializer_escapes (program_view program.now) (initializer_view initializer.now))) }
{
    if initializer.is_static {
        return Ok(());
    }
    walk_statement(program, &initializer.body, found)
}

fn judge_methods(program: &Program, methods: &[Method], found: &mut Found) -> Result<(), Memory>
    ensures { OnOk result (found.new ≡
        followed_by found.old
        (of_each (constructor_escapes (program_view program.now)) (map method_view methods.now))) }
{
    for method in methods {
        judge_method(program, method, found)?;
    }
    Ok(())
}

// A method that is a constructor.
fn judge_method(program: &Program, method: &Method, found: &mut Found) -> Result<(), Memory>
    ensures { OnOk result (found.new ≡
        followed_by found.old
        (constructor_escapes (program_view program.now) (method_view method.now))) }
{
    if is_constructor(program, method) {
        judge_body(program, &method.body, found)?;
    }
    Ok(())
}

fn judge_body(program: &Program, body: &Option<Rc<Stmt>>, found: &mut Found) -> Result<(), Memory>
    ensures { OnOk result (found.new ≡
        followed_by found.old
        (body_escapes (program_view program.now) (stmt_view_if body.now))) }
{
    match body {
        None => Ok(()),
        Some(body) => walk_statement(program, body, found),
    }
}
