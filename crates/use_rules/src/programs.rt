// The breaks of whole programs.

ghost use Rattle.std.specs.Prelude.{◌≡◌, ◌<◌, ◌^◌, IfOk, OnOk, length, map};
ghost use Rattle.je_core.specs.View.{class_view, field_view, initializer_view, method_view, stmt_view_if};
ghost use Rattle.je_types.specs.Views.{program_of};
ghost use Rattle.overlay_types.specs.Guests.{guests_from, of_guest};
ghost use Rattle.rule_breaks.specs.Breaks.{IsListOf, of_each};
ghost use Rattle.rule_breaks.specs.way.Found.{followed_by};
ghost use Rattle.taming_db.specs.View.{rows};
ghost use Rattle.use_rules.specs.Programs.{body_breaks, class_breaks, field_breaks, header_breaks, initializer_breaks, members_breaks, method_breaks, program_breaks};

use crate::expressions::walk_value;
use crate::statements::walk_statement;
use class_uses::{judge_constructing, judge_heads, judge_implementing};
use fit_members::is_guest;
use je_core::{Class, ClassId, Field, Initializer, Memory, Method, Stmt};
use je_types::Typed;
use overlay_types::classes_of;
use rule_breaks::{Break, Found};
use std::alloc::Global;
use std::rc::Rc;
use taming_db::Taming;

/// The breaks of the rules on what a program uses: the list of all, in order.
///
/// # Errors
///
/// `Memory` for want of memory.
pub fn broken(alloc: Global, typed: &Typed, taming: &Taming) -> Result<Vec<Break>, Memory>
    ensures { IfOk result (λ list. IsListOf
        (program_breaks (program_of typed.now) (rows taming.now)) list.items) }
{
    let mut found = Found::new(alloc);
    judge_program(alloc, typed, taming, &mut found)?;
    Ok(found.in_order())
}

#[tactic(auto, unfolding(crate::specs::Programs::program_breaks))]
fn judge_program(
    alloc: Global,
    typed: &Typed,
    taming: &Taming,
    found: &mut Found,
) -> Result<(), Memory>
    ensures { OnOk result (found.new ≡
        followed_by found.old (program_breaks (program_of typed.now) (rows taming.now))) }
{
    judge_classes(alloc, typed, taming, classes_of(typed), found)
}

// Classes of which the first has the number 0.
fn judge_classes(
    alloc: Global,
    typed: &Typed,
    taming: &Taming,
    classes: &[Class],
    found: &mut Found,
) -> Result<(), Memory>
    requires { length classes.now < 2 ^ 31 }
    ensures { OnOk result (found.new ≡
        followed_by found.old
        (guests_from (class_breaks (program_of typed.now) (rows taming.now)) 0
        (map class_view classes.now))) }
{
    for (at, class) in classes.iter().enumerate() {
        judge_numbered(alloc, typed, taming, ClassId(at as u32), class, found)?;
    }
    Ok(())
}

// A class by its number, unless it is one of the library's.
fn judge_numbered(
    alloc: Global,
    typed: &Typed,
    taming: &Taming,
    id: ClassId,
    class: &Class,
    found: &mut Found,
) -> Result<(), Memory>
    ensures { OnOk result (found.new ≡
        followed_by found.old
        (of_guest (class_breaks (program_of typed.now) (rows taming.now)) id
        (class_view class.now))) }
{
    if is_guest(id) {
        judge_class(alloc, typed, taming, id, class, found)?;
    }
    Ok(())
}

fn judge_class(
    alloc: Global,
    typed: &Typed,
    taming: &Taming,
    id: ClassId,
    class: &Class,
    found: &mut Found,
) -> Result<(), Memory>
    ensures { OnOk result (found.new ≡
        followed_by found.old
        (class_breaks (program_of typed.now) (rows taming.now) id (class_view class.now))) }
{
    judge_header(alloc, typed, taming, id, class, found)?;
    judge_members(alloc, typed, taming, class, found)
}

// What a class is declared as.
fn judge_header(
    alloc: Global,
    typed: &Typed,
    taming: &Taming,
    id: ClassId,
    class: &Class,
    found: &mut Found,
) -> Result<(), Memory>
    ensures { OnOk result (found.new ≡
        followed_by found.old
        (header_breaks (program_of typed.now) (rows taming.now) id (class_view class.now))) }
{
    judge_heads(taming, &class.heads, found)?;
    judge_implementing(alloc, typed, taming, id, class, found)?;
    judge_constructing(typed, taming, class, found)
}

fn judge_members(
    alloc: Global,
    typed: &Typed,
    taming: &Taming,
    class: &Class,
    found: &mut Found,
) -> Result<(), Memory>
    ensures { OnOk result (found.new ≡
        followed_by found.old
        (members_breaks (program_of typed.now) (rows taming.now) (class_view class.now))) }
{
    judge_fields(alloc, typed, taming, &class.fields, found)?;
    judge_initializers(alloc, typed, taming, &class.initializers, found)?;
    judge_methods(alloc, typed, taming, &class.methods, found)
}

fn judge_fields(
    alloc: Global,
    typed: &Typed,
    taming: &Taming,
    fields: &[Field],
    found: &mut Found,
) -> Result<(), Memory>
    ensures { OnOk result (found.new ≡
        followed_by found.old
        (of_each (field_breaks (program_of typed.now) (rows taming.now)) (map field_view fields.now))) }
{
    for field in fields {
        walk_value(alloc, typed, taming, &field.constant, found)?;
    }
    Ok(())
}

fn judge_initializers(
    alloc: Global,
    typed: &Typed,
    taming: &Taming,
    initializers: &[Initializer],
    found: &mut Found,
) -> Result<(), Memory>
    ensures { OnOk result (found.new ≡
        followed_by found.old
        (of_each (initializer_breaks (program_of typed.now) (rows taming.now)) (map initializer_view initializers.now))) }
{
    for initializer in initializers {
        walk_statement(alloc, typed, taming, &initializer.body, found)?;
    }
    Ok(())
}

fn judge_methods(
    alloc: Global,
    typed: &Typed,
    taming: &Taming,
    methods: &[Method],
    found: &mut Found,
) -> Result<(), Memory>
    ensures { OnOk result (found.new ≡
        followed_by found.old
        (of_each (method_breaks (program_of typed.now) (rows taming.now)) (map method_view methods.now))) }
{
    for method in methods {
        judge_body(alloc, typed, taming, &method.body, found)?;
    }
    Ok(())
}

fn judge_body(
    alloc: Global,
    typed: &Typed,
    taming: &Taming,
    body: &Option<Rc<Stmt>>,
    found: &mut Found,
) -> Result<(), Memory>
    ensures { OnOk result (found.new ≡
        followed_by found.old
        (body_breaks (program_of typed.now) (rows taming.now) (stmt_view_if body.now))) }
{
    match body {
        None => Ok(()),
        Some(body) => walk_statement(alloc, typed, taming, body, found),
    }
}
