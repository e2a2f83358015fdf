// What a selfless class may not have.

ghost use Rattle.std.specs.Prelude.{◌≡◌, OnOk, map};
ghost use Rattle.std.specs.List.{list_any};
ghost use Rattle.je_core.specs.View.{class_view, field_view, method_view, program_view, stmt_view_if};
ghost use Rattle.je_types.specs.Views.{program_of};
ghost use Rattle.taming_db.specs.View.{rows};
ghost use Rattle.je_classes.specs.Dispatch.{same_signature as the_same_signature};
ghost use Rattle.rule_breaks.specs.Breaks.{of_each};
ghost use Rattle.rule_breaks.specs.way.Found.{followed_by};
ghost use Rattle.selfless_rules.specs.SelflessRules as words;

use class_members::{method_at, names_constructors, same_class, same_signature};
use je_classes::object_class;
use je_core::{Class, ClassId, Field, Memory, Method, Program, Stmt};
use je_types::Typed;
use overlay_types::{class_has, is_declared};
use rule_breaks::{ConfinementRule, Found};
use std::rc::Rc;
use super_equals::{equals_place, walk_statement};
use taming_db::{Marker, Taming};

/// Adds what a selfless class breaks that is no interface.
pub fn judge_selfless(
    typed: &Typed,
    taming: &Taming,
    class: &Class,
    found: &mut Found,
) -> Result<(), Memory>
    ensures { OnOk result (found.new ≡ followed_by found.old (words.selfless_class_breaks
        (program_of typed.now) (rows taming.now) (class_view class.now))) }
{
    judge_fields(&class.fields, found)?;
    let extends = extends_other(typed, taming, class);
    found.add_where(extends, ConfinementRule::SelflessClass, class.span)?;
    judge_identities(typed.program(), class, found)
}

fn judge_fields(fields: &[Field], found: &mut Found) -> Result<(), Memory>
    ensures { OnOk result (found.new ≡ followed_by found.old
        (of_each words.changing_breaks (map field_view fields.now))) }
{
    for field in fields {
        let changes = is_declared(field) && !field.is_final;
        found.add_where(changes, ConfinementRule::SelflessClass, field.span)?;
    }
    Ok(())
}

// Whether the superclass isn't selfless, unless it is Object and the class says which of its objects are equal.
fn extends_other(typed: &Typed, taming: &Taming, class: &Class) -> bool
    ensures { result ≡ words.extends_other
        (program_of typed.now) (rows taming.now) (class_view class.now) }
{
    is_no_selfless(typed, taming, class.superclass)
        && !(is_object(class.superclass) && declares_equals(typed.program(), class))
}

fn is_no_selfless(typed: &Typed, taming: &Taming, superclass: Option<ClassId>) -> bool
    ensures { result ≡ words.is_no_selfless (program_of typed.now) (rows taming.now) superclass }
{
    match superclass {
        None => false,
        Some(superclass) => !class_has(typed, taming, Marker::Selfless, superclass),
    }
}

fn is_object(superclass: Option<ClassId>) -> bool
    ensures { result ≡ words.is_object superclass }
{
    match superclass {
        None => false,
        Some(superclass) => same_class(superclass, object_class()),
    }
}

fn declares_equals(program: &Program, class: &Class) -> bool
    ensures { result ≡ words.declares_equals (program_view program.now) (class_view class.now) }
{
    match method_at(program, object_class(), equals_place() as usize) {
        None => false,
        Some(equals) => has_like(&class.methods, equals),
    }
}

fn has_like(methods: &[Method], like: &Method) -> bool
    ensures { result ≡ list_any
        (λ m. the_same_signature m (method_view like.now)) (map method_view methods.now) }
{
    for method in methods {
        if same_signature(method, like) {
            return true;
        }
    }
    false
}

// The calls by which a class directly below Object asks which object it is.
fn judge_identities(program: &Program, class: &Class, found: &mut Found) -> Result<(), Memory>
    ensures { OnOk result (found.new ≡ followed_by found.old
        (words.identities_in (program_view program.now) (class_view class.now))) }
{
    if is_object(class.superclass) {
        judge_methods(program, &class.methods, found)?;
    }
    Ok(())
}

fn judge_methods(program: &Program, methods: &[Method], found: &mut Found) -> Result<(), Memory>
    ensures { OnOk result (found.new ≡ followed_by found.old (of_each
        (words.identity_breaks (program_view program.now)) (map method_view methods.now))) }
{
    for method in methods {
        if !names_constructors(program, method.name) {
            judge_body(&method.body, found)?;
        }
    }
    Ok(())
}

fn judge_body(body: &Option<Rc<Stmt>>, found: &mut Found) -> Result<(), Memory>
    ensures { OnOk result (found.new ≡ followed_by found.old
        (words.calls_in_body (stmt_view_if body.now))) }
{
    match body {
        None => Ok(()),
        Some(body) => walk_statement(body, found),
    }
}
