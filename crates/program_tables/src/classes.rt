// The constant strings in classes.

ghost use Rattle.std.specs.Prelude.{◌≡◌, ◌++◌, IfOk, OnOk, flat_map, map};
ghost use Rattle.class_typing.specs.Texts.{body_texts, class_texts, field_texts, initializer_texts, method_texts};
ghost use Rattle.je_core.specs.View.{class_view, field_view, initializer_view, method_view, stmt_view_if};
ghost use Rattle.program_tables.specs.way.Seen.{found_seen};

use crate::expressions::walk_value;
use crate::found::Found;
use crate::statements::walk_statement;
use je_base::Memory;
use je_core::{Class, Field, Initializer, Method, Stmt};
use std::alloc::Global;
use std::rc::Rc;

fn walk_fields<'a>(fields: &'a [Field], found: &mut Vec<Found<'a>>) -> Result<(), Memory>
    ensures { OnOk result (map found_seen found.new.items ≡
        map found_seen found.old.items ++ flat_map field_texts (map field_view fields.now)) }
{
    for field in fields {
        walk_value(&field.constant, found)?;
    }
    Ok(())
}

fn walk_initializers<'a>(
    initializers: &'a [Initializer],
    found: &mut Vec<Found<'a>>,
) -> Result<(), Memory>
    ensures { OnOk result (map found_seen found.new.items ≡ map found_seen found.old.items
        ++ flat_map initializer_texts (map initializer_view initializers.now)) }
{
    for initializer in initializers {
        walk_statement(&initializer.body, found)?;
    }
    Ok(())
}

fn walk_body<'a>(body: &'a Option<Rc<Stmt>>, found: &mut Vec<Found<'a>>) -> Result<(), Memory>
    ensures { OnOk result (map found_seen found.new.items ≡
        map found_seen found.old.items ++ body_texts (stmt_view_if body.now)) }
{
    match body {
        None => Ok(()),
        Some(body) => walk_statement(body, found),
    }
}

fn walk_methods<'a>(methods: &'a [Method], found: &mut Vec<Found<'a>>) -> Result<(), Memory>
    ensures { OnOk result (map found_seen found.new.items ≡
        map found_seen found.old.items ++ flat_map method_texts (map method_view methods.now)) }
{
    for method in methods {
        walk_body(&method.body, found)?;
    }
    Ok(())
}

fn walk_class<'a>(class: &'a Class, found: &mut Vec<Found<'a>>) -> Result<(), Memory>
    ensures { OnOk result (map found_seen found.new.items ≡
        map found_seen found.old.items ++ class_texts (class_view class.now)) }
{
    walk_fields(&class.fields, found)?;
    walk_initializers(&class.initializers, found)?;
    walk_methods(&class.methods, found)
}

/// Those in classes, in order of the classes and of what these have.
pub fn found_in(alloc: Global, classes: &[Class]) -> Result<Vec<Found<'_>>, Memory>
    ensures { IfOk result (λ found. map found_seen found.items ≡
        flat_map class_texts (map class_view classes.now)) }
{
    let mut found = Vec::new(alloc);
    for class in classes {
        walk_class(class, &mut found)?;
    }
    Ok(found)
}
