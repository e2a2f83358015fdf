// How an enum's constants are made.

ghost use Rattle.std.specs.Prelude.{◌≡◌, IfOk, map, pos};
ghost use Rattle.class_typing.specs.Enums.{constants_made as the_constants_made};
ghost use Rattle.je_core.specs.View.{initializer_view, view};
ghost use Rattle.je_core.specs.declared.value.Value.TheVariants as value;
ghost use Rattle.library_classes.specs.Numbers.{number_in};
ghost use Rattle.program_tables.specs.way.Words.{made_of, new_of};

use crate::nodes::{EnumClass, constant_at, enum_ty, int, mark};
use crate::units::name_units;
use fit_parts::string;
use je_ast::Identifier;
use je_base::Memory;
use je_core::{Expr, Initializer, Value, make_assign, make_const, make_do, make_new, make_text};
use std::alloc::Global;
use std::rc::Rc;

// The place of a constant, as an int. No memory holds more constants than an int can count.
fn ordinal(at: usize) -> Result<Value, Memory>
    ensures { IfOk result (λ v. v ≡ value.Int (pos at)) }
{
    match i32::try_from(at) {
        Ok(at) => Ok(Value::Int(at)),
        Err(_) => Err(Memory),
    }
}

// A new one, with its name and its place.
fn made(alloc: Global, of: EnumClass, at: usize, id: Identifier) -> Result<Expr, Memory>
    ensures { IfOk result (λ e. view e ≡ new_of of.entry at id) }
{
    let units = name_units(alloc, of.names, id.name)?;
    let name = make_text(mark(string(), id.span), units, Vec::new(alloc));
    let place = make_const(mark(int(), id.span), ordinal(at)?, Vec::new(alloc));
    let mut arguments = Vec::new(alloc);
    arguments.push(Rc::new(alloc, name)?)?;
    arguments.push(Rc::new(alloc, place)?)?;
    let mark = mark(enum_ty(of), id.span);
    let captures = Vec::new(alloc);
    Ok(make_new(mark, of.class, 0, arguments, captures, id.span))
}

fn constant_made(
    alloc: Global,
    of: EnumClass,
    at: usize,
    id: Identifier,
) -> Result<Initializer, Memory>
    ensures { IfOk result (λ i. initializer_view i ≡ made_of of.entry at id) }
{
    let field = constant_at(alloc, of, at, id.span)?;
    let value = made(alloc, of, at, id)?;
    let assignment = make_assign(alloc, mark(enum_ty(of), id.span), field, value)?;
    let body = make_do(alloc, id.span, id.span, assignment)?;
    Ok(Initializer {
        is_static: true,
        span: id.span,
        locals: Vec::new(alloc),
        body: Rc::new(alloc, body)?,
    })
}

/// The initializers that make an enum's constants, each with its name and its place.
pub fn constants_made(alloc: Global, of: EnumClass) -> Result<Vec<Initializer>, Memory>
    ensures { IfOk result (λ all. map initializer_view all.items ≡
        the_constants_made (number_in of.entry.names.now) of.entry.names.now of.entry.class.0
        of.entry.span of.entry.constants.now 0 of.entry.constants.now) }
{
    let mut all = Vec::new(alloc);
    for (at, id) in of.constants.iter().enumerate() {
        all.push(constant_made(alloc, of, at, *id)?)?;
    }
    Ok(all)
}
