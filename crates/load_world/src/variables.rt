// The first values of the class variables, and the references to the constant strings behind them.

ghost use Rattle.std.specs.Prelude.{◌<◌, ◌≡◌, ◌+◌, ◌++◌, ◌^◌, IfOk, OnOk, flat_map, length, map};
ghost use Rattle.je_base.specs.Names.{place_of as the_place_of};
ghost use Rattle.je_core.specs.Core.{form_of};
ghost use Rattle.je_core.specs.View.{class_view, field_view, form_view, program_view, view};
ghost use Rattle.je_load.specs.Loading.{constant_value as the_constant_value, first_value as the_first_value, text_reference, text_references, variables_of};

use je_core::{Class, Expr, Field, Form, Memory, ObjId, Program, Slots, Units, Value};
use machine_parts::variable::place_of;
use std::alloc::Global;

// The reference to a constant string, of those that are the objects from a number on.
fn text_value(texts: &[Units], number: u64, units: &Units) -> Value
    requires { number + length texts.now < 2 ^ 64 }
    ensures { result ≡ text_reference number (the_place_of texts.now units.now) }
{
    match place_of(texts, units) {
        None => Value::Null,
        Some(place) => Value::Ref(ObjId(number + place as u64)),
    }
}

// What a constant of a form comes to.
fn value_of(texts: &[Units], number: u64, form: &Form) -> Value
    requires { number + length texts.now < 2 ^ 64 }
    ensures { result ≡ the_constant_value texts.now number (form_view form.now) }
{
    match form {
        Form::Const { value, .. } => *value,
        Form::Text { units, .. } => text_value(texts, number, units),
        _ => Value::Null,
    }
}

// What a constant comes to.
#[tactic(auto, using(je_core::proofs::Views::view_is))]
fn constant_value(texts: &[Units], number: u64, constant: &Expr) -> Value
    requires { number + length texts.now < 2 ^ 64 }
    ensures { result ≡ the_constant_value texts.now number (form_of (view constant.now)) }
{
    value_of(texts, number, &constant.form)
}

// The value with which a class variable begins.
fn first_value(texts: &[Units], number: u64, field: &Field) -> Value
    requires { number + length texts.now < 2 ^ 64 }
    ensures { result ≡ the_first_value texts.now number (field_view field.now) }
{
    match &field.constant {
        None => field.ty.default_value(),
        Some(constant) => constant_value(texts, number, constant),
    }
}

// Further class variables, those of a class.
fn push_variables(
    statics: &mut Slots,
    texts: &[Units],
    number: u64,
    class: &Class,
) -> Result<(), Memory>
    requires { number + length texts.now < 2 ^ 64 }
    ensures { OnOk result (statics.new ≡ statics.old ++
        variables_of texts.now number (class_view class.now)) }
{
    for field in &class.fields {
        if field.is_static {
            statics.push(first_value(texts, number, field))?;
        }
    }
    Ok(())
}

// Further class variables, references to the strings that are the objects from a number on.
fn push_references(statics: &mut Slots, texts: &[Units], number: u64) -> Result<(), Memory>
    requires { number + length texts.now < 2 ^ 64 }
    ensures { OnOk result (statics.new ≡ statics.old ++ text_references number texts.now) }
{
    for place in 0..texts.len() {
        statics.push(Value::Ref(ObjId(number + place as u64)))?;
    }
    Ok(())
}

/// The first values of the class variables of a program, whose constant strings are the objects from a number on.
#[tactic(auto, unfolding(je_core::specs::View::program_view))]
pub fn first_statics(alloc: Global, program: &Program, number: u64) -> Result<Slots, Memory>
    requires { number + length (program_view program.now).texts < 2 ^ 64 }
    ensures { IfOk result (λ statics. statics ≡
        flat_map (variables_of (program_view program.now).texts number) (program_view program.now).classes ++
        text_references number (program_view program.now).texts) }
{
    let mut statics = Slots::new(alloc);
    for class in &program.classes {
        push_variables(&mut statics, &program.texts, number, class)?;
    }
    push_references(&mut statics, &program.texts, number)?;
    Ok(statics)
}
