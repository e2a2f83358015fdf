// The constants of a class, by those of the round before.

ghost use Rattle.std.specs.Prelude.{◌≡◌, ℕ, IfOk, map, option_map, slice_get, unwrap_or};
ghost use Rattle.body_places.specs.Places.{frame_seen};
ghost use Rattle.body_places.specs.Tables.{constant_at, constant_in, constant_seen};
ghost use Rattle.body_scopes.specs.View.{scope_seen};
ghost use Rattle.member_forms.specs.Bodies.{HasAllMethods, known_in, program_in};
ghost use Rattle.class_typing.specs.ConstantFields.{if_final, in_initializer, nothing_known, unwritten};
ghost use Rattle.declarations.specs.View.{field_shown};
ghost use Rattle.body_typing.specs.Expressions.{expression, initial, value as the_value};
ghost use Rattle.je_ast.specs.View.{view};
ghost use Rattle.field_values.specs.Values.{value_seen};
ghost use Rattle.type_decl.specs.way.Asked.{is_asked};
ghost use Rattle.type_decl.specs.way.Rows.{constant_due};

use body_places::{Constant, Frame, Initializer, Program, field_at};
use body_scopes::Scope;
use call_steps::Calls;
use declarations::FieldDecl;
use field_values::FieldValue;
use je_ast::Expr;
use je_base::Memory;
use je_core::ClassId;
use je_typing::Refusal;
use member_forms::{Bodies, variable_constant};
use name_walk::Context;
use program_tables::Known;
use std::alloc::Global;
use type_statements::{Purpose, value};

/// The fields of all classes, by class.
#[derive(Clone, Copy)]
pub struct Fields<'a> {
    /// What is written of each.
    pub values: &'a [Vec<FieldValue<'a>>],
    /// The bodies round each class, the innermost first.
    pub round: &'a [Vec<Frame>],
    /// Which classes are asked.
    pub asked: &'a [bool],
}

/// Whether the class of a number is asked.
pub fn asks(asked: &[bool], class: usize) -> bool
    ensures { result ≡ is_asked asked.now class }
{
    match asked.get(class) {
        Some(is_asked) => *is_asked,
        None => false,
    }
}

/// The same bodies where these fields are constants, and nothing is captured or assigned.
#[tactic(auto, unfolding(program_tables::specs::Known::known_seen))]
pub fn judged_by<'a>(bodies: Bodies<'a>, constants: &'a [Vec<Option<Constant>>]) -> Bodies<'a>
    ensures program { program_in result ≡
        record (program_in bodies.entry) { constants = constant_at constants.now } }
    ensures known { known_in result ≡ nothing_known (program_in result) }
    ensures methods { HasAllMethods bodies.entry → HasAllMethods result }
{
    let program = bodies.calls.program;
    Bodies {
        calls: Calls {
            program: Program {
                source: program.source,
                heads: program.heads,
                classes: program.classes,
                constants,
                outer: program.outer,
                captured: program.captured,
            },
            methods: bodies.calls.methods,
        },
        known: Known {
            captured: &[],
            round: &[],
            blank: &[],
        },
        spots: bodies.spots,
    }
}

// In the initializer of a field, before which so many stand.
fn in_own_initializer<'a>(
    alloc: Global,
    is_static: bool,
    class: ClassId,
    at: usize,
    round: &'a [Frame],
) -> Scope<'a>
    ensures { scope_seen result ≡ in_initializer is_static class.0 at (map frame_seen round.now) }
{
    let context = if is_static {
        Context::Static
    } else {
        Context::Instance
    };
    let here = Frame {
        class,
        locals: Vec::new(alloc),
        local_classes: Vec::new(alloc),
        context,
        initializer: Some(Initializer {
            is_static,
            declared: at,
        }),
    };
    Scope {
        here,
        round,
        is_constructor: false,
        given: Vec::new(alloc),
    }
}

// The constant of a field with that initializer.
fn initialized(
    bodies: &Bodies,
    scope: &Scope,
    field: &FieldDecl,
    init: &Expr,
) -> Result<Option<Constant>, Memory>
    requires { HasAllMethods bodies.now }
    ensures { IfOk result (λ constant. option_map constant_seen constant ≡
        if_final (field_shown field.now) (the_value (expression (program_in bodies.now)
        (known_in bodies.now) (scope_seen scope.now) (initial (field_shown field.now).ty)
        (view init.now)))) }
{
    let alloc = bodies.calls.program.source.alloc;
    match value(bodies, scope, Purpose::Initial(&field.ty), init) {
        Ok(from) => variable_constant(alloc, field.is_final, &field.ty, &from.node),
        Err(Refusal::Memory) => Err(Memory),
        Err(Refusal::Fault(_)) => Ok(None),
    }
}

// The constant of the field at a place of a class, of which that is written.
fn constant_by(
    bodies: &Bodies,
    round: &[Frame],
    class: ClassId,
    at: usize,
    value: FieldValue,
) -> Result<Option<Constant>, Memory>
    requires methods { HasAllMethods bodies.now }
    requires known { known_in bodies.now ≡ nothing_known (program_in bodies.now) }
    ensures { IfOk result (λ constant. option_map constant_seen constant ≡
        constant_due (program_in bodies.now) (map frame_seen round.now)
        (record { class = class; at = at }) (value_seen value.entry)) }
{
    let program = bodies.calls.program;
    let Some(field) = field_at(program.classes, class, at) else {
        return Ok(None);
    };
    let FieldValue::By(init) = value else {
        return Ok(None);
    };
    let alloc = program.source.alloc;
    let scope = in_own_initializer(alloc, field.is_static, class, at, round);
    let constant = initialized(bodies, &scope, field, init)?;
    Ok(constant)
}

/// The constants of a class, of whose fields those are written.
pub fn constants_by(
    bodies: &Bodies,
    round: &[Frame],
    class: ClassId,
    values: &[FieldValue],
) -> Result<Vec<Option<Constant>>, Memory>
    requires methods { HasAllMethods bodies.now }
    requires known { known_in bodies.now ≡ nothing_known (program_in bodies.now) }
    ensures { IfOk result (λ row. (at : ℕ) → constant_in (slice_get row.items at) ≡
        constant_due (program_in bodies.now) (map frame_seen round.now)
        (record { class = class; at = at })
        (unwrap_or (slice_get (map value_seen values.now) at) unwritten)) }
{
    let mut row = Vec::new(bodies.calls.program.source.alloc);
    for (at, value) in values.iter().enumerate() {
        row.push(constant_by(bodies, round, class, at, *value)?)?;
    }
    Ok(row)
}
