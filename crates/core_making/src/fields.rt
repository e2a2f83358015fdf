// Fields of classes, hidden ones first.

ghost use Rattle.std.specs.Prelude.{◌≡◌, ◌++◌, IfOk, OnOk, drop, map, option_map};
ghost use Rattle.je_core.specs.View.{field_view, view, view_if};
ghost use Rattle.declarations.specs.View.{field_shown};
ghost use Rattle.body_places.specs.View.{program_seen};
ghost use Rattle.core_making.specs.Known.{captured_local_seen};
ghost use Rattle.core_making.specs.way.HiddenFields.{captured_field, enum_fields, hidden, hidden_fields as the_hidden_fields, outer_fields};
ghost use Rattle.core_making.specs.way.Made.{field_of, fields_from, next_field};

use crate::known::CapturedLocal;
use crate::making::Making;
use crate::written::{enclosing, is_enum_sort, written_span};
use body_places::Program;
use declarations::FieldDecl;
use fit_parts::{of, string};
use je_base::{Memory, NameId, Span};
use je_core::{Access, Base, ClassId, Expr, Field, Ty};
use source_subtypes::erased;
use std::alloc::Global;
use std::rc::Rc;
use word_numbers::number;

fn hidden_field(name: NameId, span: Span, ty: Ty) -> Field
    ensures { field_view result ≡ hidden span name ty }
{
    Field {
        name,
        span,
        ty,
        is_static: false,
        is_final: true,
        access: Access::Hidden,
        constant: None,
    }
}

// The one with the instance round it.
fn add_outer(
    making: Making,
    class: ClassId,
    span: Span,
    fields: &mut Vec<Field>,
) -> Result<(), Memory>
    ensures { OnOk result (map field_view fields.new.items ≡ map field_view fields.old.items
        ++ outer_fields (program_seen making.entry.program) span class.0) }
{
    if let Some(outer) = enclosing(making.program.source.sites, class) {
        let ty = of(Base::Class(outer));
        fields.push(hidden_field(number(making.names, ""), span, ty))?;
    }
    Ok(())
}

// Those with captured locals.
fn add_captured(
    program: &Program,
    captured: &[CapturedLocal],
    span: Span,
    fields: &mut Vec<Field>,
) -> Result<(), Memory>
    ensures { OnOk result (map field_view fields.new.items ≡ map field_view fields.old.items
        ++ map (captured_field (program_seen program.now) span)
        (map captured_local_seen captured.now)) }
{
    for local in captured {
        let ty = erased(program.heads, &local.variable.ty);
        fields.push(hidden_field(local.variable.name, span, ty))?;
    }
    Ok(())
}

// An enum's two.
fn add_of_enum(
    making: Making,
    class: ClassId,
    span: Span,
    fields: &mut Vec<Field>,
) -> Result<(), Memory>
    ensures { OnOk result (map field_view fields.new.items ≡ map field_view fields.old.items
        ++ enum_fields (program_seen making.entry.program) span class.0) }
{
    if is_enum_sort(making.program.source.sites.sort(class)) {
        let name = number(making.names, "name");
        let ordinal = number(making.names, "ordinal");
        fields.push(hidden_field(name, span, string()))?;
        fields.push(hidden_field(ordinal, span, of(Base::Int)))?;
    }
    Ok(())
}

/// The hidden fields of a class: the one with the instance round it, those with captured locals, and an enum's two.
pub fn hidden_fields(
    making: Making,
    captured: &[CapturedLocal],
    class: ClassId,
) -> Result<Vec<Field>, Memory>
    ensures { IfOk result (λ fs. map field_view fs.items ≡ the_hidden_fields
        (program_seen making.entry.program) class.0 (map captured_local_seen captured.now)) }
{
    let program = &making.program;
    let span = written_span(program.source.sites.written(class));
    let mut fields = Vec::new(program.source.alloc);
    add_outer(making, class, span, &mut fields)?;
    add_captured(program, captured, span, &mut fields)?;
    add_of_enum(making, class, span, &mut fields)?;
    Ok(fields)
}

fn kept(alloc: Global, constant: Option<Expr>) -> Result<Option<Rc<Expr>>, Memory>
    ensures { IfOk result (λ c. view_if c ≡ option_map view constant) }
{
    match constant {
        Some(node) => Ok(Some(Rc::new(alloc, node)?)),
        None => Ok(None),
    }
}

fn declared_field(program: &Program, field: &FieldDecl, constant: Option<Rc<Expr>>) -> Field
    ensures { field_view result ≡
        field_of (program_seen program.now) (field_shown field.now) (view_if constant) }
{
    Field {
        name: field.name.name,
        span: field.name.span,
        ty: erased(program.heads, &field.ty),
        is_static: field.is_static,
        is_final: field.is_final,
        access: field.access,
        constant,
    }
}

// The next field, if one is left, with the constant that it is.
fn add_next(
    program: &Program,
    left: &[FieldDecl],
    constant: Option<Expr>,
    fields: &mut Vec<Field>,
) -> Result<(), Memory>
    ensures { OnOk result (map field_view fields.new.items ≡ map field_view fields.old.items
        ++ next_field (program_seen program.now) (map field_shown left.now)
        (option_map view constant)) }
{
    let constant = kept(program.source.alloc, constant)?;
    if let Some((field, _)) = left.split_first() {
        fields.push(declared_field(program, field, constant))?;
    }
    Ok(())
}

fn behind(fields: &[FieldDecl]) -> &[FieldDecl]
    ensures { result.now ≡ drop 1 fields.now }
{
    match fields.split_first() {
        Some((_, rest)) => rest,
        None => &[],
    }
}

/// The fields that a source writes, with the constants that they are.
pub fn add_declared(
    program: &Program,
    declared: &[FieldDecl],
    constants: Vec<Option<Expr>>,
    fields: &mut Vec<Field>,
) -> Result<(), Memory>
    ensures { OnOk result (map field_view fields.new.items ≡ map field_view fields.old.items
        ++ fields_from (program_seen program.now) (map field_shown declared.now)
        (map (option_map view) constants.items)) }
{
    let mut left = declared;
    for constant in constants {
        add_next(program, left, constant, fields)?;
        left = behind(left);
    }
    Ok(())
}
