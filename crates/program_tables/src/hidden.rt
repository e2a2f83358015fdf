// The hidden fields of a class.

ghost use Rattle.std.specs.Prelude.{◌≡◌, ◌<◌, ◌++◌, IfOk, OnOk, length, map};
ghost use Rattle.class_typing.specs.Elaboration.{hidden_count as the_hidden_count};
ghost use Rattle.class_typing.specs.Programs.{captured_type, enclosing as the_enclosing, enum_types};
ghost use Rattle.class_typing.specs.Programs.{heads as the_heads, hidden_field as the_hidden_field};
ghost use Rattle.class_typing.specs.Programs.{hidden_fields as the_hidden_fields, outer_count as the_outer_count};
ghost use Rattle.class_typing.specs.Programs.{outer_types, types_before};
ghost use Rattle.declarations.specs.Declarations.{is_enum_sort as the_is_enum_sort};
ghost use Rattle.declarations.specs.View.{field_shown};
ghost use Rattle.je_scopes.specs.Headers.{site_at};
ghost use Rattle.core_making.specs.Known.{captured_local_seen, captured_seen};
ghost use Rattle.name_types.specs.View.{shown};
ghost use Rattle.source_subtypes.specs.View.{heads_of};
ghost use Rattle.type_faults.specs.Program.{source_in};

use crate::layout::Layout;
use core_making::{CapturedLocal, enclosing, is_enum_sort};
use declarations::FieldDecl;
use header_steps::own_type;
use je_ast::Identifier;
use je_base::{Memory, Span};
use je_core::{Access, Base, ClassId};
use name_types::SrcTy;
use name_walk::Written;
use source_subtypes::copied;
use typed_nodes::{primitive_ty, string_ty};
use word_numbers::number;

fn hidden_field(layout: Layout, ty: SrcTy) -> FieldDecl
    ensures { field_shown result ≡
        the_hidden_field (source_in layout.entry.source) (shown ty) }
{
    FieldDecl {
        name: Identifier {
            name: number(layout.names, ""),
            span: Span {
                file: 0,
                start: 0,
                end: 0,
            },
        },
        ty,
        is_static: false,
        is_final: true,
        access: Access::Hidden,
    }
}

// The one with the instance round it.
fn add_outer(layout: Layout, class: ClassId, fields: &mut Vec<FieldDecl>) -> Result<(), Memory>
    requires { heads_of layout.heads.now ≡ the_heads (source_in layout.source) }
    ensures { OnOk result (map field_shown fields.new.items ≡ map field_shown fields.old.items
        ++ map (the_hidden_field (source_in layout.entry.source))
        (outer_types (source_in layout.entry.source)
        (the_enclosing (source_in layout.entry.source) class.0))) }
{
    if let Some(outer) = enclosing(layout.source.sites, class) {
        let ty = own_type(layout.source.alloc, layout.heads, outer)?;
        fields.push(hidden_field(layout, ty))?;
    }
    Ok(())
}

fn add_locals(
    layout: Layout,
    locals: &[CapturedLocal],
    fields: &mut Vec<FieldDecl>,
) -> Result<(), Memory>
    ensures { OnOk result (map field_shown fields.new.items ≡ map field_shown fields.old.items
        ++ map (the_hidden_field (source_in layout.entry.source))
        (map (captured_type (source_in layout.entry.source))
        (map captured_local_seen locals.now))) }
{
    for local in locals {
        let ty = copied(layout.source.alloc, &local.variable.ty)?;
        fields.push(hidden_field(layout, ty))?;
    }
    Ok(())
}

// Those with captured locals.
fn add_captured(layout: Layout, class: ClassId, fields: &mut Vec<FieldDecl>) -> Result<(), Memory>
    ensures { OnOk result (map field_shown fields.new.items ≡ map field_shown fields.old.items
        ++ map (the_hidden_field (source_in layout.entry.source))
        (map (captured_type (source_in layout.entry.source))
        (captured_seen layout.entry.captured.now class.0))) }
{
    match layout.captured.get(class.0 as usize) {
        Some(locals) => add_locals(layout, locals, fields),
        None => Ok(()),
    }
}

// An enum's two.
fn add_of_enum(layout: Layout, class: ClassId, fields: &mut Vec<FieldDecl>) -> Result<(), Memory>
    ensures { OnOk result (map field_shown fields.new.items ≡ map field_shown fields.old.items
        ++ map (the_hidden_field (source_in layout.entry.source))
        (enum_types (source_in layout.entry.source) (the_is_enum_sort
        (site_at (source_in layout.entry.source).sites class.0).sort))) }
{
    if is_enum_sort(layout.source.sites.sort(class)) {
        fields.push(hidden_field(layout, string_ty()))?;
        fields.push(hidden_field(layout, primitive_ty(Base::Int)))?;
    }
    Ok(())
}

fn guest_fields(layout: Layout, class: ClassId) -> Result<Vec<FieldDecl>, Memory>
    requires { heads_of layout.heads.now ≡ the_heads (source_in layout.source) }
    ensures { IfOk result (λ fs. map field_shown fs.items ≡
        map (the_hidden_field (source_in layout.entry.source))
        (types_before (source_in layout.entry.source)
        (captured_seen layout.entry.captured.now) class.0)) }
{
    let mut fields = Vec::new(layout.source.alloc);
    add_outer(layout, class, &mut fields)?;
    add_captured(layout, class, &mut fields)?;
    add_of_enum(layout, class, &mut fields)?;
    Ok(fields)
}

/// The hidden fields of a class: the one with the instance round it, those with captured locals, and an enum's two.
pub fn hidden_fields(layout: Layout, class: ClassId) -> Result<Vec<FieldDecl>, Memory>
    requires { heads_of layout.heads.now ≡ the_heads (source_in layout.source) }
    ensures { IfOk result (λ fs. map field_shown fs.items ≡ the_hidden_fields
        (source_in layout.entry.source) (captured_seen layout.entry.captured.now) class.0) }
{
    match layout.source.sites.written(class) {
        Written::Library => Ok(Vec::new(layout.source.alloc)),
        Written::Declared { .. } | Written::Anonymous { .. } => guest_fields(layout, class),
    }
}

/// How many fields of a class keep an instance round it.
pub fn outer_count(layout: Layout, class: ClassId) -> usize
    ensures is { result ≡ the_outer_count (source_in layout.entry.source) class.0 }
    ensures few { result < 2 }
{
    match enclosing(layout.source.sites, class) {
        Some(_) => 1,
        None => 0,
    }
}

// How many locals a class captures.
fn captured_count(layout: Layout, class: ClassId) -> usize
    ensures { result ≡ length (captured_seen layout.entry.captured.now class.0) }
{
    match layout.captured.get(class.0 as usize) {
        Some(locals) => locals.len(),
        None => 0,
    }
}

// How many hidden fields an enum has for its constants; none, where a class is no enum.
fn enum_count(layout: Layout, class: ClassId) -> usize
    ensures is { result ≡ length (enum_types (source_in layout.entry.source) (the_is_enum_sort
        (site_at (source_in layout.entry.source).sites class.0).sort)) }
    ensures few { result < 3 }
{
    if is_enum_sort(layout.source.sites.sort(class)) {
        2
    } else {
        0
    }
}

fn guest_count(layout: Layout, class: ClassId) -> Result<usize, Memory>
    ensures { IfOk result (λ n. n ≡ length (types_before (source_in layout.entry.source)
        (captured_seen layout.entry.captured.now) class.0)) }
{
    let others = outer_count(layout, class) + enum_count(layout, class);
    match captured_count(layout, class).checked_add(others) {
        Some(count) => Ok(count),
        None => Err(Memory),
    }
}

/// How many hidden fields a class has. No memory holds as many as can't be counted.
pub fn hidden_count(layout: Layout, class: ClassId) -> Result<usize, Memory>
    ensures { IfOk result (λ n. n ≡ the_hidden_count (source_in layout.entry.source)
        (captured_seen layout.entry.captured.now) class.0) }
{
    match layout.source.sites.written(class) {
        Written::Library => Ok(0),
        Written::Declared { .. } | Written::Anonymous { .. } => guest_count(layout, class),
    }
}
