// The fields of the library's classes.

ghost use Rattle.std.specs.Prelude.{◌≡◌, ◌++◌, map, filter, IfOk, OnOk};
ghost use Rattle.je_core.specs.View.{field_view};
ghost use Rattle.je_table.specs.Rows.{class_said, row_said};
ghost use Rattle.library_classes.specs.Library.{constant_field as the_constant_field, fields_due, hidden_field as the_hidden_field, hidden_fields, is_field_of as the_is_field_of, limit as the_limit};
ghost use Rattle.library_classes.specs.Numbers.{number_in};

use crate::types::{NOWHERE, class_id, erased, number};
use je_base::{Memory, Names};
use je_core::{Access, Base, Field, Mark, Ty, Value, make_const};
use je_table::{ClassRow, LibraryClass, MemberRow, member_rows};
use std::alloc::Global;
use std::rc::Rc;

/// The fields of a class: those of its rows, then the hidden ones.
pub fn fields(alloc: Global, names: &Names, row: &ClassRow) -> Result<Vec<Field>, Memory>
    ensures { IfOk result (λ fields. map field_view fields.items ≡
        fields_due (number_in names.now) (class_said row.now)) }
{
    let mut fields = Vec::new(alloc);
    for member in member_rows() {
        if is_field_of(row, member) {
            fields.push(constant_field(alloc, names, row, member)?)?;
        }
    }
    add_hidden(&mut fields, names, row)?;
    Ok(fields)
}

fn is_field_of(row: &ClassRow, member: &MemberRow) -> bool
    ensures { result ≡ the_is_field_of (class_said row.now) (row_said member.now) }
{
    member.class == row.name && member.parameters.is_none()
}

// The least or the greatest value of a type.
fn limit(name: &str, base: Base) -> Value
    ensures { result ≡ the_limit name.now base }
{
    if name == "MAX_VALUE" {
        match base {
            Base::Long => Value::Long(i64::MAX),
            _ => Value::Int(i32::MAX),
        }
    } else {
        match base {
            Base::Long => Value::Long(i64::MIN),
            _ => Value::Int(i32::MIN),
        }
    }
}

// A constant.
fn constant_field(
    alloc: Global,
    names: &Names,
    row: &ClassRow,
    member: &MemberRow,
) -> Result<Field, Memory>
    ensures { IfOk result (λ field. field_view field ≡
        the_constant_field (number_in names.now) (class_said row.now) (row_said member.now)) }
{
    let ty = erased(row, member.returns);
    let mark = Mark {
        ty,
        span: NOWHERE,
        at: NOWHERE,
    };
    let constant = make_const(mark, limit(member.name, ty.base), Vec::new(alloc));
    Ok(Field {
        name: number(names, member.name),
        span: NOWHERE,
        ty,
        is_static: member.is_static,
        is_final: true,
        access: Access::Public,
        constant: Some(Rc::new(alloc, constant)?),
    })
}

// A field that no name finds.
fn hidden_field(names: &Names, name: &str, base: Base) -> Field
    ensures { field_view result ≡ the_hidden_field (number_in names.now) name.now base }
{
    Field {
        name: number(names, name),
        span: NOWHERE,
        ty: Ty { base, dims: 0 },
        is_static: false,
        is_final: true,
        access: Access::Hidden,
        constant: None,
    }
}

fn add_hidden(fields: &mut Vec<Field>, names: &Names, row: &ClassRow) -> Result<(), Memory>
    ensures { OnOk result (map field_view fields.new.items ≡
        map field_view fields.old.items
        ++ hidden_fields (number_in names.now) (class_said row.now)) }
{
    if row.name == "java.lang.Throwable" {
        let string = Base::Class(class_id(LibraryClass::String));
        fields.push(hidden_field(names, "message", string))?;
    } else if row.name == "host.Refused" {
        fields.push(hidden_field(names, "code", Base::Int))?;
    }
    Ok(())
}
