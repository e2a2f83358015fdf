// The members of the library's classes.

ghost use Rattle.std.specs.Prelude.{◌≡◌, [], IfOk, filter, map, unwrap_or};
ghost use Rattle.je_table.specs.Rows.{class_said, row_said};
ghost use Rattle.name_types.specs.View.{shown};
ghost use Rattle.declarations.specs.View.{field_shown, method_shown};
ghost use Rattle.library_classes.specs.Library.{is_field_of as the_is_field_of, is_method_of as the_is_method_of, rows};
ghost use Rattle.library_classes.specs.Numbers.{number_in};
ghost use Rattle.library_declarations.specs.Library.{field_declared, method_declared, type_declared};

use crate::types::{named, row_type};
use declarations::{FieldDecl, MethodDecl};
use je_base::{Memory, Names};
use je_core::{Access, ClassId, Flags};
use je_table::{ClassRow, MemberRow, RowType, member_rows};
use name_types::SrcTy;
use std::alloc::Global;

/// The fields of the class of a row, in the order of their rows.
pub fn fields(
    alloc: Global,
    names: &Names,
    row: &ClassRow,
    class: ClassId,
) -> Result<Vec<FieldDecl>, Memory>
    ensures { IfOk result (λ fs. map field_shown fs.items ≡
        map (field_declared (number_in names.now) class.0) (filter (the_is_field_of (class_said row.now)) rows)) }
{
    let mut fields = Vec::new(alloc);
    for member in member_rows() {
        if is_field_of(row, member) {
            fields.push(field(names, class, member))?;
        }
    }
    Ok(fields)
}

fn is_field_of(row: &ClassRow, member: &MemberRow) -> bool
    ensures { result ≡ the_is_field_of (class_said row.now) (row_said member.now) }
{
    member.class == row.name && member.parameters.is_none()
}

fn field(names: &Names, class: ClassId, member: &MemberRow) -> FieldDecl
    ensures { field_shown result ≡ field_declared (number_in names.now) class.0
        (row_said member.now) }
{
    FieldDecl {
        name: named(names, member.name),
        ty: row_type(class, member.returns),
        is_static: member.is_static,
        is_final: true,
        access: Access::Public,
    }
}

/// The methods and constructors of the class of a row, in the order of their rows.
pub fn methods(
    alloc: Global,
    names: &Names,
    row: &ClassRow,
    class: ClassId,
) -> Result<Vec<MethodDecl>, Memory>
    ensures { IfOk result (λ ms. map method_shown ms.items ≡
        map (method_declared (number_in names.now) (class_said row.now) class.0)
        (filter (the_is_method_of (class_said row.now)) rows)) }
{
    let mut methods = Vec::new(alloc);
    for member in member_rows() {
        if is_method_of(row, member) {
            methods.push(method(alloc, names, row, class, member)?)?;
        }
    }
    Ok(methods)
}

fn is_method_of(row: &ClassRow, member: &MemberRow) -> bool
    ensures { result ≡ the_is_method_of (class_said row.now) (row_said member.now) }
{
    member.class == row.name && !member.parameters.is_none()
}

fn method(
    alloc: Global,
    names: &Names,
    row: &ClassRow,
    class: ClassId,
    member: &MemberRow,
) -> Result<MethodDecl, Memory>
    ensures { IfOk result (λ m. method_shown m ≡
        method_declared (number_in names.now) (class_said row.now) class.0 (row_said member.now)) }
{
    Ok(MethodDecl {
        name: named(names, member.name),
        is_constructor: member.name == "new",
        parameters: parameters(alloc, class, member)?,
        result: row_type(class, member.returns),
        throws: Vec::new(alloc),
        flags: Flags {
            is_static: member.is_static,
            is_final: false,
            is_abstract: row.is_interface,
            is_native: false,
            is_finalizer: false,
            access: Access::Public,
        },
    })
}

// The types of a method's parameters.
fn parameters(alloc: Global, class: ClassId, member: &MemberRow) -> Result<Vec<SrcTy>, Memory>
    ensures { IfOk result (λ ts. map shown ts.items ≡
        map (type_declared class.0) (unwrap_or (row_said member.now).parameters [])) }
{
    match member.parameters {
        None => Ok(Vec::new(alloc)),
        Some(types) => row_types(alloc, class, types),
    }
}

fn row_types(alloc: Global, class: ClassId, types: &[RowType]) -> Result<Vec<SrcTy>, Memory>
    ensures { IfOk result (λ ts. map shown ts.items ≡ map (type_declared class.0) types.now) }
{
    let mut all = Vec::new(alloc);
    for ty in types {
        all.push(row_type(class, *ty))?;
    }
    Ok(all)
}
