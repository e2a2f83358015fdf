// The methods and constructors of the library's classes.

ghost use Rattle.std.specs.Prelude.{◌≡◌, map, unwrap_or, [], IfOk};
ghost use Rattle.je_core.specs.View.{method_view};
ghost use Rattle.je_table.specs.Rows.{class_said, row_said};
ghost use Rattle.library_classes.specs.Library.{erased as the_erased, is_method_of as the_is_method_of, method_due, methods_due};
ghost use Rattle.library_classes.specs.Numbers.{number_in};

use crate::types::{NOWHERE, erased, number};
use je_base::{Memory, Names};
use je_core::{Access, Flags, Method, Ty};
use je_table::{ClassRow, MemberRow, RowType, member_rows};
use std::alloc::Global;

/// The methods of a class, in the order of their rows.
pub fn methods(alloc: Global, names: &Names, row: &ClassRow) -> Result<Vec<Method>, Memory>
    ensures { IfOk result (λ methods. map method_view methods.items ≡
        methods_due (number_in names.now) (class_said row.now)) }
{
    let mut methods = Vec::new(alloc);
    for member in member_rows() {
        if is_method_of(row, member) {
            methods.push(method(alloc, names, row, member)?)?;
        }
    }
    Ok(methods)
}

fn is_method_of(row: &ClassRow, member: &MemberRow) -> bool
    ensures { result ≡ the_is_method_of (class_said row.now) (row_said member.now) }
{
    member.class == row.name && !member.parameters.is_none()
}

// Types without type parameters.
fn all_erased(alloc: Global, row: &ClassRow, types: &[RowType]) -> Result<Vec<Ty>, Memory>
    ensures { IfOk result
        (λ erased. erased.items ≡ map (the_erased (class_said row.now)) types.now) }
{
    let mut all = Vec::new(alloc);
    for ty in types {
        all.push(erased(row, *ty))?;
    }
    Ok(all)
}

// The erased types of a method's parameters.
fn params(alloc: Global, row: &ClassRow, member: &MemberRow) -> Result<Vec<Ty>, Memory>
    ensures { IfOk result (λ params. params.items ≡
        map (the_erased (class_said row.now)) (unwrap_or (row_said member.now).parameters [])) }
{
    match member.parameters {
        None => Ok(Vec::new(alloc)),
        Some(types) => all_erased(alloc, row, types),
    }
}

fn method(
    alloc: Global,
    names: &Names,
    row: &ClassRow,
    member: &MemberRow,
) -> Result<Method, Memory>
    ensures { IfOk result (λ method. method_view method ≡
        method_due (number_in names.now) (class_said row.now) (row_said member.now)) }
{
    Ok(Method {
        name: number(names, member.name),
        span: NOWHERE,
        params: params(alloc, row, member)?,
        returns: erased(row, member.returns),
        flags: Flags {
            is_static: member.is_static,
            is_final: false,
            is_abstract: row.is_interface,
            is_native: false,
            is_finalizer: false,
            access: Access::Public,
        },
        throws: Vec::new(alloc),
        locals: Vec::new(alloc),
        body: None,
    })
}
