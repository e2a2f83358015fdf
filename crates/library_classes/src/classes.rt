// The library's classes.

ghost use Rattle.std.specs.Prelude.{◌≡◌, ◌<◌, ◌^◌, ◌++◌, ◌∷◌, [], map, true, is_some, IfOk, OnOk};
ghost use Rattle.je_core.specs.View.{class_view};
ghost use Rattle.je_table.specs.Library.{classes};
ghost use Rattle.je_table.specs.Rows.{class_said};
ghost use Rattle.library_classes.specs.Library.{all_but_first, all_due, bridges_due, class_above, class_due, first_of, interfaces_due, sort_due, superclass_due};
ghost use Rattle.library_classes.specs.Numbers.{number_in};

use crate::fields::fields;
use crate::methods::methods;
use crate::types::{NOWHERE, class_id, number};
use je_base::{Memory, Names};
use je_core::{Bridge, Class, ClassId, Kind, Sort};
use je_table::{ClassRow, LibraryClass, Super, class_rows};
use std::alloc::Global;

/// The classes of the library in their order, under the numbers that their names have. No name is new: they are those to
/// which the library's words gave numbers.
#[tactic(auto, using(crate::proofs::Turns::few_rows), unfolding(crate::specs::Library::all_due))]
pub fn library_classes(alloc: Global, names: &Names) -> Result<Vec<Class>, Memory>
    ensures { IfOk result (λ made. map class_view made.items ≡ all_due (number_in names.now)) }
{
    let mut made = Vec::new(alloc);
    for (at, row) in class_rows().iter().enumerate() {
        made.push(class_of(alloc, names, row, at)?)?;
    }
    Ok(made)
}

fn class_of(alloc: Global, names: &Names, row: &ClassRow, at: usize) -> Result<Class, Memory>
    requires { at < 2 ^ 32 }
    ensures { IfOk result
        (λ made. class_view made ≡ class_due (number_in names.now) at (class_said row.now)) }
{
    Ok(Class {
        name: number(names, row.name),
        span: NOWHERE,
        kind: Kind {
            sort: sort_of(row),
            is_abstract: false,
            is_final: row.is_final,
            is_static: false,
        },
        superclass: superclass_of(row),
        interfaces: interfaces_of(alloc, row)?,
        heads: Vec::new(alloc),
        fields: fields(alloc, names, row)?,
        initializers: Vec::new(alloc),
        methods: methods(alloc, names, row)?,
        enclosing: None,
        captured: 0,
        within: None,
        nth: 0,
        top: ClassId(at as u32),
        bridges: bridges_of(alloc, row)?,
    })
}

fn sort_of(row: &ClassRow) -> Sort
    ensures { result ≡ sort_due (class_said row.now) }
{
    if row.is_interface {
        Sort::Interface
    } else {
        Sort::Class
    }
}

// The superclass of a class, the first that stands above it.
fn superclass_of(row: &ClassRow) -> Option<ClassId>
    ensures { result ≡ superclass_due (class_said row.now) }
{
    if row.is_interface {
        return None;
    }
    match row.supers.split_first() {
        None => None,
        Some((first, _)) => Some(class_id(first.class)),
    }
}

fn ids_of(alloc: Global, supers: &[Super]) -> Result<Vec<ClassId>, Memory>
    ensures { IfOk result (λ ids. ids.items ≡ map class_above supers.now) }
{
    let mut ids = Vec::new(alloc);
    for one in supers {
        ids.push(class_id(one.class))?;
    }
    Ok(ids)
}

fn interfaces_of(alloc: Global, row: &ClassRow) -> Result<Vec<ClassId>, Memory>
    ensures { IfOk result (λ ids. ids.items ≡ interfaces_due (class_said row.now)) }
{
    if row.is_interface {
        return ids_of(alloc, row.supers);
    }
    match row.supers.split_first() {
        None => Ok(Vec::new(alloc)),
        Some((_, rest)) => ids_of(alloc, rest),
    }
}

// The numbers of `compareTo` among the methods of Comparable and of String.
const COMPARED: u32 = 0;

const COMPARES: u32 = 1;

// A String's `compareTo(String)` stands for `Comparable.compareTo(Object)`.
#[tactic(auto, using(crate::proofs::Places::compared, crate::proofs::Places::compares))]
fn bridges_of(alloc: Global, row: &ClassRow) -> Result<Vec<Bridge>, Memory>
    ensures { IfOk result (λ bridges. bridges.items ≡ bridges_due (class_said row.now)) }
{
    let mut bridges = Vec::new(alloc);
    if row.name == "java.lang.String" {
        bridges.push(Bridge {
            method: (class_id(LibraryClass::Comparable), COMPARED),
            by: (class_id(LibraryClass::String), COMPARES),
        })?;
    }
    Ok(bridges)
}
