// What the library's classes declare.

ghost use Rattle.std.specs.Prelude.{◌≡◌, ◌<◌, ◌^◌, IfOk, map};
ghost use Rattle.je_table.specs.Rows.{class_said};
ghost use Rattle.name_types.specs.View.{shown};
ghost use Rattle.declarations.specs.View.{class_shown, parameter_shown};
ghost use Rattle.library_classes.specs.Library.{sort_due};
ghost use Rattle.library_classes.specs.Numbers.{number_in};
ghost use Rattle.library_declarations.specs.Library.{class_declared, kind_declared, library_declared, parameters_declared, super_type as the_super_type};

use crate::members::{fields, methods};
use crate::types::{class_type, named, super_type};
use declarations::{ClassDecl, ParameterDecl};
use je_base::{Memory, Names};
use je_core::{Access, ClassId, Kind, Sort};
use je_table::{ClassRow, LibraryClass, Super, class_rows};
use name_types::SrcTy;
use std::alloc::Global;

/// What the classes of the library declare, in their order, under the numbers that names have. Each name of theirs has a number
/// where `library_words` gave the library's words numbers.
#[tactic(auto, using(library_classes::proofs::Turns::few_rows), unfolding(crate::specs::Library::library_declared))]
pub fn library_declarations(alloc: Global, names: &Names) -> Result<Vec<ClassDecl>, Memory>
    ensures { IfOk result (λ ds. map class_shown ds.items ≡
        library_declared (number_in names.now)) }
{
    let mut declared = Vec::new(alloc);
    for (at, row) in class_rows().iter().enumerate() {
        declared.push(declaration(alloc, names, row, ClassId(at as u32))?)?;
    }
    Ok(declared)
}

fn declaration(
    alloc: Global,
    names: &Names,
    row: &ClassRow,
    class: ClassId,
) -> Result<ClassDecl, Memory>
    ensures { IfOk result (λ d. class_shown d ≡
        class_declared (number_in names.now) class.0 (class_said row.now)) }
{
    Ok(ClassDecl {
        kind: kind_of(row),
        access: Access::Public,
        parameters: parameters(alloc, names, row.bound)?,
        heads: heads(alloc, row.supers)?,
        fields: fields(alloc, names, row, class)?,
        methods: methods(alloc, names, row, class)?,
    })
}

fn kind_of(row: &ClassRow) -> Kind
    ensures { result ≡ kind_declared (class_said row.now) }
{
    Kind {
        sort: sort_of(row),
        is_abstract: row.is_interface,
        is_final: row.is_final,
        is_static: false,
    }
}

fn sort_of(row: &ClassRow) -> Sort
    ensures { result ≡ sort_due (class_said row.now) }
{
    if row.is_interface {
        Sort::Interface
    } else {
        Sort::Class
    }
}

fn parameters(
    alloc: Global,
    names: &Names,
    bound: Option<LibraryClass>,
) -> Result<Vec<ParameterDecl>, Memory>
    ensures { IfOk result (λ ps. map parameter_shown ps.items ≡
        parameters_declared (number_in names.now) bound) }
{
    let mut parameters = Vec::new(alloc);
    if let Some(class) = bound {
        parameters.push(ParameterDecl {
            name: named(names, ""),
            bound: Some(class_type(class)),
        })?;
    }
    Ok(parameters)
}

// The types above a class.
fn heads(alloc: Global, supers: &[Super]) -> Result<Vec<SrcTy>, Memory>
    ensures { IfOk result (λ ts. map shown ts.items ≡ map the_super_type supers.now) }
{
    let mut heads = Vec::new(alloc);
    for above in supers {
        heads.push(super_type(alloc, above)?)?;
    }
    Ok(heads)
}
