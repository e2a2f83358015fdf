// Types of the library's rows, and names.

ghost use Rattle.std.specs.Prelude.{◌≡◌, ℕ, IfOk};
ghost use Rattle.name_types.specs.View.{all_shown, base_shown, shown};
ghost use Rattle.library_classes.specs.Library.{number_of_class};
ghost use Rattle.library_classes.specs.Numbers.{number_in};
ghost use Rattle.library_declarations.specs.Library.{array_declared, arguments_of as the_arguments_of, class_type as the_class_type, named as the_named, super_type as the_super_type, type_declared};

use je_ast::Identifier;
use je_base::{Memory, NameId, Names, Span};
use je_core::{Base, ClassId};
use je_table::{LibraryClass, RowBase, RowType, Super};
use name_types::{SrcBase, SrcTy};
use std::alloc::Global;

// Nothing of the library is written in a file.
const NOWHERE: Span = Span {
    file: 0,
    start: 0,
    end: 0,
};

// The number of a word, 0 where it has none.
fn number(names: &Names, word: &str) -> NameId
    ensures { result ≡ number_in names.now word.now }
{
    match names.find(word) {
        Some(id) => id,
        None => NameId(0),
    }
}

/// A word as the name of a declaration.
pub fn named(names: &Names, word: &str) -> Identifier
    ensures { result ≡ the_named (number_in names.now) word.now }
{
    Identifier {
        name: number(names, word),
        span: NOWHERE,
    }
}

// A library class's number.
#[tactic(auto, unfolding(je_classes::specs::Hierarchy::library_class))]
fn class_id(class: LibraryClass) -> ClassId
    ensures { result ≡ number_of_class class }
{
    ClassId(class.number())
}

/// A class without type arguments.
pub fn class_type(class: LibraryClass) -> SrcTy
    ensures { shown result ≡ the_class_type class }
{
    SrcTy {
        base: SrcBase::Plain(Base::Class(class_id(class))),
        dims: 0,
    }
}

/// The type above a class that a row names.
pub fn super_type(alloc: Global, above: &Super) -> Result<SrcTy, Memory>
    ensures { IfOk result (λ t. shown t ≡ the_super_type above.now) }
{
    Ok(SrcTy {
        base: SrcBase::Made(class_id(above.class), arguments_of(alloc, above.argument)?),
        dims: 0,
    })
}

fn arguments_of(alloc: Global, argument: Option<LibraryClass>) -> Result<Vec<SrcTy>, Memory>
    ensures { IfOk result (λ ts. all_shown ts.items ≡ the_arguments_of argument) }
{
    let mut arguments = Vec::new(alloc);
    if let Some(class) = argument {
        arguments.push(class_type(class))?;
    }
    Ok(arguments)
}

/// The type of a row of a class.
pub fn row_type(class: ClassId, ty: RowType) -> SrcTy
    ensures { shown result ≡ type_declared class.0 ty }
{
    SrcTy {
        base: row_base(class, ty.base),
        dims: ty.dims,
    }
}

fn row_base(class: ClassId, base: RowBase) -> SrcBase
    ensures { (n : ℕ) → base_shown result n ≡ array_declared class.0 base n }
{
    match base {
        RowBase::Void => SrcBase::Plain(Base::Void),
        RowBase::Boolean => SrcBase::Plain(Base::Bool),
        RowBase::Char => SrcBase::Plain(Base::Char),
        RowBase::Int => SrcBase::Plain(Base::Int),
        RowBase::Long => SrcBase::Plain(Base::Long),
        RowBase::Class(of) => SrcBase::Plain(Base::Class(class_id(of))),
        RowBase::Parameter => SrcBase::Var(class, 0),
    }
}
