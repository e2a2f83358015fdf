// Erased types of the library's members (JLS 4.6), and names.

ghost use Rattle.std.specs.Prelude.{◌≡◌, unwrap_or};
ghost use Rattle.je_base.specs.Names.{name_at, number_of};
ghost use Rattle.je_table.specs.Rows.{class_said};
ghost use Rattle.library_classes.specs.Library.{bound_of as the_bound_of, erased as the_erased, erased_base as the_erased_base, nowhere, number_of_class};
ghost use Rattle.library_classes.specs.Numbers.{number_in};

use je_base::{NameId, Names, Span};
use je_core::{Base, ClassId, Ty};
use je_table::{ClassRow, LibraryClass, RowBase, RowType};

/// Nothing of the library is written in a file.
pub const NOWHERE: Span = Span {
    file: 0,
    start: 0,
    end: 0,
};

/// The number of a word, 0 where it has none.
pub fn number(names: &Names, word: &str) -> NameId
    ensures { result ≡ number_in names.now word.now }
{
    match names.find(word) {
        Some(id) => id,
        None => NameId(0),
    }
}

/// A library class's number.
#[tactic(auto, unfolding(je_classes::specs::Hierarchy::library_class))]
pub fn class_id(class: LibraryClass) -> ClassId
    ensures { result ≡ number_of_class class }
{
    ClassId(class.number())
}

// The bound of a class's type parameter.
fn bound_of(row: &ClassRow) -> ClassId
    ensures { result ≡ the_bound_of (class_said row.now) }
{
    match row.bound {
        Some(bound) => class_id(bound),
        None => class_id(LibraryClass::Object),
    }
}

fn erased_base(row: &ClassRow, base: RowBase) -> Base
    ensures { result ≡ the_erased_base (class_said row.now) base }
{
    match base {
        RowBase::Void => Base::Void,
        RowBase::Boolean => Base::Bool,
        RowBase::Char => Base::Char,
        RowBase::Int => Base::Int,
        RowBase::Long => Base::Long,
        RowBase::Class(class) => Base::Class(class_id(class)),
        RowBase::Parameter => Base::Class(bound_of(row)),
    }
}

/// A type without its type parameter.
pub fn erased(row: &ClassRow, ty: RowType) -> Ty
    ensures { result ≡ the_erased (class_said row.now) ty }
{
    Ty {
        base: erased_base(row, ty.base),
        dims: ty.dims,
    }
}
