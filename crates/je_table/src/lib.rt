//! The lists that the language fixes: its words, its operators, the classes of its library and their members.
//!
//! Each list is a static. `KEYWORDS`, `OPERATORS` and `LIBRARY` are sorted, and `find_word` and `find_member` give the
//! place of the first row that has the key, none exactly where no row has it. Contracts see a table as the list of its
//! rows. Layers above use these:
//!
//! - `find_keyword(word)`, or `find_word` over another table. That a table is sorted is a Bool test, so a caller proves it
//!   by naming the static: `find_word(&OPERATORS, word)` leaves no goal, in any crate. A file of `specs/` names the
//!   keywords as a list of texts, `Rattle.je_table.specs.Words.keywords`.
//! - `LibraryClass::number()`, the number of a class: the place of its name in the list of classes, as the definition
//!   `Rattle.je_table.specs.Library.class_number` says.
//! - `class_rows()` and `member_rows()`, which are `CLASSES` and `LIBRARY` with what is proved of them: their rows are those
//!   of the definition `Rattle.je_table.specs.Library.{classes, library}`, and the members are sorted, so that
//!   `find_member(member_rows(), class, signature)` leaves no goal.
//!
//! How rows are written:
//!
//! - A **class** is written by its full name, `java.lang.String`, where a row is found by it, and as a `LibraryClass`, its
//!   place in `CLASSES`, where another row speaks of it.
//! - A **signature** is a field's name, or a method's name and in brackets the simple names of its parameters' erased types,
//!   with a comma and no blank between: `substring(int,int)`, `new(char[])`. A constructor is named `new` and returns `void`.
//!   Before erasure the types are those of `parameters`, where `RowBase::Parameter` is the class's type parameter.
//! - **What stands above** a class is a list: the superclass of a class other than Object, then the interfaces, each with its
//!   type argument. A **generic** class has one type parameter, whose bound is `bound`.
//! - A **set of markers** is a sum of bits of `marker`.
#![tactic(auto)]

mod classes;
mod library;
pub mod marker;
mod members;
mod types;
mod words;

pub use classes::{CLASSES, ClassRow, LibraryClass, Super, class_rows};
pub use library::{LIBRARY, member_rows};
pub use members::{CostKind, MemberRow, find_member};
pub use types::{RowBase, RowType};
pub use words::{KEYWORDS, OPERATORS, find_keyword, find_word};
