//! Tables of a core program, by which no step of a run looks through a list.
//!
//! A `FieldTable` says in a constant time which slot a field has, and which place among the static fields. It is built in a time
//! and in memory linear in the classes and fields of the program: `order.rt` puts each class behind the first of those above it,
//! so that how many slots a class has is known before that is asked of the classes below.
//!
//! A `SubclassTable` says which class is below which, in as many steps as a class's number has bits. The classes at or above a class
//! are those at or above the first class above it, and few more; what two classes have in common is kept once.
#![tactic(auto)]

mod by_class;
mod fields;
mod order;
mod subclasses;
mod table;

pub use subclasses::SubclassTable;
pub use table::FieldTable;
