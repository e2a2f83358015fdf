//! The types that a member's row names.
use crate::classes::LibraryClass;

/// A type, or `void`: a base, and how many array brackets stand behind it.
#[derive(Clone, Copy, PartialEq, Eq)]
pub struct RowType {
    /// What it is without its array brackets.
    pub base: RowBase,
    /// How many array brackets stand behind the base.
    pub dims: u8,
}

/// What a type is without its array brackets.
#[derive(Clone, Copy, PartialEq, Eq)]
pub enum RowBase {
    /// `void`, of what returns nothing.
    Void,
    /// `boolean`.
    Boolean,
    /// `char`.
    Char,
    /// `int`.
    Int,
    /// `long`.
    Long,
    /// A class or interface of the library.
    Class(LibraryClass),
    /// The type parameter of the member's class. Its erasure is its bound.
    Parameter,
}
