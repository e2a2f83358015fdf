// What an expression is for.

use name_types::SrcTy;

/// What an expression of a body is for.
#[derive(Clone, Copy)]
pub enum Purpose<'a> {
    /// Its value is read.
    Read,
    /// It is assigned.
    Assigned,
    /// It is read and assigned.
    Updated,
    /// It is the initializer of a variable of a type.
    Initial(&'a SrcTy),
}
