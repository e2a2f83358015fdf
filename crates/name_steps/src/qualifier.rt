// What stands before a point.

use je_ast::Identifier;
use je_core::ClassId;
use typed_nodes::TypedExpr;

/// What stands before a point.
#[derive(Drop)]
pub enum Qualifier {
    Value(TypedExpr),
    Class(ClassId),
    /// The parts of a name that means nothing so far.
    Beginning {
        first: Identifier,
        further: Vec<Identifier>,
    },
}
