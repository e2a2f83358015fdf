// Classes that stand in a body, and their reads of the body's locals.

use je_core::{ClassId, Span};

/// A read of a local of a body in a class that stands in it.
#[derive(Clone, Copy, PartialEq, Eq)]
pub struct CapturedRead {
    /// The local's number in the body.
    pub local: u32,
    /// The name that is read.
    pub span: Span,
}

/// A class that stands directly in a body (JLS 14.3, 15.9.5).
#[derive(Drop)]
pub struct Standing {
    pub class: ClassId,
    /// The class's own.
    pub span: Span,
    /// Of a local class the first token of the list of statements that it stands in: the opening bracket of its block, or the first
    /// label of its group of a switch. None of a class behind `new`.
    pub home: Option<Span>,
    /// The reads of the body's locals in the class, and in the classes inside it.
    pub reads: Vec<CapturedRead>,
}
