// Constant strings, where they stand.

use je_base::{Span, Units};

/// A constant string in the code of a program, with the span of its node.
#[derive(Clone, Copy)]
pub struct Found<'a> {
    pub units: &'a Units,
    pub span: Span,
}
