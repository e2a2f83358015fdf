// Faults of a program, of any phase.

use crate::rules::Rule;
use je_base::Span;

/// A fault of a program.
#[derive(Clone, Copy, PartialEq, Eq)]
pub struct Finding {
    /// What is broken.
    pub rule: Rule,
    /// Where.
    pub span: Span,
}
