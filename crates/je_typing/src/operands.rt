// What operands are converted to.

use je_core::Base;

/// The primitive types to which a binary operator's operands are converted (JLS 5.6.2, 15.19).
#[derive(Clone, Copy, PartialEq, Eq)]
pub struct Operands {
    pub left: Base,
    pub right: Base,
}
