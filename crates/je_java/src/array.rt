// Arrays.

use je_core::Ty;

/// An array but for its elements (JLS 10.1, 10.3).
#[derive(Clone, Copy, PartialEq, Eq)]
pub struct Extent {
    /// The type of its elements.
    pub element: Ty,
    /// How many there are.
    pub count: u64,
}
