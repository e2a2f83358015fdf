//! Characters with their bytes.

/// A character of a source file after Unicode escapes are translated, with the bytes that spell it.
#[derive(Clone, Copy, PartialEq, Eq)]
pub struct Character {
    /// A code point, at most 0x10FFFF. Only an escape gives a surrogate, and none gives a high one before a low one.
    pub code: u32,
    /// Its first byte.
    pub start: u32,
    /// The byte behind its last one.
    pub end: u32,
}
