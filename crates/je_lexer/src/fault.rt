//! Why bytes are no tokens.

use je_base::{Memory, Span};
use std::alloc::AllocFailed;

/// What is wrong, by its number.
#[derive(Clone, Copy, PartialEq, Eq, Debug)]
pub enum FaultKind {
    /// A byte begins no well-formed sequence of UTF-8: that byte.
    NotUtf8 = 1,
    /// A backslash begins a malformed escape: the backslash.
    BadEscape = 2,
    /// A character begins no token: the character.
    BadChar = 3,
    /// `/*` without `*/`: from it to the file's end.
    OpenComment = 4,
    /// A literal isn't closed on its line: from its quote to the line's or the file's end.
    OpenText = 5,
    /// A number is past its bounds, has a digit 8 or 9 among octal ones, is one that Java reads as a floating-point literal,
    /// or has an identifier character at its end: the longest run of identifier characters and points. Or a character literal
    /// isn't one UTF-16 unit: the literal.
    BadLiteral = 6,
}

/// Why bytes are no tokens.
#[derive(Clone, Copy, PartialEq, Eq, Debug)]
pub enum LexFault {
    /// Want of memory.
    Memory,
    /// What is wrong, and where.
    At { kind: FaultKind, span: Span },
}

impl From<Memory> for LexFault {
    ghost use Rattle.std.specs.Prelude.{◌≡◌};
    ghost use Rattle.je_lexer.specs.declared.fault.LexFault.TheVariants.{Memory as memory};

    ghost from_gives = { λ _ e. e ≡ memory };

    fn from(_: Memory) -> Self {
        LexFault::Memory
    }
}

impl<T: Drop> From<AllocFailed<T>> for LexFault {
    ghost use Rattle.std.specs.Prelude.{◌≡◌};
    ghost use Rattle.je_lexer.specs.declared.fault.LexFault.TheVariants.{Memory as memory};

    ghost from_gives = { λ _ e. e ≡ memory };

    fn from(_: AllocFailed<T>) -> Self {
        LexFault::Memory
    }
}
