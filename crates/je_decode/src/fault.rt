//! Why bytes are no text of a source file.
ghost use Rattle.std.specs.Prelude.{◌≡◌};
ghost use Rattle.je_decode.specs.declared.fault.DecodeFault.TheVariants.{Memory as memory};

use crate::character::Character;
use je_base::Memory;
use std::alloc::{AllocError, AllocFailed};

/// Why bytes don't decode to characters.
#[derive(Clone, Copy, PartialEq, Eq)]
pub enum DecodeFault {
    /// Want of memory.
    Memory,
    /// The byte at this place begins no well-formed sequence of UTF-8.
    NotUtf8 { at: u32 },
    /// This backslash begins a Unicode escape that is malformed.
    BadEscape(Character),
}

impl From<Memory> for DecodeFault {
    ghost from_gives = { λ _ e. e ≡ memory };

    fn from(_: Memory) -> Self {
        DecodeFault::Memory
    }
}

impl From<AllocError> for DecodeFault {
    ghost from_gives = { λ _ e. e ≡ memory };

    fn from(_: AllocError) -> Self {
        DecodeFault::Memory
    }
}

impl<T: Drop> From<AllocFailed<T>> for DecodeFault {
    ghost from_gives = { λ _ e. e ≡ memory };

    fn from(_: AllocFailed<T>) -> Self {
        DecodeFault::Memory
    }
}
