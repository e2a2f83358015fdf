// Why a taming text is refused.

ghost use Rattle.std.specs.Prelude.{◌≡◌};
ghost use Rattle.taming_db.specs.declared.fault.TamingFault.TheVariants.{Memory};

use std::alloc::{AllocError, AllocFailed};

/// What is wrong with a taming text, in the order in which a table is judged.
#[derive(Clone, Copy, Debug, PartialEq, Eq)]
pub enum TamingRule {
    /// The bytes are no document of TOML.
    NotToml,
    /// A key, or a value of a key, is not one that stands there.
    BadShape,
    /// The name is none of a class of the library.
    UnknownClass,
    /// What is enabled is no member that the class declares.
    UnknownMember,
    /// What is enabled is wild.
    Wild,
    /// The class is given a marker that it doesn't truly have.
    FalseHonorary,
    /// An earlier table names the class, or a marker or a member stands twice in this one.
    Twice,
}

/// Why a taming text was not read.
#[derive(Clone, Copy, Debug, PartialEq, Eq)]
pub enum TamingFault {
    /// The first fault of the text. Tables count from 1; 0 is the text as a whole.
    Refused { table: usize, rule: TamingRule },
    /// Want of memory.
    Memory,
}

impl From<AllocError> for TamingFault {
    ghost from_gives = { λ _ e. e ≡ Memory };

    fn from(_: AllocError) -> Self {
        TamingFault::Memory
    }
}

impl<T: Drop> From<AllocFailed<T>> for TamingFault {
    ghost from_gives = { λ _ e. e ≡ Memory };

    fn from(_: AllocFailed<T>) -> Self {
        TamingFault::Memory
    }
}
