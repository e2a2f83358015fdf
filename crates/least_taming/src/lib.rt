//! The least taming text, which enables nothing: that of a program which is run with none of its own.
#![tactic(auto)]

ghost use Rattle.std.specs.Prelude.{IfOk, Ok};
ghost use Rattle.taming_db.specs.Taming.{Says};
ghost use Rattle.taming_db.specs.View.{rows};
ghost use Rattle.least_taming.specs.Least.{least_text};

use je_base::Memory;
use std::alloc::Global;
use taming_db::{Taming, TamingFault};

/// What the least taming text says.
pub fn least_taming(alloc: Global) -> Result<Taming, Memory>
    ensures { IfOk result (λ taming. Says least_text (Ok (rows taming))) }
{
    match Taming::read(alloc, b"version = 1") {
        Ok(taming) => Ok(taming),
        Err(TamingFault::Memory) => Err(Memory),
        Err(TamingFault::Refused { .. }) => unreachable!(),
    }
}
