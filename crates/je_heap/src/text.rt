// Units that grow and shrink at their end.

ghost use Rattle.std.specs.Prelude.{◌≡◌, ◌++◌, IfOk, OnOk, OnErr, length, take};

use je_core::Memory;
use std::alloc::Global;
use std::marker::Model;

/// The UTF-16 units of a text or a builder, which grow and shrink at their end.
#[derive(Drop)]
pub struct Text {
    units: Vec<u16>,
}

impl Model for Text {
    ghost use Rattle.std.specs.Prelude.{ℕ, List};

    ghost Value = { List ℕ };

    ghost view = { λ t. t.units.items };
}

impl Text {
    /// A copy of these units.
    pub fn of(alloc: Global, units: &[u16]) -> Result<Text, Memory>
        ensures { IfOk result (λ text. text ≡ units.now) }
    {
        let mut own = Vec::new(alloc);
        own.extend_from_slice(units)?;
        Ok(Text { units: own })
    }

    /// How many units there are.
    pub fn len(&self) -> usize
        ensures { result ≡ length self.now }
    {
        self.units.len()
    }

    /// The units.
    pub fn as_slice(&self) -> &[u16]
        ensures { result.now ≡ self.now }
    {
        &self.units
    }

    /// Adds units at the end, which costs their number, and now and then that of all.
    pub fn lengthen(&mut self, more: &[u16]) -> Result<(), Memory>
        ensures ok { OnOk result (self.new ≡ self.old ++ more.now) }
        ensures err { OnErr result (self.new ≡ self.old) }
    {
        self.units.extend_from_slice(more)?;
        Ok(())
    }

    /// Keeps so many units from the front, or all where there are no more.
    pub fn shorten(&mut self, count: usize)
        ensures { self.new ≡ take count self.old }
    {
        self.units.truncate(count);
    }
}
