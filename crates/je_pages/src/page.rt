// One page.

ghost use Rattle.std.specs.Prelude.{◌≡◌, ◌<◌, [], ◌∷◌, ◌++◌, OnOk, OnErr, length, take, slice_get, slice_set};

use je_core::{Memory, Value};
use std::alloc::Global;
use std::marker::Model;

/// The values of a page, in order.
#[derive(Drop)]
pub struct Page {
    values: Vec<Value>,
}

impl Model for Page {
    ghost use Rattle.std.specs.Prelude.{List};
    ghost use Rattle.je_core.specs.declared.value.Value.{Value as OneValue};

    ghost Value = { List OneValue };

    ghost view = { λ p. p.values.items };
}

impl Page {
    /// No values.
    pub fn new(alloc: Global) -> Page
        ensures { result ≡ [] }
    {
        Page {
            values: Vec::new(alloc),
        }
    }

    /// How many values there are.
    pub fn len(&self) -> usize
        ensures { result ≡ length self.now }
    {
        self.values.len()
    }

    /// All of them.
    pub fn as_slice(&self) -> &[Value]
        ensures { result.now ≡ self.now }
    {
        &self.values
    }

    /// The value at a place; None exactly where there is none.
    pub fn get(&self, at: usize) -> Option<Value>
        ensures { result ≡ slice_get self.now at }
    {
        self.values.get(at).copied()
    }

    /// Adds a value at the end.
    pub fn push(&mut self, value: Value) -> Result<(), Memory>
        ensures ok { OnOk result (self.new ≡ self.old ++ value ∷ []) }
        ensures err { OnErr result (self.new ≡ self.old) }
    {
        self.values.push(value)?;
        Ok(())
    }

    /// Puts a value in place of the one at a place.
    pub fn set(&mut self, at: usize, value: Value)
        requires { at < length self.old }
        ensures { self.new ≡ slice_set self.old at value }
    {
        self.values[at] = value;
    }

    /// Keeps so many values from the front, or all where there are no more.
    pub fn cut(&mut self, len: usize)
        ensures { self.new ≡ take len self.old }
    {
        self.values.truncate(len);
    }
}
