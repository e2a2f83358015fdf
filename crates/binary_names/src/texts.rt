// Texts by number.

ghost use Rattle.std.proofs.Props.{props};
ghost use Rattle.std.specs.List.{IsDistinct};
ghost use Rattle.binary_names.specs.Steps.{same_step};

use indexmap::IndexSet;
use je_base::Memory;
use std::alloc::Global;

/// Texts, each with a number of its own. The empty one has 0; every other is a text that is there, and a last byte.
#[derive(Drop)]
pub struct Texts {
    steps: IndexSet<(usize, u8)>,
    ghost once: { IsDistinct same_step steps.keys } by { Prim.hlevel props },
}

impl Texts {
    ghost use Rattle.std.specs.Prelude.{◌∷◌, ◌++◌, [], List, ℕ, IfOk, OnOk};
    ghost use Rattle.binary_names.specs.Texts.{IsText, Stays};

    /// The number of the empty text.
    pub const EMPTY: usize = 0;

    /// The empty text alone.
    pub fn new(alloc: Global) -> Texts
        ensures { IsText result 0 [] }
    {
        Texts {
            steps: IndexSet::new(alloc),
        }
    }

    // The number of a text with one byte more.
    fn longer(&mut self, text: usize, byte: u8) -> Result<usize, Memory>
        ensures stays { OnOk result (Stays self.old self.new) }
        ensures text { IfOk result
            (λ n. (t : List ℕ) → IsText self.old text t → IsText self.new n (t ++ byte ∷ [])) }
    {
        let (at, _) = self.steps.insert_full((text, byte))?;
        let count = self.steps.len();
        prove!(at < count);
        Ok(at + 1)
    }

    /// The number of a text with further bytes.
    pub fn extended(&mut self, text: usize, bytes: &[u8]) -> Result<usize, Memory>
        ensures stays { OnOk result (Stays self.old self.new) }
        ensures text { IfOk result
            (λ n. (t : List ℕ) → IsText self.old text t → IsText self.new n (t ++ bytes.now)) }
    {
        let mut end = text;
        for byte in bytes {
            end = self.longer(end, *byte)?;
        }
        Ok(end)
    }
}
