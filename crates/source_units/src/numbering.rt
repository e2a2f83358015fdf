// The names of a file among those of all files.

ghost use Rattle.std.specs.Prelude.{◌≡◌, ◌+◌, ◌<◌, ◌≤◌, ◌^◌, length, slice_get, IfOk, OnOk, Some};
ghost use Rattle.source_units.specs.Names.{all_interned, AreNumbers};

use je_base::{Memory, NameId, Names};
use std::alloc::Global;

// The numbers that a file's own names have in `names`, in order; those that it lacks get the next ones.
pub(crate) fn numbers(alloc: Global, own: &Names, names: &mut Names) -> Result<Vec<NameId>, Memory>
    requires room { length names.old + length own.now ≤ 2 ^ 31 }
    ensures numbers { IfOk result (λ to. AreNumbers names.new own.now to.items) }
    ensures names { OnOk result (names.new ≡ all_interned names.old own.now) }
    ensures few { OnOk result (length names.new ≤ length names.old + length own.now) }
{
    let mut numbers = Vec::new(alloc);
    for at in 0..own.len() {
        let number = names.intern(text_at(own, at))?;
        numbers.push(number)?;
    }
    Ok(numbers)
}

// The text of the name with this number.
#[tactic(auto, using(crate::proofs::Interning::is_there))]
fn text_at(names: &Names, at: usize) -> &str
    requires few { length names.now ≤ 2 ^ 31 }
    requires inside { at < length names.now }
    ensures { slice_get names.now at ≡ Some result.now }
{
    match names.text(NameId(at as u32)) {
        Some(text) => text,
        None => "",
    }
}
