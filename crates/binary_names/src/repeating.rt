// Numbers that stand earlier in a list.

ghost use Rattle.std.specs.Prelude.{◌≡◌, ◌<◌, ℕ, IfOk, Some, length, nat_eq, slice_get, slice_index, take};
ghost use Rattle.std.specs.List.{list_any};

use indexmap::IndexSet;
use je_base::Memory;
use std::alloc::Global;

/// Of each number whether it stands earlier in the list.
pub fn repeats(alloc: Global, numbers: &[usize]) -> Result<Vec<bool>, Memory>
    ensures count { IfOk result (λ flags. length flags.items ≡ length numbers.now) }
    ensures flags { IfOk result
        (λ flags. (c : ℕ) → c < length numbers.now → slice_get flags.items c ≡
        Some (list_any (nat_eq (slice_index numbers.now c)) (take c numbers.now))) }
{
    let mut seen = IndexSet::new(alloc);
    let mut flags = Vec::new(alloc);
    for number in numbers {
        let (_, is_new) = seen.insert_full(*number)?;
        flags.push(!is_new)?;
    }
    Ok(flags)
}
