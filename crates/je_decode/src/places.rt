//! Characters before Unicode escapes are translated.
ghost use Rattle.std.specs.Prelude.{◌≡◌, ◌≤◌, ◌^◌, length, IfOk};
ghost use Rattle.std.specs.Str.{chars};
ghost use Rattle.je_decode.specs.Places.{placed};

use crate::character::Character;
use je_base::Memory;
use std::alloc::Global;

/// The characters of a text, each with its bytes.
pub fn place_characters(alloc: Global, text: &str) -> Result<Vec<Character>, Memory>
    requires { length text.now ≤ 2 ^ 20 }
    ensures value { IfOk result (λ all. all.items ≡ placed 0 (chars text.now)) }
    ensures few { IfOk result (λ all. length all.items ≤ length text.now) }
{
    let mut all = Vec::new(alloc);
    let mut start = 0;
    for c in text.chars() {
        let end = start + c.len_utf8() as u32;
        all.push(Character {
            code: c as u32,
            start,
            end,
        })?;
        start = end;
    }
    Ok(all)
}
