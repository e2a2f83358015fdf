//! From bytes to characters.
ghost use Rattle.std.specs.Prelude.{◌≡◌, ◌≤◌, ◌^◌, length, IfOk, IfErr};
ghost use Rattle.je_decode.specs.Decoding.{ends_in_mark, without_mark, Decodes, IsRefused};

use crate::character::Character;
use crate::escapes::translate;
use crate::fault::DecodeFault;
use crate::places::place_characters;
use std::alloc::Global;

/// The character that is dropped where it is a file's last.
const CONTROL_Z: u32 = '\u{1a}' as u32;

/// The characters of a source file of at most 1,048,576 bytes, or why it has none. A byte that isn't UTF-8 comes before a
/// malformed escape.
pub fn decode(alloc: Global, bytes: &[u8]) -> Result<Vec<Character>, DecodeFault>
    requires { length bytes.now ≤ 2 ^ 20 }
    ensures ok { IfOk result (λ all. Decodes bytes.now all.items) }
    ensures fault { IfErr result (IsRefused bytes.now) }
    ensures few { IfOk result (λ all. length all.items ≤ length bytes.now) }
{
    let text = match str::from_utf8(bytes) {
        Ok(text) => text,
        Err(e) => {
            return Err(DecodeFault::NotUtf8 {
                at: e.valid_up_to() as u32,
            });
        }
    };
    let raw = place_characters(alloc, text)?;
    let mut all = translate(alloc, &raw)?;
    drop_mark(&mut all);
    Ok(all)
}

fn drop_mark(all: &mut Vec<Character>)
    ensures value { all.new.items ≡ without_mark all.old.items }
    ensures few { length all.new.items ≤ length all.old.items }
{
    if ends_in_mark(all) {
        let _ = all.pop();
    }
}

fn ends_in_mark(all: &[Character]) -> bool
    ensures { result ≡ ends_in_mark all.now }
{
    match all.last() {
        Some(c) => c.code == CONTROL_Z,
        None => false,
    }
}
