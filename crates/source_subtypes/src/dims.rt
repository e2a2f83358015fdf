// Dimensions of arrays.

ghost use Rattle.std.specs.Prelude.{◌≡◌, ◌+◌, min};

/// So many dimensions and so many more, 255 at most.
pub fn added_dims(dims: u8, more: u8) -> u8
    ensures { result ≡ min 255 (dims + more) }
{
    (dims as usize + more as usize).min(255) as u8
}
