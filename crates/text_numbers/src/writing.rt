// Numbers and truths as texts.

ghost use Rattle.std.specs.Prelude.{◌≡◌, IfOk};
ghost use Rattle.text_numbers.specs.Writing.{decimal_text, hex_text as the_hex_text, truth_text as the_truth_text, unit_text as the_unit_text};

use itoa::Buffer;
use je_base::{Memory, Units};
use std::alloc::Global;

/// `toString` of an int.
pub fn int_text(alloc: Global, number: i32) -> Result<Units, Memory>
    ensures { IfOk result (λ made. made ≡ decimal_text number) }
{
    let mut buffer = Buffer::new();
    widened(alloc, buffer.format(number).as_bytes())
}

/// `toString` of a long.
pub fn long_text(alloc: Global, number: i64) -> Result<Units, Memory>
    ensures { IfOk result (λ made. made ≡ decimal_text number) }
{
    let mut buffer = Buffer::new();
    widened(alloc, buffer.format(number).as_bytes())
}

/// `toHexString`: an int's bits to the base 16, in lower case, without leading zeros.
pub fn hex_text(alloc: Global, number: i32) -> Result<Units, Memory>
    ensures { IfOk result (λ made. made ≡ the_hex_text number) }
{
    let bits = number.cast_unsigned();
    let digits = format!(in alloc; "{bits:x}")?;
    widened(alloc, digits.as_bytes())
}

/// `valueOf` of a boolean.
pub fn truth_text(alloc: Global, truth: bool) -> Result<Units, Memory>
    ensures { IfOk result (λ made. made ≡ the_truth_text truth) }
{
    if truth {
        widened(alloc, b"true")
    } else {
        widened(alloc, b"false")
    }
}

/// `valueOf` of a char.
pub fn unit_text(alloc: Global, unit: u16) -> Result<Units, Memory>
    ensures { IfOk result (λ made. made ≡ the_unit_text unit) }
{
    let mut made = Units::new(alloc);
    made.push(unit)?;
    Ok(made)
}

// Each byte of an ASCII text as a unit.
fn widened(alloc: Global, bytes: &[u8]) -> Result<Units, Memory>
    ensures { IfOk result (λ made. made ≡ bytes.now) }
{
    let mut made = Units::new(alloc);
    for byte in bytes {
        made.push(*byte as u16)?;
    }
    Ok(made)
}
