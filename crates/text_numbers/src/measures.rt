// Numbers of numbers: each body of `abs`, `max` and `min` is written once for ints and longs.

ghost use Rattle.std.specs.Prelude.{◌≡◌};
ghost use Rattle.std.specs.Int.{w32, w64};
ghost use Rattle.text_numbers.specs.Measures.{absolute, bit_count as the_bit_count, greater, less};

/// `bitCount`: how many bits of an int are 1.
pub fn bit_count(number: i32) -> i32
    ensures { result ≡ the_bit_count number }
{
    let bits = number.cast_unsigned();
    bits.count_ones() as i32
}

macro_rules! absolute {
    ($number:expr) => {
        if $number < 0 {
            $number.wrapping_neg()
        } else {
            $number
        }
    };
}

macro_rules! greater {
    ($x:expr, $y:expr) => {
        if $x < $y { $y } else { $x }
    };
}

macro_rules! less {
    ($x:expr, $y:expr) => {
        if $y < $x { $y } else { $x }
    };
}

/// `abs` of an int; that of the least int is itself.
#[tactic(auto, using(crate::proofs::Negation::wrapped))]
pub fn int_absolute(number: i32) -> i32
    ensures { result ≡ absolute w32 number }
{
    absolute!(number)
}

/// `max` of two ints.
pub fn int_greater(x: i32, y: i32) -> i32
    ensures { result ≡ greater x y }
{
    greater!(x, y)
}

/// `min` of two ints.
pub fn int_less(x: i32, y: i32) -> i32
    ensures { result ≡ less x y }
{
    less!(x, y)
}

/// `abs` of a long; that of the least long is itself.
#[tactic(auto, using(crate::proofs::Negation::wrapped))]
pub fn long_absolute(number: i64) -> i64
    ensures { result ≡ absolute w64 number }
{
    absolute!(number)
}

/// `max` of two longs.
pub fn long_greater(x: i64, y: i64) -> i64
    ensures { result ≡ greater x y }
{
    greater!(x, y)
}

/// `min` of two longs.
pub fn long_less(x: i64, y: i64) -> i64
    ensures { result ≡ less x y }
{
    less!(x, y)
}
