//! Integer literals.
ghost use Rattle.std.specs.Prelude.{◌≡◌, ◌<◌, ◌≤◌, ◌^◌, IfSome};
ghost use Rattle.je_lexer.specs.Numbers.{is_empty, is_suffix, is_hexadecimal, digits, number, limit, begins_with_sign, begins_with_exponent, goes_on};
ghost use Rattle.je_lexer.specs.way.Numbers.{in_limit, is_long, number_before};

use crate::characters::{
    DIGIT_0, LOWER_L, LOWER_P, LOWER_X, MINUS, PLUS, POINT, UPPER_L, UPPER_P, UPPER_X,
};
use crate::classes::{begins_with, begins_with_digit, digit, tail};
use crate::runs::hexadecimal_run;
use je_decode::Character;

/// An integer literal.
#[derive(Clone, Copy, PartialEq, Eq)]
pub struct Number {
    /// It is written in decimal digits, and not in octal or hexadecimal ones.
    pub decimal: bool,
    /// It ends in `l` or `L`.
    pub long: bool,
    /// What its digits say, below 2 to the 64th.
    pub value: u64,
}

fn is_suffix(c: Character, behind: &[Character]) -> bool
    ensures { result ≡ is_suffix c behind.now }
{
    behind.is_empty() && (c.code == UPPER_L || c.code == LOWER_L)
}

fn is_hexadecimal(word: &[Character]) -> bool
    ensures { result ≡ is_hexadecimal word.now }
{
    begins_with(DIGIT_0, word)
        && (begins_with(LOWER_X, tail(word)) || begins_with(UPPER_X, tail(word)))
}

fn digits(decimal: bool, radix: u32, text: &[Character]) -> Option<Number>
    requires small { radix ≤ 36 }
    requires some { 2 ≤ radix }
    ensures { result ≡ digits decimal radix 0 text.now }
{
    let mut value = 0;
    let mut rest = text;
    while let Some((c, behind)) = rest.split_first() {
        if is_suffix(*c, behind) {
            return Some(Number {
                decimal,
                long: true,
                value,
            });
        }
        let digit = digit(radix, c.code)?;
        value = u64::from(radix)
            .checked_mul(value)?
            .checked_add(u64::from(digit))?;
        rest = behind;
    }
    Some(Number {
        decimal,
        long: false,
        value,
    })
}

#[tactic(auto, unfolding(crate::specs::Numbers::number))]
fn read_number(word: &[Character]) -> Option<Number>
    ensures { result ≡ number word.now }
{
    if is_hexadecimal(word) {
        let digits_of = tail(tail(word));
        return if begins_with_digit(16, digits_of) {
            digits(false, 16, digits_of)
        } else {
            None
        };
    }
    if begins_with(DIGIT_0, word) && !tail(word).is_empty() {
        return digits(false, 8, word);
    }
    digits(true, 10, word)
}

fn limit(n: Number) -> u128
    ensures { result ≡ limit n }
{
    match (n.decimal, n.long) {
        (true, true) => 0x8000_0000_0000_0001,
        (true, false) => 0x8000_0001,
        (false, true) => 0x1_0000_0000_0000_0000,
        (false, false) => 0x1_0000_0000,
    }
}

/// Whether a literal's value is within its type.
fn in_limit(n: Option<Number>) -> bool
    ensures { result ≡ in_limit n }
{
    match n {
        Some(n) => u128::from(n.value) < limit(n),
        None => false,
    }
}

fn begins_with_sign(text: &[Character]) -> bool
    ensures { result ≡ begins_with_sign text.now }
{
    begins_with(PLUS, text) || begins_with(MINUS, text)
}

fn begins_with_exponent(text: &[Character]) -> bool
    ensures { result ≡ begins_with_exponent text.now }
{
    let behind = tail(text);
    (begins_with(LOWER_P, text) || begins_with(UPPER_P, text))
        && (begins_with_digit(10, behind)
            || begins_with_sign(behind) && begins_with_digit(10, tail(behind)))
}

/// Whether Java reads the word and what is behind it as a floating-point literal.
#[tactic(auto, unfolding(crate::specs::Numbers::goes_on))]
fn goes_on(word: &[Character], behind: &[Character]) -> bool
    ensures { result ≡ goes_on word.now behind.now }
{
    if !begins_with(POINT, behind) {
        return false;
    }
    if !is_hexadecimal(word) {
        return true;
    }
    let fraction = tail(behind);
    begins_with_exponent(&fraction[hexadecimal_run(fraction)..])
}

fn is_long(n: Option<Number>) -> bool
    ensures { result ≡ is_long n }
{
    match n {
        Some(n) => n.long,
        None => false,
    }
}

/// The literal that a word is, before what stands behind it.
#[tactic(auto, unfolding(crate::specs::way::Numbers::number_before))]
pub fn number_before(behind: &[Character], word: &[Character]) -> Option<Number>
    ensures { result ≡ number_before behind.now word.now }
{
    let number = read_number(word);
    if in_limit(number) && (is_long(number) || !goes_on(word, behind)) {
        number
    } else {
        None
    }
}
