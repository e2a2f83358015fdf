// The number that a text writes.

ghost use Rattle.std.specs.Prelude.{◌≡◌, ◌≤◌, ◌^◌, neg_ℤ, pos, IsTrue, IfSome, option_map};
ghost use Rattle.text_numbers.specs.Reading.{is_within, kept_within, natural_in, negative, number_in, parsed_int as the_parsed_int, parsed_long as the_parsed_long};
ghost use Rattle.text_numbers.specs.way.Growing.{at_most, with_digit_at_most};

const ZERO: u16 = 48;

const NINE: u16 = 57;

const MINUS: u16 = 45;

/// `parseInt`: the int that a text writes, as ASCII digits behind a `-` or not; `None` where it writes no number
/// or the number is no int. It costs at most the length.
#[tactic(auto, using(crate::proofs::Limits::int_fits))]
pub fn parsed_int(units: &[u16]) -> Option<i32>
    ensures { result ≡ the_parsed_int units.now }
{
    match number_within(units, 1 << 31) {
        None => None,
        Some(number) => Some(number as i32),
    }
}

/// `parseLong`: the same of a long.
pub fn parsed_long(units: &[u16]) -> Option<i64>
    ensures { result ≡ the_parsed_long units.now }
{
    number_within(units, 1 << 63)
}

// The number that a text writes, where it is at least -limit and below the limit.
#[tactic(auto, using(crate::proofs::Limits::limits))]
fn number_within(units: &[u16], limit: u64) -> Option<i64>
    requires low { 11 ≤ limit }
    requires high { limit ≤ 2 ^ 63 }
    ensures value { result ≡ kept_within limit (number_in units.now) }
    ensures within { IfSome result (λ number. IsTrue (is_within limit number)) }
{
    match units {
        [first, digits @ ..] if *first == MINUS => below_zero(digits, limit),
        _ => from_zero(units, limit),
    }
}

#[tactic(auto, using(crate::proofs::Limits::limits))]
fn below_zero(digits: &[u16], limit: u64) -> Option<i64>
    requires low { 11 ≤ limit }
    requires high { limit ≤ 2 ^ 63 }
    ensures value { result ≡ kept_within limit (option_map negative (natural_in digits.now)) }
    ensures within { IfSome result (λ number. IsTrue (is_within limit number)) }
{
    match natural(digits, limit) {
        None => None,
        Some(number) => Some(negated(number)),
    }
}

#[tactic(auto, using(crate::proofs::Limits::limits))]
fn from_zero(digits: &[u16], limit: u64) -> Option<i64>
    requires low { 11 ≤ limit }
    requires high { limit ≤ 2 ^ 63 }
    ensures value { result ≡ kept_within limit (option_map pos (natural_in digits.now)) }
    ensures within { IfSome result (λ number. IsTrue (is_within limit number)) }
{
    match natural(digits, limit - 1) {
        None => None,
        Some(number) => Some(number as i64),
    }
}

fn negated(number: u64) -> i64
    requires { number ≤ 2 ^ 63 }
    ensures { result ≡ neg_ℤ (pos number) }
{
    if number == 0 {
        0
    } else {
        -((number - 1) as i64) - 1
    }
}

// The number that digits write, where it is at most `most`.
#[tactic(auto, using(crate::proofs::Limits::digits))]
fn natural(units: &[u16], most: u64) -> Option<u64>
    requires { 10 ≤ most }
    ensures value { result ≡ at_most most (natural_in units.now) }
    ensures small { IfSome result (λ number. number ≤ most) }
{
    if units.is_empty() {
        return None;
    }
    let mut number: u64 = 0;
    for unit in units {
        number = with_digit(number, *unit, most)?;
    }
    Some(number)
}

// A number with a digit more, where it is at most `most`.
fn with_digit(number: u64, unit: u16, most: u64) -> Option<u64>
    requires { 10 ≤ most }
    ensures value { result ≡ with_digit_at_most most number unit }
    ensures small { IfSome result (λ more. more ≤ most) }
{
    if unit < ZERO || unit > NINE {
        return None;
    }
    let digit = (unit - ZERO) as u64;
    if number > (most - digit) / 10 {
        return None;
    }
    Some(number * 10 + digit)
}
