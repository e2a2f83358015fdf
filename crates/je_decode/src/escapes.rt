//! Unicode escapes.
ghost use Rattle.std.specs.Prelude.{◌≡◌, ◌<◌, ◌≤◌, ◌+◌, ◌*◌, length, option_map, false, IfSome, IfOk, IfErr, IsTrue, if◌then◌else◌};
ghost use Rattle.std.specs.Char.{digit_value};
ghost use Rattle.je_decode.specs.Escapes.{begins_with, opens, turns, behind_marks, is_hexadecimal, one_digit, escape, is_high, is_low, pair, low_half, paired, piece, Translates};
ghost use Rattle.je_decode.specs.way.Views.{escape_said, piece_said, IsUntranslated};

use crate::character::Character;
use crate::fault::DecodeFault;
use std::alloc::Global;

/// The character that begins an escape.
const BACKSLASH: u32 = '\\' as u32;
/// The character behind an escape's backslash.
const LOWER_U: u32 = 'u' as u32;

/// An escape's value, the byte behind it, and the text behind it.
#[derive(Clone, Copy)]
struct EscapeFound<'a> {
    unit: u32,
    end: u32,
    rest: &'a [Character],
}

/// A character, and the text behind it.
#[derive(Clone, Copy)]
struct PieceFound<'a> {
    character: Character,
    rest: &'a [Character],
}

fn begins_with(code: u32, rest: &[Character]) -> bool
    ensures { result ≡ begins_with code rest.now }
{
    match rest.first() {
        Some(c) => c.code == code,
        None => false,
    }
}

fn opens(odd: bool, c: Character, rest: &[Character]) -> bool
    ensures { result ≡ opens odd c rest.now }
{
    !odd && c.code == BACKSLASH && begins_with(LOWER_U, rest)
}

fn turns(odd: bool, c: Character, rest: &[Character]) -> bool
    ensures { result ≡ turns odd c rest.now }
{
    !odd && c.code == BACKSLASH && !begins_with(LOWER_U, rest)
}

fn behind_marks(text: &[Character]) -> &[Character]
    ensures value { result.now ≡ behind_marks text.now }
    ensures shorter { length result.now ≤ length text.now }
{
    let mut rest = text;
    while let Some((c, behind)) = rest.split_first() {
        if c.code != LOWER_U {
            return rest;
        }
        rest = behind;
    }
    rest
}

fn hexadecimal_digit(code: u32) -> Option<u32>
    ensures value { result ≡ (if is_hexadecimal code then Some (digit_value code) else None) }
    ensures small { IfSome result (λ d. d < 16) }
{
    match char::from_u32(code) {
        Some(c) => c.to_digit(16),
        None => None,
    }
}

/// The digits so far have this value, which is below 16 to the third.
#[tactic(auto, unfolding(crate::specs::Escapes::one_digit))]
fn one_digit(unit: u32, text: &[Character]) -> Option<EscapeFound<'_>>
    requires { unit < 4096 }
    ensures value { option_map escape_said result ≡ one_digit unit text.now }
    ensures small { IfSome result (λ e. e.unit < 16 * unit + 16) }
    ensures shorter { IfSome result (λ e. length e.rest.now ≤ length text.now) }
{
    let (c, rest) = text.split_first()?;
    let digit = hexadecimal_digit(c.code)?;
    Some(EscapeFound {
        unit: 16 * unit + digit,
        end: c.end,
        rest,
    })
}

/// What stands behind an escape's backslash.
#[tactic(auto, unfolding(crate::specs::Escapes::escape, crate::specs::Escapes::and_digit))]
fn escape(text: &[Character]) -> Option<EscapeFound<'_>>
    ensures value { option_map escape_said result ≡ escape text.now }
    ensures small { IfSome result (λ e. e.unit < 65536) }
    ensures shorter { IfSome result (λ e. length e.rest.now ≤ length text.now) }
{
    let e = one_digit(0, behind_marks(text))?;
    let e = one_digit(e.unit, e.rest)?;
    let e = one_digit(e.unit, e.rest)?;
    one_digit(e.unit, e.rest)
}

fn is_high(unit: u32) -> bool
    ensures { result ≡ is_high unit }
{
    0xD800 <= unit && unit <= 0xDBFF
}

fn is_low(unit: u32) -> bool
    ensures { result ≡ is_low unit }
{
    0xDC00 <= unit && unit <= 0xDFFF
}

/// The escape of a low half of a surrogate pair.
#[tactic(auto, unfolding(crate::specs::Escapes::low_half))]
fn low_half(text: &[Character]) -> Option<EscapeFound<'_>>
    ensures value { option_map escape_said result ≡ low_half text.now }
    ensures low { IfSome result (λ e. IsTrue (is_low e.unit)) }
    ensures shorter { IfSome result (λ e. length e.rest.now ≤ length text.now) }
{
    let (c, rest) = text.split_first()?;
    if !opens(false, *c, rest) {
        return None;
    }
    let e = escape(rest)?;
    if is_low(e.unit) { Some(e) } else { None }
}

/// The character of an escape that begins at this byte, joined with the low half behind it.
#[tactic(auto, unfolding(crate::specs::Escapes::paired))]
fn paired(start: u32, e: EscapeFound<'_>) -> PieceFound<'_>
    requires { e.unit < 65536 }
    ensures value { piece_said result ≡ paired start (escape_said e.entry) }
    ensures shorter { length result.rest.now ≤ length e.entry.rest.now }
{
    if is_high(e.unit) {
        if let Some(l) = low_half(e.rest) {
            return PieceFound {
                character: Character {
                    code: 0x10000 + 0x400 * (e.unit - 0xD800) + (l.unit - 0xDC00),
                    start,
                    end: l.end,
                },
                rest: l.rest,
            };
        }
    }
    PieceFound {
        character: Character {
            code: e.unit,
            start,
            end: e.end,
        },
        rest: e.rest,
    }
}

/// The piece at the front of a text; none where an escape is malformed.
#[tactic(auto, unfolding(crate::specs::Escapes::piece))]
fn piece(odd: bool, c: Character, rest: &[Character]) -> Option<PieceFound<'_>>
    ensures value { option_map piece_said result ≡ piece odd c rest.now }
    ensures shorter { IfSome result (λ p. length p.rest.now ≤ length rest.now) }
{
    if !opens(odd, c, rest) {
        return Some(PieceFound { character: c, rest });
    }
    let e = escape(rest)?;
    Some(paired(c.start, e))
}

/// The characters of a text, its escapes translated.
pub fn translate(alloc: Global, raw: &[Character]) -> Result<Vec<Character>, DecodeFault>
    ensures ok { IfOk result (λ all. Translates false raw.now all.items) }
    ensures fault { IfErr result (IsUntranslated raw.now) }
    ensures few { IfOk result (λ all. length all.items ≤ length raw.now) }
{
    let mut all = Vec::new(alloc);
    let mut odd = false;
    let mut rest = raw;
    while let Some((c, behind)) = rest.split_first() {
        let Some(piece) = piece(odd, *c, behind) else {
            return Err(DecodeFault::BadEscape(*c));
        };
        all.push(piece.character)?;
        odd = turns(odd, *c, behind);
        rest = piece.rest;
    }
    Ok(all)
}
