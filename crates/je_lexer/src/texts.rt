//! What stands between a literal's quotes.
ghost use Rattle.std.specs.Prelude.{◌≡◌, ◌≤◌, length, option_map, IfSome, IfOk, IfErr, OnOk, ◌++◌};
ghost use Rattle.je_lexer.specs.Texts.{units_of, is_octal, simple_escape, and_octal, and_octals, escape_piece, text_piece, Means};
ghost use Rattle.je_lexer.specs.way.Views.{units_said, piece_said, IsBadText};

use crate::characters::{
    BACKSLASH, BACKSPACE, CARRIAGE_RETURN, DIGIT_0, DIGIT_7, DOUBLE_QUOTE, FORM_FEED, LINE_FEED,
    LOWER_B, LOWER_F, LOWER_N, LOWER_R, LOWER_T, SINGLE_QUOTE, TAB,
};
use je_base::{Memory, Units};
use je_decode::Character;
use std::alloc::Global;

/// The units of a piece: a surrogate pair, or one unit.
#[derive(Clone, Copy)]
enum PieceUnits {
    One(u16),
    Pair(u16, u16),
}

/// Units, and what stands behind the characters that mean them.
#[derive(Clone, Copy)]
struct PieceFound<'a> {
    units: PieceUnits,
    rest: &'a [Character],
}

/// Why a literal has no units.
#[derive(Clone, Copy)]
pub enum TextFault {
    /// Want of memory.
    Memory,
    /// This backslash begins no escape.
    BadEscape(Character),
}

fn units_of(code: u32) -> PieceUnits
    ensures { units_said result ≡ units_of code }
{
    if code < 0x10000 {
        return PieceUnits::One(code as u16);
    }
    let bits = code - 0x10000;
    PieceUnits::Pair(
        0xD800 + ((bits / 0x400) % 0x400) as u16,
        0xDC00 + (bits % 0x400) as u16,
    )
}

fn is_octal(code: u32) -> bool
    ensures { result ≡ is_octal code }
{
    DIGIT_0 <= code && code <= DIGIT_7
}

fn simple_escape(code: u32) -> Option<u16>
    ensures { result ≡ simple_escape code }
{
    match code {
        LOWER_B => Some(BACKSPACE as u16),
        LOWER_T => Some(TAB as u16),
        LOWER_N => Some(LINE_FEED as u16),
        LOWER_F => Some(FORM_FEED as u16),
        LOWER_R => Some(CARRIAGE_RETURN as u16),
        DOUBLE_QUOTE => Some(DOUBLE_QUOTE as u16),
        SINGLE_QUOTE => Some(SINGLE_QUOTE as u16),
        BACKSLASH => Some(BACKSLASH as u16),
        _ => None,
    }
}

fn one_unit(unit: u16, rest: &[Character]) -> PieceFound<'_>
    ensures units { result.units ≡ PieceUnits.One unit }
    ensures rest { result.rest.now ≡ rest.now }
{
    PieceFound {
        units: PieceUnits::One(unit),
        rest,
    }
}

fn and_octal(value: u16, text: &[Character]) -> PieceFound<'_>
    requires { value ≤ 31 }
    ensures value { piece_said result ≡ and_octal value text.now }
    ensures shorter { length result.rest.now ≤ length text.now }
{
    match text.split_first() {
        Some((c, behind)) if is_octal(c.code) => one_unit(
            8 * value + (c.code - DIGIT_0) as u16,
            behind,
        ),
        _ => one_unit(value, text),
    }
}

fn and_octals(value: u16, text: &[Character]) -> PieceFound<'_>
    requires { value ≤ 7 }
    ensures value { piece_said result ≡ and_octals value text.now }
    ensures shorter { length result.rest.now ≤ length text.now }
{
    match text.split_first() {
        Some((c, behind)) if is_octal(c.code) => {
            let more = 8 * value + (c.code - DIGIT_0) as u16;
            if value <= 3 {
                and_octal(more, behind)
            } else {
                one_unit(more, behind)
            }
        }
        _ => one_unit(value, text),
    }
}

#[tactic(auto, unfolding(crate::specs::Texts::escape_piece))]
fn escape_piece(text: &[Character]) -> Option<PieceFound<'_>>
    ensures value { option_map piece_said result ≡ escape_piece text.now }
    ensures shorter { IfSome result (λ p. length p.rest.now ≤ length text.now) }
{
    let (c, behind) = text.split_first()?;
    if is_octal(c.code) {
        return Some(and_octals((c.code - DIGIT_0) as u16, behind));
    }
    let unit = simple_escape(c.code)?;
    Some(one_unit(unit, behind))
}

#[tactic(auto, unfolding(crate::specs::Texts::text_piece))]
fn text_piece(c: Character, behind: &[Character]) -> Option<PieceFound<'_>>
    ensures value { option_map piece_said result ≡ text_piece c behind.now }
    ensures shorter { IfSome result (λ p. length p.rest.now ≤ length behind.now) }
{
    if c.code == BACKSLASH {
        return escape_piece(behind);
    }
    Some(PieceFound {
        units: units_of(c.code),
        rest: behind,
    })
}

impl From<Memory> for TextFault {
    ghost use Rattle.je_lexer.specs.declared.texts.TextFault.TheVariants.{Memory as memory};

    ghost from_gives = { λ _ e. e ≡ memory };

    fn from(_: Memory) -> Self {
        TextFault::Memory
    }
}

fn push_units(units: &mut Units, more: PieceUnits) -> Result<(), Memory>
    ensures { OnOk result (units.new ≡ units.old ++ units_said more) }
{
    match more {
        PieceUnits::One(unit) => units.push(unit),
        PieceUnits::Pair(high, low) => {
            units.push(high)?;
            units.push(low)
        }
    }
}

/// The UTF-16 units of what stands between a literal's quotes.
pub fn read_text(alloc: Global, body: &[Character]) -> Result<Units, TextFault>
    ensures ok { IfOk result (λ units. Means body.now units) }
    ensures fault { IfErr result (IsBadText body.now) }
{
    let mut units = Units::new(alloc);
    let mut rest = body;
    while let Some((c, behind)) = rest.split_first() {
        let Some(piece) = text_piece(*c, behind) else {
            return Err(TextFault::BadEscape(*c));
        };
        push_units(&mut units, piece.units)?;
        rest = piece.rest;
    }
    Ok(units)
}
