//! What token the characters of a piece are.
ghost use Rattle.std.specs.Prelude.{◌≡◌, ◌<◌, ◌^◌, ℤ, pos, length, IfOk, OnOk, OnErr, Some, string_bytes};
ghost use Rattle.je_base.specs.Names.{interned, number_of};
ghost use Rattle.je_lexer.specs.Spans.{first_end, second_end, span_of};
ghost use Rattle.je_lexer.specs.Tokens.{token, spelled, word_kind, number_kind, number_value, no_name};

use crate::cutting::{end_of, start_of};
use crate::numbers::Number;
use crate::words::keyword;
use je_base::{Memory, NameId, Names, Span, Units};
use je_decode::Character;
use je_token::{Token, TokenKind};
use std::alloc::Global;

fn second_end(front: &[Character]) -> u32
    ensures { result ≡ second_end front.now }
{
    match front {
        [] => 0,
        [c] => c.end,
        [_, d, ..] => d.end,
    }
}

fn first_end(front: &[Character]) -> u32
    ensures { result ≡ first_end front.now }
{
    match front.first() {
        Some(c) => c.end,
        None => 0,
    }
}

/// The bytes of a piece.
pub fn span_of(file: u16, front: &[Character]) -> Span
    ensures { result ≡ span_of file front.now }
{
    Span {
        file,
        start: start_of(0, front),
        end: end_of(0, front),
    }
}

/// The token of a piece.
#[tactic(auto, unfolding(crate::specs::Tokens::token))]
pub fn make_token(
    file: u16,
    kind: TokenKind,
    text: NameId,
    value: i128,
    front: &[Character],
) -> Token
    ensures { result ≡ token file kind text value front.now }
{
    Token {
        kind,
        span: span_of(file, front),
        text,
        value,
        first_end: first_end(front),
        second_end: second_end(front),
    }
}

/// The characters of a name in UTF-8.
pub fn spell(alloc: Global, front: &[Character]) -> Result<String, Memory>
    ensures { IfOk result (λ text. string_bytes text ≡ spelled front.now) }
{
    let mut text = String::new(alloc);
    let mut rest = front;
    while let Some((c, behind)) = rest.split_first() {
        if let Some(c) = char::from_u32(c.code) {
            text.push(c)?;
        }
        rest = behind;
    }
    Ok(text)
}

/// The kind of a word: the keyword that it is, or an identifier.
#[tactic(auto, unfolding(crate::specs::Tokens::word_kind))]
pub fn word_kind(text: &str) -> TokenKind
    ensures { result ≡ word_kind text.now }
{
    match keyword(text) {
        Some(k) => TokenKind::Keyword(k),
        None => TokenKind::Identifier,
    }
}

/// The kind of an integer literal.
pub fn number_kind(n: Number) -> TokenKind
    ensures { result ≡ number_kind n }
{
    if n.long {
        TokenKind::LongLiteral
    } else {
        TokenKind::IntLiteral
    }
}

/// The value of a literal, in two's complement where it isn't decimal.
#[tactic(auto, unfolding(crate::specs::Tokens::number_value))]
pub fn number_value(n: Number) -> i128
    ensures { result ≡ number_value n }
{
    let value = i128::from(n.value);
    if n.decimal {
        value
    } else if n.long {
        if n.value < 0x8000_0000_0000_0000 {
            value
        } else {
            value - 0x1_0000_0000_0000_0000
        }
    } else {
        if n.value < 0x8000_0000 {
            value
        } else {
            value - 0x1_0000_0000
        }
    }
}
