//! What token, if any, is cut at the front of a text.
ghost use Rattle.std.specs.Prelude.{◌≡◌, ◌<◌, ◌^◌, ℕ, List, length, IfOk, IfErr, IsTrue, IsFalse};
ghost use Rattle.je_lexer.specs.Classes.{begins_with};
ghost use Rattle.je_lexer.specs.Elements.{body};
ghost use Rattle.je_lexer.specs.Texts.{Means};
ghost use Rattle.je_lexer.specs.way.Steps.{IsToken, IsPiece, IsNoPiece, IsBadBody};

use crate::characters::SINGLE_QUOTE;
use crate::classes::{begins_with, tail};
use crate::cutting::Cut;
use crate::fault::{FaultKind, LexFault};
use crate::numbers::Number;
use crate::texts::{TextFault, read_text};
use crate::tokens::{make_token, number_kind, number_value, span_of, spell, word_kind};
use je_base::{Memory, NameId, Names, Span, Units};
use je_decode::Character;
use je_token::{Token, TokenKind};
use std::alloc::Global;

/// The token of an identifier or a keyword.
fn lex_word(
    alloc: Global,
    file: u16,
    names: &mut Names,
    len: usize,
    front: &[Character],
) -> Result<Token, Memory>
    requires { length names.old < 2 ^ 31 }
    ensures { (texts : List (List ℕ)) →
        IfOk result (IsToken file (Cut.Word len) front.now names.old texts names.new texts) }
{
    let text = spell(alloc, front)?;
    let id = names.intern(&text)?;
    Ok(make_token(file, word_kind(&text), id, 0, front))
}

/// What stands between a literal's quotes.
fn body(front: &[Character]) -> &[Character]
    ensures { result.now ≡ body front.now }
{
    let behind = tail(front);
    if front.len() < 2 {
        &behind[..0]
    } else {
        &behind[..front.len() - 2]
    }
}

/// The token of a character literal, which is one UTF-16 unit.
fn lex_char(alloc: Global, file: u16, len: usize, front: &[Character]) -> Result<Token, LexFault>
    requires { IsTrue (begins_with 39 front.now) }
    ensures ok { (names texts : List (List ℕ)) →
        IfOk result (IsToken file (Cut.Literal len) front.now names texts names texts) }
    ensures fault { IfErr result (IsNoPiece file (Cut.Literal len) front.now) }
{
    let units = match read_body(alloc, file, front) {
        Ok(units) => units,
        Err(fault) => return Err(fault),
    };
    let units = units.as_slice();
    if units.len() != 1 {
        return Err(LexFault::At {
            kind: FaultKind::BadLiteral,
            span: span_of(file, front),
        });
    }
    Ok(make_token(
        file,
        TokenKind::CharLiteral,
        NameId(0),
        i128::from(units[0]),
        front,
    ))
}

/// The token of a string literal.
fn lex_text(
    alloc: Global,
    file: u16,
    texts: &mut Vec<Units>,
    len: usize,
    front: &[Character],
) -> Result<Token, LexFault>
    requires { IsFalse (begins_with 39 front.now) }
    ensures ok { (names : List (List ℕ)) →
        IfOk result (IsToken file (Cut.Literal len) front.now names texts.old.items
        names texts.new.items) }
    ensures fault { IfErr result (IsNoPiece file (Cut.Literal len) front.now) }
{
    let units = match read_body(alloc, file, front) {
        Ok(units) => units,
        Err(fault) => return Err(fault),
    };
    let place = texts.len();
    texts.push(units)?;
    Ok(make_token(
        file,
        TokenKind::TextLiteral,
        NameId(0),
        place as i128,
        front,
    ))
}

/// The units of a literal.
fn read_body(alloc: Global, file: u16, front: &[Character]) -> Result<Units, LexFault>
    ensures ok { IfOk result (λ units. Means (body front.now) units) }
    ensures fault { IfErr result (IsBadBody file front.now) }
{
    match read_text(alloc, body(front)) {
        Ok(units) => Ok(units),
        Err(TextFault::Memory) => Err(LexFault::Memory),
        Err(TextFault::BadEscape(bad)) => Err(LexFault::At {
            kind: FaultKind::BadEscape,
            span: Span {
                file,
                start: bad.start,
                end: bad.end,
            },
        }),
    }
}

/// What a piece is.
pub fn lex_piece(
    alloc: Global,
    file: u16,
    names: &mut Names,
    texts: &mut Vec<Units>,
    cut: Cut,
    front: &[Character],
) -> Result<Option<Token>, LexFault>
    requires { length names.old < 2 ^ 31 }
    ensures ok { IfOk result
        (IsPiece file cut front.now names.old texts.old.items names.new texts.new.items) }
    ensures fault { IfErr result (IsNoPiece file cut front.now) }
{
    let token = match cut {
        Cut::Blank(_) => return Ok(None),
        Cut::Word(len) => lex_word(alloc, file, names, len, front)?,
        Cut::Symbol(s, _) => make_token(file, TokenKind::Symbol(s), NameId(0), 0, front),
        Cut::Number(n, _) => make_token(file, number_kind(n), NameId(0), number_value(n), front),
        Cut::Literal(len) => match lex_literal(alloc, file, texts, len, front) {
            Ok(token) => token,
            Err(fault) => return Err(fault),
        },
        Cut::Fault(kind, start, end) => {
            return Err(LexFault::At {
                kind,
                span: Span { file, start, end },
            });
        }
    };
    Ok(Some(token))
}

fn lex_literal(
    alloc: Global,
    file: u16,
    texts: &mut Vec<Units>,
    len: usize,
    front: &[Character],
) -> Result<Token, LexFault>
    ensures ok { (names : List (List ℕ)) →
        IfOk result (IsToken file (Cut.Literal len) front.now names texts.old.items
        names texts.new.items) }
    ensures fault { IfErr result (IsNoPiece file (Cut.Literal len) front.now) }
{
    if begins_with(SINGLE_QUOTE, front) {
        lex_char(alloc, file, len, front)
    } else {
        lex_text(alloc, file, texts, len, front)
    }
}
