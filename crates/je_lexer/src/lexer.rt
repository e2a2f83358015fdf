//! A file's tokens from left to right.
ghost use Rattle.std.specs.Prelude.{◌≡◌, ◌<◌, ◌≤◌, ◌^◌, ◌∷◌, length, unwrap_or, IfOk, IfErr};
ghost use Rattle.je_lexer.specs.way.Cutting.{cut_len};
ghost use Rattle.je_lexer.specs.Lexing.{IsTokens, IsUnlexed, end_token};
ghost use Rattle.je_decode.specs.Decoding.{IsRefused};
ghost use Rattle.je_lexer.specs.way.Reading.{IsStep, IsNoStep, IsWhole, IsNoWhole, IsFresh};

use crate::cutting::{Cut, cut_at};
use crate::fault::{FaultKind, LexFault};
use crate::file_tokens::Tokens;
use crate::pieces::lex_piece;
use je_base::{Memory, NameId, Names, Span};
use je_decode::{Character, DecodeFault, decode};
use je_token::{Token, TokenKind};
use std::alloc::Global;

/// How many characters are cut; 0 for a fault.
fn len_of(cut: Cut) -> usize
    ensures { result ≡ unwrap_or (cut_len cut) 0 }
{
    match cut {
        Cut::Blank(n) => n,
        Cut::Word(n) => n,
        Cut::Symbol(_, n) => n,
        Cut::Number(_, n) => n,
        Cut::Literal(n) => n,
        Cut::Fault(_, _, _) => 0,
    }
}

/// No tokens, and the one name that each file has.
fn no_tokens(alloc: Global) -> Result<Tokens, Memory>
    ensures { IfOk result IsFresh }
{
    let mut names = Names::new(alloc);
    names.intern("")?;
    Ok(Tokens {
        list: Vec::new(alloc),
        names,
        texts: Vec::new(alloc),
    })
}

/// Reads the input element at the front of `text`, which is `c` and what is behind it, and says how many characters it has.
fn step(
    alloc: Global,
    file: u16,
    file_end: u32,
    tokens: &mut Tokens,
    text: &[Character],
    c: Character,
    behind: &[Character],
) -> Result<usize, LexFault>
    requires parts { text.now ≡ c ∷ behind.now }
    requires few { length text.now < 2 ^ 63 }
    requires names { length tokens.old.names < 2 ^ 31 }
    ensures ok { IfOk result (IsStep file text.now tokens.old tokens.new) }
    ensures fault { IfErr result (IsNoStep file file_end text.now) }
{
    let cut = cut_at(file_end, text, c, behind);
    let len = len_of(cut);
    match lex_piece(
        alloc,
        file,
        &mut tokens.names,
        &mut tokens.texts,
        cut,
        &text[..len],
    ) {
        Ok(Some(token)) => tokens.list.push(token)?,
        Ok(None) => {}
        Err(fault) => return Err(fault),
    }
    Ok(len)
}

/// The tokens of a text's characters, without the one of kind End.
fn lex_characters(
    alloc: Global,
    file: u16,
    file_end: u32,
    characters: &[Character],
) -> Result<Tokens, LexFault>
    requires { length characters.now ≤ 2 ^ 20 }
    ensures ok { IfOk result (IsWhole file characters.now) }
    ensures fault { IfErr result (IsNoWhole file file_end characters.now) }
{
    let mut tokens = match no_tokens(alloc) {
        Ok(tokens) => tokens,
        Err(Memory) => return Err(LexFault::Memory),
    };
    let mut rest = characters;
    while let Some((c, behind)) = rest.split_first() {
        match step(alloc, file, file_end, &mut tokens, rest, *c, behind) {
            Ok(len) => rest = rest.split_at(len).1,
            Err(fault) => return Err(fault),
        }
    }
    Ok(tokens)
}

/// The tokens of a source file of at most 1,048,576 bytes, or why it has none: a byte that isn't UTF-8 comes before all other
/// faults, then a malformed Unicode escape, then the first in reading order.
pub fn lex(alloc: Global, file: u16, bytes: &[u8]) -> Result<Tokens, LexFault>
    requires { length bytes.now ≤ 2 ^ 20 }
    ensures ok { IfOk result (IsTokens file bytes.now) }
    ensures fault { IfErr result (IsUnlexed file bytes.now) }
    ensures names { IfOk result (λ tokens. length tokens.names ≤ length tokens.list.items) }
{
    let characters = match decode(alloc, bytes) {
        Ok(characters) => characters,
        Err(fault) => return Err(undecoded(file, fault, bytes)),
    };
    let file_end = bytes.len() as u32;
    let mut tokens = match lex_characters(alloc, file, file_end, &characters) {
        Ok(tokens) => tokens,
        Err(fault) => return Err(fault),
    };
    tokens.list.push(end_token(file, file_end))?;
    Ok(tokens)
}

/// The fault of bytes that have no characters.
fn undecoded(file: u16, fault: DecodeFault, bytes: &[u8]) -> LexFault
    requires why { IsRefused bytes.now fault }
    requires small { length bytes.now ≤ 2 ^ 20 }
    ensures { IsUnlexed file bytes.now result }
{
    match fault {
        DecodeFault::Memory => LexFault::Memory,
        DecodeFault::NotUtf8 { at } => fault_at(file, FaultKind::NotUtf8, at, at + 1),
        DecodeFault::BadEscape(bad) => fault_at(file, FaultKind::BadEscape, bad.start, bad.end),
    }
}

fn fault_at(file: u16, kind: FaultKind, start: u32, end: u32) -> LexFault
    ensures { result ≡ LexFault.At kind (record { file = file; start = start; end = end }) }
{
    LexFault::At {
        kind,
        span: Span { file, start, end },
    }
}

/// The token of kind End.
fn end_token(file: u16, file_end: u32) -> Token
    ensures { result ≡ end_token file file_end }
{
    Token {
        kind: TokenKind::End,
        span: Span {
            file,
            start: file_end,
            end: file_end,
        },
        text: NameId(0),
        value: 0,
        first_end: file_end,
        second_end: file_end,
    }
}
