//! What stands at the front of a text.
ghost use Rattle.std.specs.Prelude.{◌≡◌, ◌<◌, ◌≤◌, ◌+◌, ◌^◌, ◌∷◌, length, IfSome, None};
ghost use Rattle.je_lexer.specs.Spans.{end_of, start_of};
ghost use Rattle.je_lexer.specs.way.Cutting.{bad_number, number_cut, literal_cut, comment_cut, if_symbol, cut_at, cut_len};

use crate::characters::{DOUBLE_QUOTE, POINT, SINGLE_QUOTE, SLASH, STAR};
use crate::classes::{begins_with, begins_with_digit, is_digit_below, is_space, starts_name, tail};
use crate::fault::FaultKind;
use crate::numbers::{Number, number_before};
use crate::runs::{comment_run, line_run, literal_run, name_run, number_run, space_run};
use crate::words::symbol_at;
use je_decode::Character;
use je_token::Symbol;

/// What stands at the front of a text, each with the number of its characters.
#[derive(Clone, Copy)]
pub enum Cut {
    /// White space or a comment.
    Blank(usize),
    /// An identifier or a keyword.
    Word(usize),
    /// A separator or operator.
    Symbol(Symbol, usize),
    /// An integer literal.
    Number(Number, usize),
    /// A character or string literal, with its quotes.
    Literal(usize),
    /// A fault, from a byte to a byte.
    Fault(FaultKind, u32, u32),
}

/// The byte behind the last of the characters; `end` where there is none.
pub fn end_of(end: u32, text: &[Character]) -> u32
    ensures { result ≡ end_of end text.now }
{
    let mut last = end;
    let mut rest = text;
    while let Some((c, behind)) = rest.split_first() {
        last = c.end;
        rest = behind;
    }
    last
}

/// The byte at which the text begins; the file's end where it is empty.
pub fn start_of(file_end: u32, text: &[Character]) -> u32
    ensures { result ≡ start_of file_end text.now }
{
    match text.first() {
        Some(c) => c.start,
        None => file_end,
    }
}

#[tactic(auto, unfolding(crate::specs::way::Cutting::bad_number))]
fn bad_number(c: Character, behind: &[Character]) -> Cut
    ensures value { result ≡ bad_number c behind.now }
    ensures none { cut_len result ≡ None }
{
    Cut::Fault(
        FaultKind::BadLiteral,
        c.start,
        end_of(c.end, &behind[..number_run(behind)]),
    )
}

#[tactic(auto, unfolding(crate::specs::way::Cutting::literal_cut))]
fn literal_cut(file_end: u32, c: Character, behind: &[Character]) -> Cut
    requires { length behind.now < 2 ^ 63 }
    ensures value { result ≡ literal_cut file_end c behind.now }
    ensures within { IfSome (cut_len result) (λ n. (0 < n) × (n ≤ length behind.now + 1)) }
{
    let n = literal_run(c.code, behind);
    let rest = &behind[n..];
    if begins_with(c.code, rest) {
        Cut::Literal(n + 2)
    } else {
        Cut::Fault(FaultKind::OpenText, c.start, start_of(file_end, rest))
    }
}

#[tactic(auto, unfolding(crate::specs::way::Cutting::comment_cut))]
fn comment_cut(file_end: u32, c: Character, behind: &[Character]) -> Cut
    requires { length behind.now < 2 ^ 63 }
    ensures value { result ≡ comment_cut file_end c behind.now }
    ensures within { IfSome (cut_len result) (λ n. (0 < n) × (n ≤ length behind.now + 2)) }
{
    let n = comment_run(behind);
    let rest = &behind[n..];
    if begins_with(STAR, rest) && begins_with(SLASH, tail(rest)) {
        Cut::Blank(n + 4)
    } else {
        Cut::Fault(FaultKind::OpenComment, c.start, file_end)
    }
}

#[tactic(auto, unfolding(crate::specs::way::Cutting::number_cut))]
fn number_cut(text: &[Character], c: Character, behind: &[Character]) -> Cut
    requires parts { text.now ≡ c ∷ behind.now }
    requires few { length text.now < 2 ^ 63 }
    ensures value { result ≡ number_cut c behind.now }
    ensures within { IfSome (cut_len result) (λ n. (0 < n) × (n ≤ length text.now)) }
{
    let n = name_run(behind);
    match number_before(&behind[n..], &text[..n + 1]) {
        Some(number) => Cut::Number(number, n + 1),
        None => bad_number(c, behind),
    }
}

/// What stands at the front of `text`, which is `c` and what is behind it.
#[tactic(auto, unfolding(crate::specs::way::Cutting::cut_at))]
pub fn cut_at(file_end: u32, text: &[Character], c: Character, behind: &[Character]) -> Cut
    requires parts { text.now ≡ c ∷ behind.now }
    requires few { length text.now < 2 ^ 63 }
    ensures value { result ≡ cut_at file_end c behind.now }
    ensures within { IfSome (cut_len result) (λ n. (0 < n) × (n ≤ length text.now)) }
{
    if is_space(c.code) {
        return Cut::Blank(space_run(behind) + 1);
    }
    if starts_name(c.code) {
        return Cut::Word(name_run(behind) + 1);
    }
    if is_digit_below(10, c.code) {
        return number_cut(text, c, behind);
    }
    if c.code == POINT && begins_with_digit(10, behind) {
        return bad_number(c, behind);
    }
    if c.code == DOUBLE_QUOTE || c.code == SINGLE_QUOTE {
        return literal_cut(file_end, c, behind);
    }
    if c.code == SLASH && begins_with(SLASH, behind) {
        return Cut::Blank(line_run(behind) + 1);
    }
    if c.code == SLASH && begins_with(STAR, behind) {
        return comment_cut(file_end, c, tail(behind));
    }
    match symbol_at(text) {
        Some(s) => Cut::Symbol(s, s.text().len()),
        None => Cut::Fault(FaultKind::BadChar, c.start, c.end),
    }
}
