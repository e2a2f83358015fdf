//! Classes of characters.
ghost use Rattle.std.specs.Prelude.{◌≡◌, ◌<◌, ◌≤◌, IfSome, if◌then◌else◌};
ghost use Rattle.std.specs.Char.{digit_value};
ghost use Rattle.je_lexer.specs.Classes.{is_space, ends_line, starts_name, continues_name, is_digit_below, begins_with, begins_with_digit, tail};

use crate::characters::{CARRIAGE_RETURN, FORM_FEED, LINE_FEED, SPACE, TAB};
use je_decode::Character;

/// White space: a space, a tab, a form feed, CR or LF (JLS 3.6).
pub fn is_space(code: u32) -> bool
    ensures { result ≡ is_space code }
{
    code == SPACE
        || code == TAB
        || code == FORM_FEED
        || code == CARRIAGE_RETURN
        || code == LINE_FEED
}

/// CR or LF (JLS 3.4).
pub fn ends_line(code: u32) -> bool
    ensures { result ≡ ends_line code }
{
    code == LINE_FEED || code == CARRIAGE_RETURN
}

/// A character that begins an identifier or a keyword: one of XID_Start, `_` or `$` (JLS 3.8).
#[tactic(auto, unfolding(crate::specs::Classes::starts_name))]
pub fn starts_name(code: u32) -> bool
    ensures { result ≡ starts_name code }
{
    match char::from_u32(code) {
        Some(c) => unicode_ident::is_xid_start(c) || c == '_' || c == '$',
        None => false,
    }
}

/// A character that goes on an identifier or a keyword: one of XID_Continue, or `$` (JLS 3.8).
#[tactic(auto, unfolding(crate::specs::Classes::continues_name))]
pub fn continues_name(code: u32) -> bool
    ensures { result ≡ continues_name code }
{
    match char::from_u32(code) {
        Some(c) => unicode_ident::is_xid_continue(c) || c == '$',
        None => false,
    }
}

/// Whether the character of this code point stands at the front.
pub fn begins_with(code: u32, text: &[Character]) -> bool
    ensures { result ≡ begins_with code text.now }
{
    match text.first() {
        Some(c) => c.code == code,
        None => false,
    }
}

/// What stands behind the first character, if there is one.
pub fn tail(text: &[Character]) -> &[Character]
    ensures { result.now ≡ tail text.now }
{
    match text.split_first() {
        Some((_, behind)) => behind,
        None => text,
    }
}

/// The value of a digit in a radix of at most 36.
pub fn digit(radix: u32, code: u32) -> Option<u32>
    requires small { radix ≤ 36 }
    requires some { 2 ≤ radix }
    ensures value { result ≡ (if is_digit_below radix code then Some (digit_value code) else None) }
    ensures below { IfSome result (λ d. d < radix) }
{
    match char::from_u32(code) {
        Some(c) => c.to_digit(radix),
        None => None,
    }
}

/// A digit in a radix of at most 36.
pub fn is_digit_below(radix: u32, code: u32) -> bool
    requires small { radix ≤ 36 }
    requires some { 2 ≤ radix }
    ensures { result ≡ is_digit_below radix code }
{
    digit(radix, code).is_some()
}

/// Whether a digit in a radix of at most 36 stands at the front.
pub fn begins_with_digit(radix: u32, text: &[Character]) -> bool
    requires small { radix ≤ 36 }
    requires some { 2 ≤ radix }
    ensures { result ≡ begins_with_digit radix text.now }
{
    match text.first() {
        Some(c) => is_digit_below(radix, c.code),
        None => false,
    }
}
