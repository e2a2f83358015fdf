//! How many characters stand at the front of a text.
ghost use Rattle.std.specs.Prelude.{◌≡◌, ◌≤◌, length, false};
ghost use Rattle.je_lexer.specs.Numbers.{hexadecimal_run};
ghost use Rattle.je_lexer.specs.way.Runs.{space_run, name_run, number_run, line_run, comment_run, literal_run};

use crate::characters::{BACKSLASH, POINT, SLASH, STAR};
use crate::classes::{begins_with, continues_name, ends_line, is_digit_below, is_space};
use je_decode::Character;

/// The white space at the front.
pub fn space_run(text: &[Character]) -> usize
    ensures value { result ≡ space_run text.now }
    ensures within { result ≤ length text.now }
{
    text.iter().take_while(|c| is_space(c.code)).count()
}

/// The characters of an identifier at the front.
pub fn name_run(text: &[Character]) -> usize
    ensures value { result ≡ name_run text.now }
    ensures within { result ≤ length text.now }
{
    text.iter().take_while(|c| continues_name(c.code)).count()
}

/// The characters of identifiers, and points, at the front.
pub fn number_run(text: &[Character]) -> usize
    ensures value { result ≡ number_run text.now }
    ensures within { result ≤ length text.now }
{
    text.iter()
        .take_while(|c| continues_name(c.code) || c.code == POINT)
        .count()
}

/// The hexadecimal digits at the front.
pub fn hexadecimal_run(text: &[Character]) -> usize
    ensures value { result ≡ hexadecimal_run text.now }
    ensures within { result ≤ length text.now }
{
    text.iter()
        .take_while(|c| is_digit_below(16, c.code))
        .count()
}

/// Up to the line's end.
pub fn line_run(text: &[Character]) -> usize
    ensures value { result ≡ line_run text.now }
    ensures within { result ≤ length text.now }
{
    text.iter().take_while(|c| !ends_line(c.code)).count()
}

/// Up to the first `*/`.
pub fn comment_run(text: &[Character]) -> usize
    ensures value { result ≡ comment_run text.now }
    ensures within { result ≤ length text.now }
{
    let mut n = 0;
    let mut rest = text;
    while let Some((c, behind)) = rest.split_first() {
        if c.code == STAR && begins_with(SLASH, behind) {
            return n;
        }
        n += 1;
        rest = behind;
    }
    n
}

/// What stands between a literal's quotes, or up to its line's end.
pub fn literal_run(quote: u32, text: &[Character]) -> usize
    ensures value { result ≡ literal_run quote false text.now }
    ensures within { result ≤ length text.now }
{
    let mut n = 0;
    let mut escaped = false;
    let mut rest = text;
    while let Some((c, behind)) = rest.split_first() {
        if ends_line(c.code) || !escaped && c.code == quote {
            return n;
        }
        n += 1;
        escaped = !escaped && c.code == BACKSLASH;
        rest = behind;
    }
    n
}
