//! Keywords and symbols.
ghost use Rattle.std.specs.Prelude.{◌≡◌, ◌≤◌, length};
ghost use Rattle.std.specs.Bool.{OnTrue};
ghost use Rattle.je_lexer.specs.Words.{all_keywords, keyword_of};
ghost use Rattle.je_lexer.specs.way.Symbols.{all_symbols, fits, symbol_len, longer, longest, symbol_at, FitsIn};

use je_decode::Character;
use je_table::find_keyword;
use je_token::{Keyword, Symbol};

/// The keyword that a word is.
#[tactic(auto, unfolding(crate::specs::Words::keyword_of))]
pub fn keyword(text: &str) -> Option<Keyword>
    ensures { result ≡ keyword_of text.now }
{
    let at = find_keyword(text)?;
    Keyword::ALL.get(at).copied()
}

fn fits(symbol: &[u8], text: &[Character]) -> bool
    ensures value { result ≡ fits symbol.now text.now }
    ensures within { OnTrue result (length symbol.now ≤ length text.now) }
{
    let mut rest = text;
    let mut bytes = symbol;
    while let Some((b, more)) = bytes.split_first() {
        let Some((c, behind)) = rest.split_first() else {
            return false;
        };
        if c.code != u32::from(*b) {
            return false;
        }
        rest = behind;
        bytes = more;
    }
    true
}

fn symbol_len(symbol: Option<Symbol>) -> usize
    ensures { result ≡ symbol_len symbol }
{
    match symbol {
        Some(s) => s.text().len(),
        None => 0,
    }
}

#[tactic(auto, unfolding(crate::specs::way::Symbols::longer))]
fn longer(best: Option<Symbol>, s: Symbol, text: &[Character]) -> Option<Symbol>
    requires { FitsIn best text.now }
    ensures value { result ≡ longer best s text.now }
    ensures within { FitsIn result text.now }
{
    let spelled = s.text();
    if fits(spelled.as_bytes(), text) && symbol_len(best) < spelled.len() {
        Some(s)
    } else {
        best
    }
}

/// The longest separator or operator at the front.
#[tactic(auto, unfolding(crate::specs::way::Symbols::symbol_at))]
pub fn symbol_at(text: &[Character]) -> Option<Symbol>
    ensures value { result ≡ symbol_at text.now }
    ensures within { FitsIn result text.now }
{
    let mut best = None;
    let mut symbols: &[Symbol] = &Symbol::ALL;
    while let Some((s, more)) = symbols.split_first() {
        best = longer(best, *s, text);
        symbols = more;
    }
    best
}
