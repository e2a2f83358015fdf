//! The tokens of a file.

use je_base::{Names, Units};
use je_token::Token;

/// A file's tokens.
#[derive(Drop)]
pub struct Tokens {
    /// The tokens, the last of which is the one token of kind End.
    pub list: Vec<Token>,
    /// The texts of identifiers and keywords; the first is the empty text, which other tokens have.
    pub names: Names,
    /// The units of string literals.
    pub texts: Vec<Units>,
}
