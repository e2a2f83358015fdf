//! Java 5's tokens: from a file's bytes to its token list, or the one fault that stands first.
//!
//! `lex` gives the tokens that the definition `Rattle.je_lexer.specs.Lexing.IsTokens` says, or the fault that `IsUnlexed` says.
//! Contracts see `Tokens` as the record of its lists: the tokens, the names' texts and the string literals' units. The layer
//! above uses `lex`, `Tokens`, `LexFault` and `FaultKind`, and the token types, which are exported from here.
//!
//! A file's characters (`je_decode`) are a row of input elements: white space, comments and tokens. The definitions say what an
//! element is (`Elements`), what stands where none begins (`Faults`), what token an element is (`Tokens`), and what a row of the
//! longest ones is (`Lexing`). What `specs/way` defines, only proofs and private functions' clauses cite.
//!
//! `cutting` says what stands at the front of a text; `pieces` says what token its characters are; `lexer` takes one after
//! another, from left to right.
#![tactic(auto)]

mod characters;
mod classes;
mod cutting;
mod fault;
mod file_tokens;
mod laws;
mod lexer;
mod numbers;
mod pieces;
mod runs;
mod texts;
mod tokens;
mod words;

pub use fault::{FaultKind, LexFault};
pub use file_tokens::Tokens;
pub use je_token::{Keyword, Symbol, Token, TokenKind};
pub use laws::{
    answer_is_one, fault_inside, keyword_spelled, one_element, tokens_are_whole, tokens_inside,
    tokens_or_fault,
};
pub use lexer::lex;
